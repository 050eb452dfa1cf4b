// A table of a fixed size with a count of what it holds: it needs no heap.
ghost use Rattle.std.specs.Prelude.{◌≡◌, ◌↔◌, ◌-◌, ◌<◌, ◌≤◌, [], ◌∷◌, ◌++◌, length, IsSome, OnSome, slice_set};
ghost use Rattle.std.specs.List.{slice_get};
ghost use Rattle.std.specs.Option.{option_to_list};

use std::marker::Model;

// Not the kit's `ArrayVec`, which writes a blank over each element that it lets go. Here they are plain values, and what
// stands past the count is left as it is, so that a table of any length is emptied in one step.
#[derive(Drop)]
pub struct Table<T, const N: usize> {
    places: [T; N],
    count: usize,
}

// Clauses see what it holds, in order.
impl<T, const N: usize> Model for Table<T, N> {
    ghost use Rattle.std.specs.Prelude.{◌≡◌, ◌≤◌, List, length, take};

    ghost Value = { List T };

    ghost view = { λ t. take t.count t.places };

    ghost invariant = { λ t. (t.count ≤ N) × (length t.places ≡ N) };
}

impl<T: Copy + Default, const N: usize> Table<T, N> {
    pub(crate) fn new() -> Table<T, N>
        ensures { result ≡ [] }
    {
        Table {
            places: [T::default(); N],
            count: 0,
        }
    }

    pub(crate) fn len(&self) -> usize
        ensures value { result ≡ length self.now }
        ensures fits { result ≤ N }
    {
        self.count
    }

    // How many places there are, taken or not.
    pub(crate) fn capacity(&self) -> usize
        ensures { result ≡ N }
    {
        self.places.len()
    }

    pub(crate) fn as_slice(&self) -> &[T]
        ensures { result.now ≡ self.now }
    {
        &self.places[..self.count]
    }

    pub(crate) fn get(&self, place: usize) -> Option<T>
        ensures { result ≡ slice_get self.now place }
    {
        self.as_slice().get(place).copied()
    }

    // One more, after the others.
    pub(crate) fn push(&mut self, element: T)
        requires { length self.old < N }
        ensures { self.new ≡ self.old ++ element ∷ [] }
    {
        self.places[self.count] = element;
        self.count += 1;
    }

    // What stands at a place is written anew; past the count nothing is.
    pub(crate) fn set(&mut self, place: usize, element: T)
        ensures { self.new ≡ slice_set self.old place element }
    {
        if place < self.count {
            self.places[place] = element;
        }
    }

    // The last, where there is one, is written anew. Taken out and put back it would be copied twice at each draw.
    pub(crate) fn set_last(&mut self, element: T)
        ensures { self.new ≡ slice_set self.old (length self.old - 1) element }
    {
        self.set(self.len().saturating_sub(1), element);
    }

    // Takes the last, where there is one.
    pub(crate) fn pop(&mut self) -> Option<T>
        ensures items { self.old ≡ self.new ++ option_to_list result }
        ensures variant { IsSome result ↔ (0 < length self.old) }
        ensures room { OnSome result (length self.new < N) }
    {
        let last = self.as_slice().last().copied()?;
        self.count -= 1;
        Some(last)
    }

    pub(crate) fn clear(&mut self)
        ensures { self.new ≡ [] }
    {
        self.count = 0;
    }
}
