// A list as it grows: its entries are written where there is a place for them, and counted in any case.
ghost use Rattle.std.specs.Prelude.{◌≡◌, ◌^◌, ◌<◌, [], ◌∷◌, slice_set};
ghost use Rattle.tiles.specs.Tally.{begun, Added};

use walk::listed::Listed;

// Not the full walk's list, which has a place for every entry: one list for both would ask here what only that walk has.
// The list is the caller's, written from its first place on.
#[derive(Drop)]
pub(crate) struct Tally<'a> {
    pub(crate) out: &'a mut [Listed],
    pub(crate) count: usize,
    // The last draw listed.
    pub(crate) top: Option<u32>,
}

// Writes an entry where there is a place for it.
fn put(out: &mut [Listed], place: usize, entry: Listed)
    ensures { out.new ≡ slice_set out.old place entry }
{
    // By its index: what a slice's get_mut lends says nothing of the list afterwards.
    if place < out.len() {
        out[place] = entry;
    }
}

impl<'a> Tally<'a> {
    // A list without entries.
    pub(crate) fn new(out: &'a mut [Listed]) -> Tally<'a>
        ensures { Added [] (begun out.entry) result }
    {
        Tally {
            out,
            count: 0,
            top: None,
        }
    }

    pub(crate) fn push(&mut self, entry: Listed)
        requires { self.old.count < 2 ^ 32 }
        ensures { Added (entry ∷ []) self.old self.new }
    {
        put(self.out, self.count, entry);
        self.count += 1;
        if let Listed::Draw(number) = entry {
            self.top = Some(number);
        }
    }
}
