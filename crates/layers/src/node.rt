// A node of the tree.
ghost use Rattle.std.specs.Prelude.{◌≡◌, ◌-◌, ◌≤◌, length, take, drop, MatchOption};

// The draws `start..end`, and then perhaps a layer.
#[derive(Clone, Copy, Debug, Default)]
pub struct Node {
    pub start: u32,
    pub end: u32,
    pub layer: Option<u32>,
    // The layer whose list the node belongs to; none is the root.
    pub owner: Option<u32>,
}

impl Node {
    // The node's part of the draw list; nothing where its range does not lie in the list.
    pub fn draws_in<'a, D>(&self, draws: &'a [D]) -> Option<&'a [D]>
        ensures { MatchOption result (self.now.start ≤ self.now.end → self.now.end ≤ length draws.now → ⊥) (λ part. (self.now.start ≤ self.now.end) × (self.now.end ≤ length draws.now) × (part.now ≡ take (self.now.end - self.now.start) (drop self.now.start draws.now))) }
    {
        draws.get(self.start as usize..self.end as usize)
    }
}
