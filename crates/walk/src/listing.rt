// A list as it grows.
ghost use Rattle.std.specs.Prelude.{◌≡◌, ◌+◌, ◌-◌, ◌<◌, ◌≤◌, [], ◌∷◌, length};
ghost use Rattle.walk.specs.Listing.{poured, Added};
ghost use Rattle.walk.specs.Walk.{spanned, own_draws};

use crate::listed::Listed;
use layers::node::Node;

// The first `count` places of `out` are written. The list is the caller's, and is told the count.
#[derive(Drop)]
pub(crate) struct Listing<'a> {
    pub(crate) out: &'a mut [Listed],
    pub(crate) count: usize,
}

// Writes the draws `start..end` from the place `at` on, and answers the next place. Not by `push`: the place would be
// read and written at each turn.
fn write_draws(start: u32, end: u32, out: &mut [Listed], at: usize) -> usize
    requires { at + (end - start) ≤ length out.old }
    ensures next { result ≡ at + (end - start) }
    ensures places { out.new ≡ poured at (spanned start (end - start)) out.old }
{
    let mut place = at;
    for number in start..end {
        out[place] = Listed::Draw(number);
        place += 1;
    }
    place
}

impl Listing<'_> {
    pub(crate) fn push(&mut self, entry: Listed)
        requires { self.old.count < length self.old.out.now }
        ensures { Added (entry ∷ []) self.old self.new }
    {
        self.out[self.count] = entry;
        self.count += 1;
    }

    // Adds the node's own draws.
    pub(crate) fn push_draws(&mut self, node: &Node)
        requires { self.old.count + (node.now.end - node.now.start) ≤ length self.old.out.now }
        ensures { Added (own_draws node.now) self.old self.new }
    {
        self.count = write_draws(node.start, node.end, self.out, self.count);
    }
}
