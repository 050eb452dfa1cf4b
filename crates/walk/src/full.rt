// The full walk: each node's draws, and then its layer's beginning, contents and end.
ghost use Rattle.std.specs.Prelude.{◌≡◌, ◌+◌, ◌≤◌, false, length, MatchOption};
ghost use Rattle.refusal.specs.Refusals.{Answers};
ghost use Rattle.record.specs.Table.{held};
ghost use Rattle.walk.specs.FullWalk.{FullWalk, listed, entry_count, walk_questions};
ghost use Rattle.walk.specs.Listing.{Walked};
ghost use Rattle.walk.specs.Walk.{Next, room, starts};

use crate::listed::Listed;
use crate::listing::Listing;
use layers::node::Node;
use record::account::MAX_LAYERS;
use record::recorder::CommandRecorder;
use refusal::Refusal;

// The first node, where there is one and it is the owner's, and the nodes after it.
pub fn next_of(nodes: &[Node], owner: Option<u32>) -> Option<(&Node, &[Node])>
    ensures { MatchOption result (starts owner nodes.now ≡ false) (λ next. Next owner nodes.now next.0.now next.1.now) }
{
    let (node, rest) = nodes.split_first()?;
    (node.owner == owner).then_some((node, rest))
}

impl Listing<'_> {
    // Lists the owner's nodes from the first on, with the layers that they hold, and answers the nodes after them.
    // `depth` is how many layers further in the walk may go. A recursion over the plain table, as the rules have it;
    // a tile's walk is another, since it lists otherwise.
    #[tactic(auto, using(crate::proofs::Listings::walk_steps))]
    fn list_layer<'n>(&mut self, nodes: &'n [Node], owner: Option<u32>, depth: u32) -> &'n [Node]
        requires places { self.old.count + room nodes.now ≤ length self.old.out.now }
        requires deep { held nodes.now ≤ depth }
        ensures walked { Walked owner nodes.now self.old result.now self.new }
        ensures stopped { starts owner result.now ≡ false }
    {
        let mut rest = nodes;
        while let Some((node, later)) = next_of(rest, owner) {
            self.push_draws(node);
            rest = later;
            if let Some(layer) = node.layer {
                self.push(Listed::Enter(layer));
                rest = self.list_layer(rest, Some(layer), depth - 1);
                self.push(Listed::Leave(layer));
            }
        }
        rest
    }
}

// How many entries a full walk has: one for each draw, and two for each layer.
#[tactic(auto, using(crate::proofs::Counts::length_listed))]
pub fn entry_count(recorder: &CommandRecorder) -> usize
    ensures count { result ≡ entry_count recorder.now }
    ensures all { length (listed recorder.now) ≡ entry_count recorder.now }
{
    recorder.draw_count() as usize + 2 * recorder.layer_count() as usize
}

// Lists all that was recorded, in order, from the first place of `out` on, and answers the count of entries.
// Later places are left as they were.
pub fn full_walk(recorder: &CommandRecorder, out: &mut [Listed]) -> Result<usize, Refusal>
    ensures { Answers (walk_questions recorder.now (length out.old)) result (λ n. FullWalk recorder.now n out.old out.new) (out.new ≡ out.old) }
{
    if recorder.has_layers() {
        return Err(Refusal::LayerOpen);
    }
    if out.len() < entry_count(recorder) {
        return Err(Refusal::NoPlaceInList);
    }
    let mut list = Listing { out, count: 0 };
    list.list_layer(recorder.nodes(), None, MAX_LAYERS);
    Ok(list.count)
}
