// What the constants are, and how many places the tables have. A constant has no contract of its own, nor has a type:
// the contract of a function that answers it says its value.
ghost use Rattle.std.specs.Prelude.{◌≡◌};

use crate::recorder::CommandRecorder;
use crate::tree::MAX_NODES;

fn max_nodes() -> usize
    ensures { result ≡ 513 }
{
    MAX_NODES
}

// For nodes, layers, filter layers and open layers.
fn table_places(recorder: &CommandRecorder) -> (usize, usize, usize, usize)
    ensures { result ≡ (513, 256, 256, 256) }
{
    let tree = &recorder.tree;
    let nodes = tree.nodes.capacity();
    let layers = tree.layers.records.capacity();
    let filter_layers = tree.filter_layers.capacity();
    let open_layers = recorder.account.layer_stack.capacity();
    (nodes, layers, filter_layers, open_layers)
}
