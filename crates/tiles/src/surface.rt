// What a tile walk starts at.
ghost use Rattle.std.specs.Prelude.{◌≡◌, Some, position};
ghost use Rattle.record.specs.Table.{same};
ghost use Rattle.tiles.specs.Tile.{is_surface, filter_at};
ghost use Rattle.tiles.specs.TileSteps.{owner_of, past_holder, nodes_of};

use layers::layer::{RecordedLayer, RecordedLayerKind};
use layers::node::Node;

// Not an Option: the names say what a walk starts at.
#[derive(Clone, Copy, Debug, PartialEq, Eq)]
pub enum Surface {
    Scene,
    // A filter layer, by its number.
    Layer(u32),
}

// Whether this is the number of a recorded filter layer.
fn is_filter(layers: &[RecordedLayer], number: u32) -> bool
    ensures { result ≡ filter_at layers.now number }
{
    let layer = layers.get(number as usize);
    layer.is_some_and(|layer| matches!(layer.kind, RecordedLayerKind::Filter { .. }))
}

// The place of the node that holds the layer.
fn holder(nodes: &[Node], layer: u32) -> Option<usize>
    ensures { result ≡ position (λ x. same x.layer (Some layer)) nodes.now }
{
    nodes.iter().position(|node| node.layer == Some(layer))
}

// The nodes after the one that holds the layer.
fn past_holder(nodes: &[Node], layer: u32) -> &[Node]
    ensures { result.now ≡ past_holder layer nodes.now }
{
    match holder(nodes, layer) {
        Some(place) => &nodes[place + 1..],
        None => &[],
    }
}

impl Surface {
    pub(crate) fn is_recorded(self, layers: &[RecordedLayer]) -> bool
        ensures { result ≡ is_surface self layers.now }
    {
        match self {
            Surface::Scene => true,
            Surface::Layer(number) => is_filter(layers, number),
        }
    }

    // The layer whose nodes lie on the surface; none is the root.
    pub(crate) fn owner(self) -> Option<u32>
        ensures { result ≡ owner_of self }
    {
        match self {
            Surface::Scene => None,
            Surface::Layer(number) => Some(number),
        }
    }

    // The nodes from the surface's first on.
    pub(crate) fn nodes(self, nodes: &[Node]) -> &[Node]
        ensures { result.now ≡ nodes_of self nodes.now }
    {
        match self {
            Surface::Scene => nodes,
            Surface::Layer(number) => past_holder(nodes, number),
        }
    }
}
