// The tree: the nodes in the order in which they were made, and the layers in the order in which they were opened.
use crate::account::LAYER_PLACES;
use crate::table::Table;
use layers::layer::RecordedLayer;
use layers::node::Node;
use std::marker::Model;

// Two for each of 256 layers at the most, and one more.
pub const MAX_NODES: usize = 513;

// A struct of its own: the record of a closed layer is changed through a method of the table.
#[derive(Drop)]
pub struct LayerTable {
    pub(crate) records: Table<RecordedLayer, LAYER_PLACES>,
}

#[derive(Drop)]
pub struct Tree {
    // One table for all layers, each node with its owner, and no boxes: a recorder needs no heap.
    pub(crate) nodes: Table<Node, MAX_NODES>,
    pub(crate) layers: LayerTable,
    // The numbers of the filter layers, in the order in which they were opened.
    pub(crate) filter_layers: Table<u32, LAYER_PLACES>,
}

// Clauses see the nodes latest first.
impl Model for Tree {
    ghost use Rattle.std.specs.Prelude.{reverse};
    ghost use Rattle.record.specs.Tree.{TreeView};

    ghost Value = { TreeView };

    ghost view = { λ t. record { nodes = reverse t.nodes; layers = t.layers.records; filters = t.filter_layers } };
}
