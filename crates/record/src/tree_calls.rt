// What each recording call makes of the tree.
ghost use Rattle.std.specs.Prelude.{◌≡◌, ◌<◌, false, [], length};
ghost use Rattle.record.specs.Table.{joins, joined, lengthen, hang};
ghost use Rattle.layers.specs.Records.{recorded_closed};
ghost use Rattle.record.specs.Tree.{empty_tree, with_nodes, tree_after_draw, tree_after_opening, tree_after_closing, change_at};

use crate::table::Table;
use crate::tree::{LayerTable, Tree};
use filter::data::FilterData;
use layers::closing::placed_kind;
use layers::layer::{ClosedLayer, RecordedLayer};
use layers::node::Node;

impl LayerTable {
    fn new() -> LayerTable
        ensures { result.records ≡ [] }
    {
        LayerTable {
            records: Table::new(),
        }
    }

    // Changes the record of the layer that was closed, at its place.
    fn close(&mut self, id: u32, closed: &ClosedLayer)
        ensures { self.new.records ≡ change_at (recorded_closed closed.now) id self.old.records }
    {
        let place = id as usize;
        if let Some(layer) = self.records.get(place) {
            let kind = placed_kind(layer.kind, closed.placement);
            let bbox = closed.bbox;
            self.records.set(
                place,
                RecordedLayer {
                    kind,
                    bbox,
                    ..layer
                },
            );
        }
    }
}

// That there is a place for one more node rests on how many layers are open, which the account knows: so it is asked for, and is no invariant.
impl Tree {
    pub(crate) fn new() -> Tree
        ensures { result ≡ empty_tree }
    {
        Tree {
            nodes: Table::new(),
            layers: LayerTable::new(),
            filter_layers: Table::new(),
        }
    }

    pub(crate) fn clear(&mut self)
        ensures { self.new ≡ empty_tree }
    {
        self.nodes.clear();
        self.layers.records.clear();
        self.filter_layers.clear();
    }

    // Whether the table's last node is the owner's, and has no layer.
    fn joins_last(&self, owner: Option<u32>) -> bool
        ensures { result ≡ joins self.now.nodes owner }
    {
        self.nodes
            .as_slice()
            .last()
            .is_some_and(|last| last.layer.is_none() && last.owner == owner)
    }

    // The last node's draws end at `end` from now on.
    fn lengthen_last(&mut self, end: u32)
        ensures { self.new ≡ with_nodes (lengthen end self.old.nodes) self.old }
    {
        if let Some(last) = self.nodes.as_slice().last().copied() {
            self.nodes.set_last(Node { end, ..last });
        }
    }

    // The last node holds the layer from now on.
    fn hang_last(&mut self, layer: u32)
        ensures { self.new ≡ with_nodes (hang layer self.old.nodes) self.old }
    {
        if let Some(last) = self.nodes.as_slice().last().copied() {
            let layer = Some(layer);
            self.nodes.set_last(Node { layer, ..last });
        }
    }

    // Makes the table's last node one of the owner's without a layer: an empty one after `draws` draws, where it is not one already.
    fn join_last(&mut self, owner: Option<u32>, draws: u32)
        requires { joins self.old.nodes owner ≡ false → length self.old.nodes < 513 }
        ensures { self.new ≡ with_nodes (joined owner draws self.old.nodes) self.old }
    {
        if !self.joins_last(owner) {
            self.nodes.push(Node {
                start: draws,
                end: draws,
                layer: None,
                owner,
            });
        }
    }

    // Draw `number` goes to the owner's last node, or to a node of its own.
    pub(crate) fn push_draw(&mut self, number: u32, owner: Option<u32>)
        requires number { number < 1048576 }
        requires place { joins self.old.nodes owner ≡ false → length self.old.nodes < 513 }
        ensures { self.new ≡ tree_after_draw number owner self.old }
    {
        self.join_last(owner, number);
        self.lengthen_last(number + 1);
    }

    // Records layer `id`, now open, after `draws` draws. `filter` stands beside the layer as in the call that brings both.
    pub(crate) fn open_layer(
        &mut self,
        id: u32,
        draws: u32,
        layer: RecordedLayer,
        filter: Option<FilterData>,
        owner: Option<u32>,
    )
        requires layers { length self.old.layers < 256 }
        requires filters { length self.old.filters < 256 }
        requires place { joins self.old.nodes owner ≡ false → length self.old.nodes < 513 }
        ensures { self.new ≡ tree_after_opening id draws layer filter owner self.old }
    {
        self.join_last(owner, draws);
        self.hang_last(id);
        self.layers.records.push(layer);
        if filter.is_some() {
            self.filter_layers.push(id);
        }
    }

    // Changes the record of the layer that was closed.
    pub(crate) fn close_layer(&mut self, id: u32, closed: &ClosedLayer)
        ensures { self.new ≡ tree_after_closing id closed.now self.old }
    {
        self.layers.close(id, closed);
    }
}
