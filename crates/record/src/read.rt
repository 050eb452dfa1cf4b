// The reading calls. A number that is not recorded has no answer.
ghost use Rattle.std.specs.Prelude.{◌≡◌, ◌≤◌, not, reverse, length};
ghost use Rattle.std.specs.List.{slice_get};
ghost use Rattle.record.specs.Account.{at_root};
ghost use Rattle.record.specs.Recording.{active};
ghost use Rattle.record.specs.Sound.{Sound};

use crate::recorder::CommandRecorder;
use geometry::size::SizeU16;
use layers::layer::RecordedLayer;
use layers::node::Node;

impl CommandRecorder {
    // The scene's size, in whole tiles.
    pub fn scene_size(&self) -> SizeU16
        ensures { result ≡ self.now.account.scene }
    {
        self.account.scene_size
    }

    pub fn draw_count(&self) -> u32
        ensures value { result ≡ self.now.account.drawn }
        ensures most { result ≤ 1048576 }
    {
        self.account.draw_count
    }

    pub fn layer_count(&self) -> u32
        ensures value { result ≡ self.now.account.layers }
        ensures sound { Sound self.now.account self.now.tree }
    {
        self.account.layer_count
    }

    // How many layers are open.
    pub fn open_count(&self) -> usize
        ensures value { result ≡ length self.now.account.opened }
        ensures most { result ≤ 256 }
        ensures recorded { result ≤ self.now.account.layers }
    {
        self.account.open_count()
    }

    pub fn has_layers(&self) -> bool
        ensures { result ≡ not (at_root self.now.account.opened) }
    {
        self.account.has_layers()
    }

    // The innermost open layer; none where the root is recorded into.
    pub fn active_layer(&self) -> Option<u32>
        ensures { result ≡ active self.now }
    {
        self.account.active_layer()
    }

    // Whether a layer or a draw with a mode that is not the default came while no layer was open.
    pub fn root_is_blend_target(&self) -> bool
        ensures { result ≡ self.now.account.root_target }
    {
        self.account.root_is_blend_target
    }

    // Whether some layer has a mode that is not the default.
    pub fn has_non_default_blend(&self) -> bool
        ensures { result ≡ self.now.account.blends }
    {
        self.account.has_non_default_blend
    }

    // How deep the deepest layer was opened.
    pub fn max_layer_depth(&self) -> u32
        ensures value { result ≡ self.now.account.deepest }
        ensures most { result ≤ 256 }
    {
        self.account.max_layer_depth
    }

    // The largest width and the largest height of a closed layer's box.
    pub fn largest_layer_size(&self) -> Option<SizeU16>
        ensures { result ≡ self.now.account.largest }
    {
        self.account.largest_layer_size
    }

    // The same over filter layers alone.
    pub fn largest_filter_layer_size(&self) -> Option<SizeU16>
        ensures { result ≡ self.now.account.largest_filter }
    {
        self.account.largest_filter_layer_size
    }

    // The nodes of all layers and the root, in the order in which they were made.
    pub fn nodes(&self) -> &[Node]
        ensures value { result.now ≡ reverse self.now.tree.nodes }
        ensures sound { Sound self.now.account self.now.tree }
    {
        self.tree.nodes.as_slice()
    }

    // The layers by their numbers.
    pub fn layers(&self) -> &[RecordedLayer]
        ensures value { result.now ≡ self.now.tree.layers }
        ensures count { length result.now ≡ self.now.account.layers }
    {
        self.tree.layers.records.as_slice()
    }

    // The numbers of the filter layers, in the order in which they were opened.
    pub fn filter_layers(&self) -> &[u32]
        ensures value { result.now ≡ self.now.tree.filters }
        ensures most { length result.now ≤ self.now.account.layers }
    {
        self.tree.filter_layers.as_slice()
    }

    // The node at a place of the table.
    pub fn node(&self, place: usize) -> Option<Node>
        ensures { result ≡ slice_get (reverse self.now.tree.nodes) place }
    {
        self.nodes().get(place).copied()
    }

    pub fn layer(&self, id: u32) -> Option<RecordedLayer>
        ensures { result ≡ slice_get self.now.tree.layers id }
    {
        self.layers().get(id as usize).copied()
    }

    // The number of the filter layer that was opened at this place among the filter layers.
    pub fn filter_layer(&self, place: usize) -> Option<u32>
        ensures { result ≡ slice_get self.now.tree.filters place }
    {
        self.filter_layers().get(place).copied()
    }
}
