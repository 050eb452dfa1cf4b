// What decides every refusal: the open layers, the counts, and the figures of the recording as a whole.
use crate::table::Table;
use geometry::size::SizeU16;
use layers::layer::OpenLayer;
use std::marker::Model;

pub const MAX_DRAWS: u32 = 1_048_576;

pub const MAX_LAYERS: u32 = 256;

// As many places as there may be layers: a table's capacity is no computed number.
pub(crate) const LAYER_PLACES: usize = 256;

#[derive(Drop)]
pub struct Account {
    pub(crate) scene_size: SizeU16,
    pub(crate) draw_count: u32,
    pub(crate) layer_count: u32,
    // The open layers, the outermost first.
    pub(crate) layer_stack: Table<OpenLayer, LAYER_PLACES>,
    pub(crate) root_is_blend_target: bool,
    pub(crate) has_non_default_blend: bool,
    pub(crate) max_layer_depth: u32,
    pub(crate) largest_layer_size: Option<SizeU16>,
    pub(crate) largest_filter_layer_size: Option<SizeU16>,
}

// Clauses see the open layers innermost first.
impl Model for Account {
    ghost use Rattle.std.specs.Prelude.{◌≤◌, length, reverse};
    ghost use Rattle.record.specs.Account.{AccountView};

    ghost Value = { AccountView };

    ghost view = { λ a. record {
      scene = a.scene_size;
      opened = reverse a.layer_stack;
      drawn = a.draw_count;
      layers = a.layer_count;
      root_target = a.root_is_blend_target;
      blends = a.has_non_default_blend;
      deepest = a.max_layer_depth;
      largest = a.largest_layer_size;
      largest_filter = a.largest_filter_layer_size;
    } };

    ghost invariant = { λ a. (length a.layer_stack ≤ a.layer_count) × (a.layer_count ≤ 256) × (a.draw_count ≤ 1048576) × (a.max_layer_depth ≤ 256) };
}
