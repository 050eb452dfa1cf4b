// What each recording call makes of the account.
ghost use Rattle.std.specs.Prelude.{◌≡◌, ◌<◌, ◌≤◌, length, true, false, not, [], ◌∷◌, Some, None};
ghost use Rattle.refusal.specs.Refusals.{Answers};
ghost use Rattle.geometry.specs.Size.{size};
ghost use Rattle.record.specs.Account.{empty_account, account_after_draw, account_after_opening, account_after_closing, ids, at_root, blending, grown, scene_fits, scene_of, took_in, blended_into, noted_mode, pushed_open, noted_size, with_opened, outer, innermost_of, close_questions, closing_of};
ghost use Rattle.layers.specs.Closing.{closing};
ghost use Rattle.record.specs.Table.{top};

use crate::account::Account;
use crate::table::Table;
use draws::blend::BlendMode;
use filter::data::FilterData;
use geometry::rect::RectU16;
use geometry::size::SizeU16;
use layers::closing::{close, put_into};
use layers::layer::{ClosedLayer, OpenLayer};
use layers::opening::clip_bbox;
use layers::props::LayerProps;
use refusal::Refusal;

// The scene's size, with width and height raised to whole tiles. Clauses tell a refusal by its number, as it is known outside.
pub(crate) fn snapped_scene_size(width: u16, height: u16) -> Result<SizeU16, Refusal>
    ensures { Answers ((scene_fits width height, 2) ∷ []) result (λ s. s ≡ scene_of width height) (Unit {0}) }
{
    let scene = RectU16::new(0, 0, width, height).snap_to_tile_coordinates();
    Ok(scene.ok_or(Refusal::ScenePastEdge)?.size())
}

// The larger width and the larger height of a size so far, if any, and one more.
fn grow(size: SizeU16, largest: Option<SizeU16>) -> Option<SizeU16>
    ensures { result ≡ grown size largest }
{
    Some(largest.map_or(size, |current| current.max(size)))
}

fn is_blending(mode: Option<BlendMode>) -> bool
    ensures { result ≡ blending mode }
{
    mode.is_some_and(|mode| !mode.is_default())
}

impl Account {
    pub(crate) fn new() -> Account
        ensures { result ≡ empty_account (size 0 0) }
    {
        Account {
            scene_size: SizeU16::ZERO,
            draw_count: 0,
            layer_count: 0,
            layer_stack: Table::new(),
            root_is_blend_target: false,
            has_non_default_blend: false,
            max_layer_depth: 0,
            largest_layer_size: None,
            largest_filter_layer_size: None,
        }
    }

    // Empties the account. Field by field: a new account would write every place of the stack, and a reset touches no more than it must.
    pub(crate) fn reset(&mut self, scene_size: SizeU16)
        ensures { self.new ≡ empty_account scene_size }
    {
        self.scene_size = scene_size;
        self.draw_count = 0;
        self.layer_count = 0;
        self.layer_stack.clear();
        self.root_is_blend_target = false;
        self.has_non_default_blend = false;
        self.max_layer_depth = 0;
        self.largest_layer_size = None;
        self.largest_filter_layer_size = None;
    }

    // How many layers are open.
    pub(crate) fn open_count(&self) -> usize
        ensures value { result ≡ length self.now.opened }
        ensures most { result ≤ 256 }
    {
        self.layer_stack.len()
    }

    pub(crate) fn has_layers(&self) -> bool
        ensures { result ≡ not (at_root self.now.opened) }
    {
        self.layer_stack.len() > 0
    }

    // The innermost open layer.
    pub(crate) fn active_layer(&self) -> Option<u32>
        ensures { result ≡ top (ids self.now.opened) }
    {
        self.innermost().map(|layer| layer.id)
    }

    // The innermost open layer takes in a box.
    fn record_bbox(&mut self, bbox: Option<RectU16>)
        ensures { self.new ≡ took_in bbox self.old }
    {
        let (Some(mut layer), Some(bbox)) = (self.layer_stack.as_slice().last().copied(), bbox)
        else {
            return;
        };
        layer.contents = put_into(layer.contents, bbox);
        self.layer_stack.set_last(layer);
    }

    // One more draw in the innermost open layer, or in the root.
    pub(crate) fn record_draw(&mut self, bbox: Option<RectU16>, mode: Option<BlendMode>)
        requires { self.old.drawn < 1048576 }
        ensures { self.new ≡ account_after_draw bbox mode self.old }
    {
        self.record_bbox(bbox);
        if is_blending(mode) {
            self.mark_blend_target();
        }
        self.draw_count += 1;
    }

    // Something that blends with what lies under it was recorded: where no layer is open, that is the root.
    fn mark_blend_target(&mut self)
        ensures { self.new ≡ blended_into self.old }
    {
        if !self.has_layers() {
            self.root_is_blend_target = true;
        }
    }

    // A layer with this blend mode was opened.
    fn note_layer_mode(&mut self, mode: BlendMode)
        ensures { self.new ≡ noted_mode (blending (Some mode)) self.old }
    {
        if !mode.is_default() {
            self.has_non_default_blend = true;
            self.mark_blend_target();
        }
    }

    // One more open layer, the innermost.
    fn push_open(&mut self, layer: OpenLayer)
        requires { self.old.layers < 256 }
        ensures { self.new ≡ pushed_open layer self.old }
    {
        self.layer_stack.push(layer);
        self.layer_count += 1;
        self.max_layer_depth = self.max_layer_depth.max(self.layer_stack.len() as u32);
    }

    // One more layer, open, inside the innermost open one.
    pub(crate) fn open_layer(&mut self, props: &LayerProps, filter: Option<FilterData>)
        requires { self.old.layers < 256 }
        ensures { self.new ≡ account_after_opening props.now filter self.old }
    {
        let layer = OpenLayer {
            id: self.layer_count,
            clip: clip_bbox(props.clip_path),
            filter,
            // Filled as the layer is recorded.
            contents: None,
        };
        self.note_layer_mode(props.blend_mode);
        self.push_open(layer);
    }

    fn innermost(&self) -> Option<OpenLayer>
        ensures { result ≡ innermost_of self.now.opened }
    {
        self.layer_stack.as_slice().last().copied()
    }

    // The innermost layer is no longer open.
    fn pop_open(&mut self)
        ensures { self.new ≡ with_opened (outer self.old.opened) self.old }
    {
        self.layer_stack.pop();
    }

    // The largest sizes with those of a layer that was closed.
    fn note_size(&mut self, closed: &ClosedLayer)
        ensures { self.new ≡ noted_size closed.now self.old }
    {
        let size = closed.bbox.size();
        self.largest_layer_size = grow(size, self.largest_layer_size);
        if closed.placement.is_some() {
            self.largest_filter_layer_size = grow(size, self.largest_filter_layer_size);
        }
    }

    // What the closing of the innermost open layer gives.
    pub(crate) fn closing(&self) -> Result<ClosedLayer, Refusal>
        ensures { Answers (close_questions self.now) result (λ k. closing_of self.now.opened ≡ Some k) (Unit {0}) }
    {
        let layer = self.innermost().ok_or(Refusal::NoLayerOpen)?;
        close(&layer)
    }

    // The innermost layer is closed; the layer around it takes in what it hands on.
    pub(crate) fn leave_layer(&mut self, closed: &ClosedLayer)
        ensures { self.new ≡ account_after_closing closed.now self.old }
    {
        self.pop_open();
        self.note_size(closed);
        self.record_bbox(Some(closed.in_parent));
    }
}
