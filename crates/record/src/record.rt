// The recording calls. A refused call leaves the recorder and every list as they were.
ghost use Rattle.std.specs.Prelude.{◌≡◌, length, if◌then◌else◌, None};
ghost use Rattle.refusal.specs.Refusals.{Answers};
ghost use Rattle.geometry.specs.Size.{size};
ghost use Rattle.record.specs.Account.{close_questions};
ghost use Rattle.record.specs.Pushed.{Pushed};
ghost use Rattle.record.specs.Recording.{empty_recording, reset_questions, after_reset, draw_questions, open_questions, after_opening, after_closing, innermost_kind};

use crate::account::{Account, MAX_DRAWS, MAX_LAYERS};
use crate::account_calls::snapped_scene_size;
use crate::recorder::CommandRecorder;
use crate::tree::Tree;
use draws::drawable::Drawable;
use draws::strip::Strip;
use filter::data::FilterData;
use geometry::rect::RectU16;
use layers::closing::popped;
use layers::layer::PoppedLayer;
use layers::opening::{check_opening, recorded_open};
use layers::props::LayerProps;
use refusal::Refusal;

impl CommandRecorder {
    // A recorder with nothing recorded and a scene of no size.
    pub fn new() -> CommandRecorder
        ensures { result ≡ empty_recording (size 0 0) }
    {
        CommandRecorder {
            account: Account::new(),
            tree: Tree::new(),
        }
    }

    // Empties the recorder and sets the scene's size, raised to whole tiles. Width and height stand apart, as the call has them.
    pub fn reset(&mut self, width: u16, height: u16) -> Result<(), Refusal>
        ensures { Answers (reset_questions width height) result (λ _. self.new ≡ after_reset width height) (self.new ≡ self.old) }
    {
        let scene_size = snapped_scene_size(width, height)?;
        self.account.reset(scene_size);
        self.tree.clear();
        Ok(())
    }

    // The two lists are the caller's, and stand apart as in every call on them.
    // Records a draw in the active layer, and writes it to its place in the draw list. Answers its number.
    pub fn push_draw<D: Drawable + Drop>(
        &mut self,
        draw: D,
        draws: &mut [D],
        strips: &[Strip],
    ) -> Result<u32, Refusal>
        ensures { Answers (draw_questions (length draws.old) self.old) result (λ n. Pushed n draw (D.box_of draw strips.now) (D.mode_of draw) self.old self.new draws.old draws.new) ((self.new ≡ self.old) × (draws.new ≡ draws.old)) }
    {
        let number = self.account.draw_count;
        // By its index: what a slice's get_mut lends says nothing of the list afterwards.
        if number >= MAX_DRAWS || number as usize >= draws.len() {
            return Err(Refusal::NoPlaceForDraw);
        }
        let owner = self.active_layer();
        // With no layer open nobody takes the box in.
        let bbox = if self.has_layers() {
            draw.bbox(strips)
        } else {
            None
        };
        let mode = draw.blend_mode();
        self.account.record_draw(bbox, mode);
        self.tree.push_draw(number, owner);
        draws[number as usize] = draw;
        Ok(number)
    }

    // Properties and filter stand apart: each layer has properties, and some have a filter.
    // Opens a layer inside the active one; with a filter it is a filter layer. Answers its number.
    pub fn push_layer(
        &mut self,
        props: LayerProps,
        filter: Option<FilterData>,
    ) -> Result<u32, Refusal>
        ensures { Answers (open_questions props filter self.old) result (λ l. (l ≡ self.old.account.layers) × (self.new ≡ after_opening props filter self.old)) (self.new ≡ self.old) }
    {
        let id = self.account.layer_count;
        if id >= MAX_LAYERS {
            return Err(Refusal::TooManyLayers);
        }
        check_opening(&props, filter)?;
        let draws = self.account.draw_count;
        let owner = self.active_layer();
        let layer = recorded_open(props, filter, self.account.open_count() as u32 + 1);
        self.account.open_layer(&props, filter);
        self.tree.open_layer(id, draws, layer, filter, owner);
        Ok(id)
    }

    // Closes the active layer, and answers its kind; its parent becomes active.
    pub fn pop_layer(&mut self) -> Result<PoppedLayer, Refusal>
        ensures { Answers (close_questions self.old.account) result (λ k. (k ≡ innermost_kind self.old.account.opened) × (self.new ≡ after_closing self.old)) (self.new ≡ self.old) }
    {
        let id = self.active_layer().ok_or(Refusal::NoLayerOpen)?;
        let closed = self.account.closing()?;
        self.account.leave_layer(&closed);
        self.tree.close_layer(id, &closed);
        Ok(popped(&closed))
    }
}
