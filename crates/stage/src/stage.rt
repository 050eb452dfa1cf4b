// A design as a script makes it, and the lists of its walks.
ghost use Rattle.std.specs.Prelude.{◌≡◌, ℕ, min, is_ok, IfOk, OnErr, Some, length, vec_len, ⊤};
ghost use Rattle.std.specs.Option.{unwrap_or};
ghost use Rattle.refusal.specs.Refusals.{Answers};
ghost use Rattle.record.specs.Account.{close_questions};
ghost use Rattle.record.specs.Pushed.{Pushed};
ghost use Rattle.record.specs.Recording.{draw_questions, reset_questions, after_reset, open_questions, after_opening, after_closing, innermost_kind, active};
ghost use Rattle.walk.specs.FullWalk.{listed, entry_count, walk_questions};
ghost use Rattle.tiles.specs.declared.surface.Surface.TheVariants.{Scene};
ghost use Rattle.tiles.specs.Tile.{tile_questions, hit_questions};
ghost use Rattle.ledger.specs.Ledger.{empty};
ghost use Rattle.ledger.specs.declared.call.Call.TheVariants as call;
ghost use Rattle.ledger.specs.Made.{Made as CallMade};
ghost use Rattle.ledger.specs.Reached.{Reached, LeadsOn, box_in, draw_shows_in, tile_listed_in};
ghost use Rattle.script.specs.Sheets.{draw_lines};
ghost use Rattle.stage.specs.declared.answer.Answer.TheVariants.{Reset, Draw, Enter, Leave};
ghost use Rattle.stage.specs.Hits.{Hits};
ghost use Rattle.stage.specs.Lists.{Kept};

use crate::answer::{Answer, Found};
use calls::draw_line::DrawLine;
use draws::drawable::Drawable;
use draws::tagged::Tagged;
use filter::data::FilterData;
use geometry::tile::Tile;
use layers::props::LayerProps;
use ledger::call::{Answer as Made, Call};
use ledger::design::Design;
use record::account::MAX_DRAWS;
use record::recorder::CommandRecorder;
use refusal::Refusal;
use script::sheet::Sheet;
use std::alloc::{AllocError, Global};
use tiles::surface::Surface;
use walk::full::entry_count;
use walk::listed::Listed;

#[derive(Drop)]
pub struct Stage<'a, D: Drop> {
    heap: Global,
    design: Design<'a, Tagged<D>>,
}

// How many places the draw list gets: as many as the script says, or one for each of its draw lines.
// A recorder takes no more than MAX_DRAWS draws, so that further places are never read or written.
fn draw_places<D>(sheet: &Sheet<D>) -> usize
    ensures { result ≡ min (unwrap_or sheet.now.places (draw_lines sheet.now.lines.items)) 1048576 }
{
    sheet
        .places
        .map_or_else(|| sheet.draw_lines(), |places| places as usize)
        .min(MAX_DRAWS as usize)
}

// What is kept of a list that a walk was given: as many entries as it answers.
fn kept(mut entries: Vec<Listed>, walked: Result<usize, Refusal>) -> Result<Vec<Listed>, Refusal>
    ensures { Kept walked entries.items result }
{
    walked.map(|count| {
        entries.truncate(count);
        entries
    })
}

// Clauses write the box and the mode of `Tagged<D>` out: a definition of specs/ cannot cite a bound's members.
impl<'a, D: DrawLine> Stage<'a, D> {
    // Nothing is recorded yet.
    pub fn new(heap: Global, sheet: &'a Sheet<D>) -> Result<Stage<'a, D>, AllocError>
        ensures begun { IfOk result (λ stage. Reached ⟦<Tagged<D> as Drawable>⟧.box_of ⟦<Tagged<D> as Drawable>⟧.mode_of empty stage.design) }
        ensures places { IfOk result (λ stage. vec_len stage.design.draws ≡ min (unwrap_or sheet.now.places (draw_lines sheet.now.lines.items)) 1048576) }
        ensures strips { IfOk result (λ stage. stage.design.strips.now ≡ sheet.now.strips.items) }
    {
        let blank = Tagged {
            draw: D::blank(),
            line: 0,
        };
        let draws = vec![in heap; blank; draw_places(sheet)]?;
        let design = Design::new(draws, sheet.strips.as_slice());
        Ok(Stage { heap, design })
    }

    // Makes one recording call. A refused one alters nothing. What an accepted one answers is of its call's own kind,
    // so that in each call below no other answer can come. A call of its own in `Design` for each would double the contracts.
    pub fn make(&mut self, call: Call<Tagged<D>>) -> Result<Made, Refusal>
        ensures kept { OnErr result (self.new.design.recorder ≡ self.old.design.recorder) }
        ensures made { CallMade (box_in ⟦<Tagged<D> as Drawable>⟧.box_of self.old.design) ⟦<Tagged<D> as Drawable>⟧.mode_of call result self.old.design.recorder self.new.design.recorder self.old.design.draws.items self.new.design.draws.items }
        ensures leads { LeadsOn ⟦<Tagged<D> as Drawable>⟧.box_of ⟦<Tagged<D> as Drawable>⟧.mode_of call (is_ok result) self.old.design self.new.design }
    {
        self.design.make(call)
    }

    // Empties the recording and sets the scene. Answers the scene that was set.
    pub fn reset(&mut self, width: u16, height: u16) -> Result<Answer, Refusal>
        ensures answers { Answers (reset_questions width height) result (λ a. (a ≡ Reset self.new.design.recorder.account.scene) × (self.new.design.recorder ≡ after_reset width height)) (self.new.design.recorder ≡ self.old.design.recorder) }
        ensures list { self.new.design.draws.items ≡ self.old.design.draws.items }
        ensures leads { LeadsOn ⟦<Tagged<D> as Drawable>⟧.box_of ⟦<Tagged<D> as Drawable>⟧.mode_of (call.Reset width height) (is_ok result) self.old.design self.new.design }
    {
        match self.make(Call::Reset { width, height })? {
            Made::Reset => Ok(Answer::Reset(self.recorder().scene_size())),
            _ => unreachable!(),
        }
    }

    // Records a draw with the line that made it. Answers its number.
    pub fn draw(&mut self, draw: D, line: u32) -> Result<Answer, Refusal>
        ensures answers { Answers (draw_questions (vec_len self.old.design.draws) self.old.design.recorder) result (λ a. (n : ℕ) × (a ≡ Draw n) × Pushed n (record { draw = draw; line = line }) (D.Drawable.box_of draw self.old.design.strips.now) (D.Drawable.mode_of draw) self.old.design.recorder self.new.design.recorder self.old.design.draws.items self.new.design.draws.items) (self.new.design.recorder ≡ self.old.design.recorder) }
        ensures list { OnErr result (self.new.design.draws.items ≡ self.old.design.draws.items) }
        ensures leads { LeadsOn ⟦<Tagged<D> as Drawable>⟧.box_of ⟦<Tagged<D> as Drawable>⟧.mode_of (call.Draw (record { draw = draw; line = line })) (is_ok result) self.old.design self.new.design }
    {
        match self.make(Call::Draw(Tagged { draw, line }))? {
            Made::Drawn(number) => Ok(Answer::Draw(number)),
            _ => unreachable!(),
        }
    }

    // Opens a layer. Answers its number.
    pub fn open(&mut self, props: LayerProps, filter: Option<FilterData>) -> Result<Answer, Refusal>
        ensures answers { Answers (open_questions props filter self.old.design.recorder) result (λ a. (a ≡ Enter self.old.design.recorder.account.layers) × (self.new.design.recorder ≡ after_opening props filter self.old.design.recorder)) (self.new.design.recorder ≡ self.old.design.recorder) }
        ensures list { self.new.design.draws.items ≡ self.old.design.draws.items }
        ensures leads { LeadsOn ⟦<Tagged<D> as Drawable>⟧.box_of ⟦<Tagged<D> as Drawable>⟧.mode_of (call.Open props filter) (is_ok result) self.old.design self.new.design }
    {
        match self.make(Call::Open { props, filter })? {
            Made::Entered(layer) => Ok(Answer::Enter(layer)),
            _ => unreachable!(),
        }
    }

    // Closes the innermost layer. Answers its number and its kind.
    pub fn close(&mut self) -> Result<Answer, Refusal>
        ensures answers { Answers (close_questions self.old.design.recorder.account) result (λ a. (layer : ℕ) × (active self.old.design.recorder ≡ Some layer) × (a ≡ Leave layer (innermost_kind self.old.design.recorder.account.opened)) × (self.new.design.recorder ≡ after_closing self.old.design.recorder)) (self.new.design.recorder ≡ self.old.design.recorder) }
        ensures list { self.new.design.draws.items ≡ self.old.design.draws.items }
        ensures leads { LeadsOn ⟦<Tagged<D> as Drawable>⟧.box_of ⟦<Tagged<D> as Drawable>⟧.mode_of call.Close (is_ok result) self.old.design self.new.design }
    {
        let layer = self.recorder().active_layer().ok_or(Refusal::NoLayerOpen)?;
        match self.make(Call::Close)? {
            Made::Left(kind) => Ok(Answer::Leave(layer, kind)),
            _ => unreachable!(),
        }
    }

    // How many places the list of a walk gets: as many as there is room for, or just enough.
    // A walk lists each draw once and each layer twice, or less, so that further places are never written.
    fn walk_places(&self, room: Option<u32>) -> usize
        ensures count { result ≡ min (entry_count self.now.design.recorder) (unwrap_or room (entry_count self.now.design.recorder)) }
        ensures all { length (listed self.now.design.recorder) ≡ entry_count self.now.design.recorder }
    {
        let entries = entry_count(self.recorder());
        room.map_or(entries, |room| entries.min(room as usize))
    }

    // The two walks make their lists apart: a closure that lends a slice on has no contract at its caller.
    // The full walk, into a list of `room` places or of just enough. A refusal is an answer, and the outer error ends the program.
    pub fn walk(&self, room: Option<u32>) -> Result<Result<Vec<Listed>, Refusal>, AllocError>
        ensures { IfOk result (λ walked. Answers (walk_questions self.now.design.recorder (unwrap_or room (entry_count self.now.design.recorder))) walked (λ entries. entries.items ≡ listed self.now.design.recorder) ⊤) }
    {
        let mut entries = vec![in self.heap; Listed::Draw(0); self.walk_places(room)]?;
        let walked = self.design.full_walk(entries.as_mut_slice());
        Ok(kept(entries, walked))
    }

    // The walk of one tile, into a list of `room` places or of enough.
    pub fn tile(
        &self,
        surface: Surface,
        tile: Tile,
        room: Option<u32>,
    ) -> Result<Result<Vec<Listed>, Refusal>, AllocError>
        ensures { IfOk result (λ walked. Answers (tile_questions surface tile (draw_shows_in ⟦<Tagged<D> as Drawable>⟧.box_of self.now.design tile) self.now.design.recorder (vec_len self.now.design.draws) (unwrap_or room (entry_count self.now.design.recorder))) walked (λ entries. entries.items ≡ tile_listed_in ⟦<Tagged<D> as Drawable>⟧.box_of self.now.design surface tile) ⊤) }
    {
        let mut entries = vec![in self.heap; Listed::Draw(0); self.walk_places(room)]?;
        let walked = self.design.tile_walk(surface, tile, entries.as_mut_slice());
        Ok(kept(entries, walked))
    }

    // A draw that the tile shows of the scene, with its line; none where it shows no draw.
    pub fn hit(&self, tile: Tile) -> Result<Option<Found>, Refusal>
        ensures { Answers (hit_questions tile self.now.design.recorder (vec_len self.now.design.draws)) result (Hits self.now.design.draws.items (tile_listed_in ⟦<Tagged<D> as Drawable>⟧.box_of self.now.design Scene tile)) ⊤ }
    {
        // Not by `map`: only after the test is it known that the draw has a place.
        let Some(number) = self.design.hit(tile)? else {
            return Ok(None);
        };
        let line = self.design.draws()[number as usize].line;
        Ok(Some(Found { number, line }))
    }

    pub fn recorder(&self) -> &CommandRecorder
        ensures { result.now ≡ self.now.design.recorder }
    {
        self.design.recorder()
    }
}
