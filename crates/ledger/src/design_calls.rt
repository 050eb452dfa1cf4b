// The calls of a design. Each says what it means of every ledger that led to the design.
ghost use Rattle.std.specs.Prelude.{◌≡◌, true, length, is_ok, is_some, IfSome, OnErr, vec_len, ⊤};
ghost use Rattle.refusal.specs.Refusals.{Answers};
ghost use Rattle.walk.specs.FullWalk.{FullWalk, walk_questions};
ghost use Rattle.tiles.specs.declared.surface.Surface.TheVariants.{Scene};
ghost use Rattle.tiles.specs.Tile.{tile_questions, TileWalk, hit_questions, draw_listed, any_draw};
ghost use Rattle.ledger.specs.Laws.{Led, LedAlways};
ghost use Rattle.ledger.specs.Ledger.{empty};
ghost use Rattle.ledger.specs.Made.{Made};
ghost use Rattle.ledger.specs.Reached.{Reached, OfLedgers, LeadsOn, box_in, draw_shows_in, tile_listed_in, ListsAll, ListsTile, HitsListed, HitsAny};

use crate::call::{Answer, Call};
use crate::design::Design;
use crate::replay::make_call;
use draws::drawable::Drawable;
use draws::strip::Strip;
use geometry::tile::Tile;
use record::recorder::CommandRecorder;
use refusal::Refusal;
use tiles::surface::Surface;
use tiles::tile::{hit, tile_walk};
use walk::full::full_walk;
use walk::listed::Listed;

impl<'a, D: Drawable + Copy> Design<'a, D> {
    // Nothing recorded yet. The draw list has as many places as `draws`, and no more.
    pub fn new(draws: Vec<D>, strips: &'a [Strip]) -> Design<'a, D>
        ensures begun { Reached D.box_of D.mode_of empty result }
        ensures places { result.draws.items ≡ draws.items }
        ensures strips { result.strips.now ≡ strips.now }
    {
        let recorder = CommandRecorder::new();
        Design {
            recorder,
            draws,
            strips,
        }
    }

    // Makes one call. A refused one alters nothing.
    pub fn make(&mut self, call: Call<D>) -> Result<Answer, Refusal>
        ensures made { Made (box_in D.box_of self.old) D.mode_of call result self.old.recorder self.new.recorder self.old.draws.items self.new.draws.items }
        ensures kept { OnErr result (self.new.recorder ≡ self.old.recorder) }
        ensures leads { LeadsOn D.box_of D.mode_of call (is_ok result) self.old self.new }
    {
        make_call(
            &mut self.recorder,
            call,
            self.draws.as_mut_slice(),
            self.strips,
        )
    }

    // Lists all that was recorded, from the first place of `out` on, and answers the count of entries.
    pub fn full_walk(&self, out: &mut [Listed]) -> Result<usize, Refusal>
        ensures walked { Answers (walk_questions self.now.recorder (length out.old)) result (λ n. FullWalk self.now.recorder n out.old out.new) (out.new ≡ out.old) }
        ensures law { OfLedgers D.box_of D.mode_of self.now (λ b. ListsAll b result out.old out.new) }
    {
        full_walk(&self.recorder, out)
    }

    // Lists what the tile shows of the surface, from the first place of `out` on, and answers the count of entries.
    pub fn tile_walk(
        &self,
        surface: Surface,
        tile: Tile,
        out: &mut [Listed],
    ) -> Result<usize, Refusal>
        ensures walked { Answers (tile_questions surface tile (draw_shows_in D.box_of self.now tile) self.now.recorder (vec_len self.now.draws) (length out.old)) result (λ n. TileWalk surface tile (draw_shows_in D.box_of self.now tile) self.now.recorder n out.old out.new) (out.new ≡ out.old) }
        ensures law { OfLedgers D.box_of D.mode_of self.now (λ b. ListsTile (box_in D.box_of self.now) surface tile b (vec_len self.now.draws) result out.old out.new) }
    {
        tile_walk(
            &self.recorder,
            surface,
            tile,
            self.draws.as_slice(),
            self.strips,
            out,
        )
    }

    // A draw that the tile shows of the scene; none where it shows no draw.
    pub fn hit(&self, tile: Tile) -> Result<Option<u32>, Refusal>
        ensures some { Answers (hit_questions tile self.now.recorder (vec_len self.now.draws)) result (λ h. IfSome h (λ n. draw_listed n (tile_listed_in D.box_of self.now Scene tile) ≡ true)) ⊤ }
        ensures none { Answers (hit_questions tile self.now.recorder (vec_len self.now.draws)) result (λ h. is_some h ≡ any_draw (tile_listed_in D.box_of self.now Scene tile)) ⊤ }
        ensures some_law { OfLedgers D.box_of D.mode_of self.now (λ b. HitsListed (box_in D.box_of self.now) tile b (vec_len self.now.draws) result) }
        ensures none_law { OfLedgers D.box_of D.mode_of self.now (λ b. HitsAny (box_in D.box_of self.now) tile b (vec_len self.now.draws) result) }
    {
        hit(&self.recorder, tile, self.draws.as_slice(), self.strips)
    }

    // The recorder, to be read. What it holds is what the ledger says.
    pub fn recorder(&self) -> &CommandRecorder
        ensures value { result.now ≡ self.now.recorder }
        ensures led { OfLedgers D.box_of D.mode_of self.now (λ b. LedAlways (box_in D.box_of self.now) D.mode_of b result.now self.now.draws.items) }
        ensures by_rules { OfLedgers D.box_of D.mode_of self.now (λ b. Led (box_in D.box_of self.now) D.mode_of b result.now self.now.draws.items) }
    {
        &self.recorder
    }

    pub fn draws(&self) -> &[D]
        ensures { result.now ≡ self.now.draws.items }
    {
        self.draws.as_slice()
    }
}
