// The walk of one tile: the full walk without what does not reach the tile.
ghost use Rattle.std.specs.Prelude.{◌≡◌, true, length, is_some, IfSome};
ghost use Rattle.refusal.specs.Refusals.{Answers};
ghost use Rattle.tiles.specs.declared.surface.Surface.TheVariants.{Scene};
ghost use Rattle.tiles.specs.Tile.{draw_shows, tile_listed, tile_questions, TileWalk, hit_questions, draw_listed, any_draw};

use crate::surface::Surface;
use crate::view::View;
use draws::drawable::Drawable;
use draws::strip::Strip;
use geometry::tile::Tile;
use record::recorder::CommandRecorder;
use refusal::Refusal;
use walk::listed::Listed;

// Lists what the tile shows of the surface, in order, from the first place of `out` on, and answers the count of entries.
// A filter layer is one entry, and its contents are the list of that layer's surface. Later places are left as they were.
pub fn tile_walk<D: Drawable>(
    recorder: &CommandRecorder,
    surface: Surface,
    tile: Tile,
    draws: &[D],
    strips: &[Strip],
    out: &mut [Listed],
) -> Result<usize, Refusal>
    ensures { Answers (tile_questions surface tile (draw_shows (λ d. D.box_of d strips.now) tile draws.now) recorder.now (length draws.now) (length out.old)) result (λ n. TileWalk surface tile (draw_shows (λ d. D.box_of d strips.now) tile draws.now) recorder.now n out.old out.new) (out.new ≡ out.old) }
{
    let view = View {
        recorder,
        draws,
        strips,
        tile,
    };
    view.ask(surface)?;
    if !view.has_places(surface, out.len()) {
        return Err(Refusal::NoPlaceInList);
    }
    Ok(view.list_surface(surface, out).count)
}

// A draw that the tile shows of the scene; none where it shows no draw. Nothing is listed.
pub fn hit<D: Drawable>(
    recorder: &CommandRecorder,
    tile: Tile,
    draws: &[D],
    strips: &[Strip],
) -> Result<Option<u32>, Refusal>
    ensures some { Answers (hit_questions tile recorder.now (length draws.now)) result (λ h. IfSome h (λ n. draw_listed n (tile_listed Scene tile (draw_shows (λ d. D.box_of d strips.now) tile draws.now) recorder.now) ≡ true)) (Unit {0}) }
    ensures none { Answers (hit_questions tile recorder.now (length draws.now)) result (λ h. is_some h ≡ any_draw (tile_listed Scene tile (draw_shows (λ d. D.box_of d strips.now) tile draws.now) recorder.now)) (Unit {0}) }
{
    let view = View {
        recorder,
        draws,
        strips,
        tile,
    };
    view.ask(Surface::Scene)?;
    Ok(view.list_surface(Surface::Scene, &mut []).top)
}
