// A filled rectangle of pixels.
ghost use Rattle.std.specs.Prelude.{◌≡◌, true, [], ◌∷◌};
ghost use Rattle.geometry.specs.Snap.{snapped};
ghost use Rattle.refusal.specs.Refusals.{Answers};
ghost use Rattle.draws.specs.Boxes.{snapped-on-tiles};
ghost use Rattle.draws.specs.Fits.{fits};

use crate::blend::BlendMode;
use crate::drawable::Drawable;
use crate::strip::Strip;
use geometry::rect::RectU16;
use refusal::Refusal;

// The rectangle is empty, or its high edges are at most 65,532.
#[derive(Clone, Copy, Debug)]
pub struct Fill {
    rect: RectU16,
    blend_mode: Option<BlendMode>,
    ghost ok: { fits rect ≡ true },
}

impl Fill {
    // Refused where the rectangle is not empty and a high edge is above 65,532, so that no whole tiles hold it.
    // Clauses tell a refusal by its number, as it is known outside.
    pub fn new(rect: RectU16, blend_mode: Option<BlendMode>) -> Result<Fill, Refusal>
        ensures { Answers ((fits rect, 1) ∷ []) result (λ f. (f.rect ≡ rect) × (f.blend_mode ≡ blend_mode)) (Unit {0}) }
    {
        rect.snap_to_tile_coordinates()
            .ok_or(Refusal::FillPastEdge)?;
        Ok(Fill { rect, blend_mode })
    }

    pub fn rect(&self) -> RectU16
        ensures { result ≡ self.now.rect }
    {
        self.rect
    }
}

impl Drawable for Fill {
    ghost box_of = { λ f strips. snapped f.rect };

    ghost mode_of = { λ f. f.blend_mode };

    ghost on_tiles = { λ f strips. snapped-on-tiles f.rect };

    fn bbox(&self, _strips: &[Strip]) -> Option<RectU16> {
        self.rect.snap_to_tile_coordinates()
    }

    fn blend_mode(&self) -> Option<BlendMode> {
        self.blend_mode
    }
}
