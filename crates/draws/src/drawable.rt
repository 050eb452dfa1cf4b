// The interface of a draw.
ghost use Rattle.std.specs.Prelude.{◌≡◌, List, Option};
ghost use Rattle.geometry.specs.declared.rect.RectU16.{RectU16};
ghost use Rattle.draws.specs.declared.blend.BlendMode.{BlendMode};
ghost use Rattle.draws.specs.declared.strip.Strip.{Strip};
ghost use Rattle.draws.specs.Strips.{BoxOnTiles};

use crate::blend::BlendMode;
use crate::strip::Strip;
use geometry::rect::RectU16;

// A draw has one box or none, by the strips of the sheet, and one blend mode or none.
pub trait Drawable {
    ghost box_of: { Self → List Strip → Option RectU16 };

    ghost mode_of: { Self → Option BlendMode };

    fn bbox(&self, strips: &[Strip]) -> Option<RectU16>
        ensures { result ≡ box_of self.now strips.now };

    fn blend_mode(&self) -> Option<BlendMode>
        ensures { result ≡ mode_of self.now };

    // A box's four edges lie on tiles' edges.
    ghost on_tiles: { (d : Self) (strips : List Strip) → BoxOnTiles (box_of d strips) };
}
