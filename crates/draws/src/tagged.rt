// A draw beside the line of the script that made it.
ghost use Rattle.std.specs.Prelude.{◌≡◌};
ghost use Rattle.std.proofs.Common.{rules};

use crate::blend::BlendMode;
use crate::drawable::Drawable;
use crate::strip::Strip;
use geometry::rect::RectU16;

#[derive(Clone, Copy, Debug)]
pub struct Tagged<D> {
    pub draw: D,
    pub line: u32,
}

impl<D: Drawable> Drawable for Tagged<D> {
    ghost box_of = { λ t. D.Drawable.box_of t.draw };

    ghost mode_of = { λ t. D.Drawable.mode_of t.draw };

    ghost on_tiles = { Prim.search rules };

    fn bbox(&self, strips: &[Strip]) -> Option<RectU16> {
        self.draw.bbox(strips)
    }

    fn blend_mode(&self) -> Option<BlendMode> {
        self.draw.blend_mode()
    }
}
