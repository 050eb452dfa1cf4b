// A strip of pixels, as high as a tile.
ghost use Rattle.std.specs.Prelude.{◌≡◌};
ghost use Rattle.draws.specs.Strips.{strip_box};

use geometry::rect::RectU16;
use geometry::tile::Tile;

// It covers `x` to `x + width` and `y` to `y + 4`.
#[derive(Clone, Copy, Debug)]
pub struct Strip {
    pub x: u16,
    pub y: u16,
    pub width: u16,
}

impl Strip {
    // The strip's rectangle of whole tiles; none for a strip without width, or where its edges pass 65,532.
    pub fn snapped(&self) -> Option<RectU16>
        ensures { result ≡ strip_box self.now }
    {
        if self.width == 0 {
            return None;
        }
        let x1 = self.x.checked_add(self.width)?;
        let y1 = self.y.checked_add(Tile::HEIGHT)?;
        RectU16::new(self.x, self.y, x1, y1).snap_to_tile_coordinates()
    }
}
