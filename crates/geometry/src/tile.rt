// The square of pixels in which a sheet is drawn again and stored.

// The tile in column `x` and row `y`. Its first pixel stands at (4x, 4y).
#[derive(Clone, Copy, Debug, PartialEq, Eq)]
pub struct Tile {
    pub x: u16,
    pub y: u16,
}

impl Tile {
    // Pixels from one tile's left edge to the next one's.
    pub const WIDTH: u16 = 4;

    // Pixels from one tile's top edge to the next one's.
    pub const HEIGHT: u16 = 4;

    // The largest 16-bit edge that lies on a tile's edge.
    pub const LAST_EDGE: u16 = 65_532;
}
