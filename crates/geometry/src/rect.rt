// Rectangles with 16-bit edges. A rectangle holds its low edges and not its high ones.
ghost use Rattle.std.specs.Prelude.{◌≡◌, ℕ, ◌+◌, ◌-◌, true, false, Decides, MatchOption};
ghost use Rattle.geometry.specs.Size.{size};
ghost use Rattle.geometry.specs.Rect.{rect, Holds, Iff, Within, Least, empty, holds, joined, intersection, expanded, moved, shifted, relative};
ghost use Rattle.geometry.specs.Snap.{Fits16, WholeTile, Around, snapped};
ghost use Rattle.geometry.specs.Cover.{covered, HoldsAll, HoldsNone};

use crate::padding::PaddingU16;
use crate::size::SizeU16;
use crate::tile::Tile;

#[derive(Clone, Copy, Debug, Default, PartialEq, Eq)]
pub struct RectU16 {
    pub x0: u16,
    pub y0: u16,
    pub x1: u16,
    pub y1: u16,
}

// `edge` moved by `by`, no lower than 0 and no higher than 65,535.
fn shift_edge(edge: u16, by: i32) -> u16
    ensures { result ≡ moved edge by }
{
    (i64::from(edge) + i64::from(by)).clamp(0, 65_535) as u16
}

impl RectU16 {
    // All edges at zero.
    pub const ZERO: RectU16 = RectU16 {
        x0: 0,
        y0: 0,
        x1: 0,
        y1: 0,
    };

    // The empty rectangle whose union with any other is that other.
    pub const INVERTED: RectU16 = RectU16 {
        x0: 65_535,
        y0: 65_535,
        x1: 0,
        y1: 0,
    };

    pub const fn new(x0: u16, y0: u16, x1: u16, y1: u16) -> RectU16
        ensures { result ≡ rect x0 y0 x1 y1 }
    {
        RectU16 { x0, y0, x1, y1 }
    }

    // `x1 - x0`, or 0 where that is negative.
    pub fn width(self) -> u16
        ensures { result ≡ self.x1 - self.x0 }
    {
        self.x1.saturating_sub(self.x0)
    }

    // `y1 - y0`, or 0 where that is negative.
    pub fn height(self) -> u16
        ensures { result ≡ self.y1 - self.y0 }
    {
        self.y1.saturating_sub(self.y0)
    }

    // A method and no `From`: a rectangle's size is asked of it by name.
    pub fn size(self) -> SizeU16
        ensures { result ≡ size (self.x1 - self.x0) (self.y1 - self.y0) }
    {
        SizeU16::from_wh(self.width(), self.height())
    }

    // Whether the rectangle holds no point.
    pub fn is_empty(self) -> bool
        ensures value { result ≡ empty self }
        ensures points { Decides result ((x y : ℕ) → Holds self x y → ⊥) }
    {
        self.x0 >= self.x1 || self.y0 >= self.y1
    }

    pub fn contains(self, x: u16, y: u16) -> bool
        ensures value { result ≡ holds self x y }
        ensures points { Decides result (Holds self x y) }
    {
        (self.x0..self.x1).contains(&x) && (self.y0..self.y1).contains(&y)
    }

    // What both rectangles hold. It may be empty, and is never inverted.
    pub fn intersect(self, other: RectU16) -> RectU16
        ensures value { result ≡ intersection self other }
        ensures points { (x y : ℕ) → Iff (Holds result x y) (Holds self x y × Holds other x y) }
    {
        let x0 = self.x0.max(other.x0);
        let y0 = self.y0.max(other.y0);
        let x1 = self.x1.min(other.x1);
        let y1 = self.y1.min(other.y1);
        RectU16::new(x0, y0, x1.max(x0), y1.max(y0))
    }

    // Widens this rectangle until it holds `other` too.
    pub fn union(&mut self, other: RectU16)
        ensures value { self.new ≡ joined self.old other }
        ensures least { empty self.old ≡ false → empty other ≡ false → Least (λ h. Within self.old h × Within other h) self.new }
    {
        self.x0 = self.x0.min(other.x0);
        self.y0 = self.y0.min(other.y0);
        self.x1 = self.x1.max(other.x1);
        self.y1 = self.y1.max(other.y1);
    }

    // Moves each edge outward by its side's padding, no lower than 0 and no higher than 65,535.
    pub fn expand(self, padding: PaddingU16) -> RectU16
        ensures { result ≡ expanded self padding }
    {
        RectU16::new(
            self.x0.saturating_sub(padding.left),
            self.y0.saturating_sub(padding.top),
            self.x1.saturating_add(padding.right),
            self.y1.saturating_add(padding.bottom),
        )
    }

    // Moves every edge, no lower than 0 and no higher than 65,535.
    pub fn shift(self, by: (i32, i32)) -> RectU16
        ensures { result ≡ shifted self by.0 by.1 }
    {
        RectU16::new(
            shift_edge(self.x0, by.0),
            shift_edge(self.y0, by.1),
            shift_edge(self.x1, by.0),
            shift_edge(self.y1, by.1),
        )
    }

    // The rectangle as seen from `origin`: what lies before the origin is cut off.
    pub fn relative_to_origin(self, origin: (u16, u16)) -> RectU16
        ensures value { result ≡ relative self origin.0 origin.1 }
        ensures points { (x y : ℕ) → Iff (Holds result x y) (Holds self (x + origin.0) (y + origin.1)) }
    {
        self.shift((-i32::from(origin.0), -i32::from(origin.1)))
    }

    // The smallest rectangle of whole tiles that holds this one, where its edges have 16 bits.
    // An empty rectangle becomes the corner of the tile that its low edges lie in.
    pub fn snap_to_tile_coordinates(self) -> Option<RectU16>
        ensures value { result ≡ snapped self }
        ensures least { empty self ≡ false → MatchOption result ((other : RectU16) → Fits16 other → Around self other → ⊥) (λ s. Least (Around self) s) }
        ensures corner { empty self ≡ true → MatchOption result ⊥ (λ s. (empty s ≡ true) × WholeTile s) }
    {
        let x0 = self.x0 - self.x0 % Tile::WIDTH;
        let y0 = self.y0 - self.y0 % Tile::HEIGHT;
        if self.is_empty() {
            return Some(RectU16::new(x0, y0, x0, y0));
        }
        if self.x1 > Tile::LAST_EDGE || self.y1 > Tile::LAST_EDGE {
            return None;
        }
        let x1 = self.x1.next_multiple_of(Tile::WIDTH);
        let y1 = self.y1.next_multiple_of(Tile::HEIGHT);
        Some(RectU16::new(x0, y0, x1, y1))
    }

    // Whether all four edges lie on tiles' edges.
    pub fn is_tile_aligned(self) -> bool
        ensures { Decides result (WholeTile self) }
    {
        self.x0.is_multiple_of(Tile::WIDTH)
            && self.y0.is_multiple_of(Tile::HEIGHT)
            && self.x1.is_multiple_of(Tile::WIDTH)
            && self.y1.is_multiple_of(Tile::HEIGHT)
    }

    // Whether the rectangle is not empty and holds the tile's first pixel.
    pub fn covers(self, tile: Tile) -> bool
        ensures value { result ≡ covered tile self }
        ensures whole { WholeTile self → (result ≡ true → HoldsAll tile self) × (result ≡ false → HoldsNone tile self) }
    {
        let x = u32::from(tile.x) * u32::from(Tile::WIDTH);
        let y = u32::from(tile.y) * u32::from(Tile::HEIGHT);
        u32::from(self.x0) <= x
            && x < u32::from(self.x1)
            && u32::from(self.y0) <= y
            && y < u32::from(self.y1)
    }
}
