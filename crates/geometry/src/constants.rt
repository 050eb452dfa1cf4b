// The values of the public constants. A constant has no contract of its own: each function answers some, and its contract says what they are.
ghost use Rattle.std.specs.Prelude.{◌≡◌, true};
ghost use Rattle.geometry.specs.Size.{size};
ghost use Rattle.geometry.specs.Rect.{rect, zero, empty, joined};
ghost use Rattle.geometry.specs.Snap.{Fits16};

use crate::padding::PaddingU16;
use crate::rect::RectU16;
use crate::size::SizeU16;
use crate::tile::Tile;

fn zero_rect() -> RectU16
    ensures { result ≡ zero }
{
    RectU16::ZERO
}

// It is empty, and its union with any other rectangle is that other.
fn inverted_rect() -> RectU16
    ensures value { result ≡ rect 65535 65535 0 0 }
    ensures nothing { empty result ≡ true }
    ensures neutral { (other : RectU16) → Fits16 other → joined result other ≡ other }
{
    RectU16::INVERTED
}

fn zero_size() -> SizeU16
    ensures { result ≡ size 0 0 }
{
    SizeU16::ZERO
}

fn zero_padding() -> PaddingU16
    ensures { result ≡ record { left = 0; top = 0; right = 0; bottom = 0 } }
{
    PaddingU16::ZERO
}

// A tile's width and height, and the last edge.
fn tile_numbers() -> (u16, u16, u16)
    ensures { result ≡ (4, 4, 65532) }
{
    (Tile::WIDTH, Tile::HEIGHT, Tile::LAST_EDGE)
}
