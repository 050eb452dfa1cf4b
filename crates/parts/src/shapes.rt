// Strips, rectangles and tiles.
ghost use Rattle.text.specs.Readers.{Reads};
ghost use Rattle.parts.specs.Shapes.{strip_of, rect_of, tile_of};

use draws::strip::Strip;
use geometry::rect::RectU16;
use geometry::tile::Tile;
use text::reason::Reason;
use text::words::Words;

// `X Y WIDTH`
pub fn read_strip(words: &mut Words<'_>) -> Result<Strip, Reason>
    ensures { Reads strip_of words.old result words.new }
{
    let (x, y) = words.pair()?;
    let width = words.number()?;
    Ok(Strip { x, y, width })
}

// `X0 Y0 X1 Y1`
pub fn read_rect(words: &mut Words<'_>) -> Result<RectU16, Reason>
    ensures { Reads rect_of words.old result words.new }
{
    let ((x0, y0), (x1, y1)) = words.pairs()?;
    Ok(RectU16::new(x0, y0, x1, y1))
}

// `COLUMN ROW`
pub fn read_tile(words: &mut Words<'_>) -> Result<Tile, Reason>
    ensures { Reads tile_of words.old result words.new }
{
    let (x, y) = words.pair()?;
    Ok(Tile { x, y })
}
