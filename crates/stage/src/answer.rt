// What the calls answer, as it is printed after a line's number.
use crate::shown::Shown;
use geometry::size::SizeU16;
use geometry::tile::Tile;
use layers::layer::PoppedLayer;
use std::fmt;
use tiles::surface::Surface;
use walk::listed::Listed;

// The answer of a recording call, as it is printed: with the scene that was set, and the number of the layer that was closed.
#[derive(Clone, Copy)]
pub enum Answer {
    Reset(SizeU16),
    Draw(u32),
    Enter(u32),
    Leave(u32, PoppedLayer),
}

impl fmt::Display for Answer {
    fn fmt<W: fmt::Write>(&self, f: &mut fmt::Formatter<W>) -> fmt::Result {
        match *self {
            Answer::Reset(scene) => {
                let scene = Shown(scene);
                write!(f, "reset {scene}")
            }
            Answer::Draw(number) => write!(f, "draw {number}"),
            Answer::Enter(layer) => write!(f, "enter {layer}"),
            Answer::Leave(layer, kind) => {
                let kind = Shown(kind);
                write!(f, "leave {layer} {kind}")
            }
        }
    }
}

// The entries of a walk, after their count.
#[derive(Clone, Copy)]
struct Entries<'a>(&'a [Listed]);

impl fmt::Display for Entries<'_> {
    fn fmt<W: fmt::Write>(&self, f: &mut fmt::Formatter<W>) -> fmt::Result {
        let count = self.0.len();
        write!(f, "{count}:")?;
        // By hand: the library joins strings alone, on a heap.
        let mut separator = " ";
        for listed in self.0 {
            let listed = Shown(*listed);
            write!(f, "{separator}{listed}")?;
            separator = ", ";
        }
        Ok(())
    }
}

// Which walk was made: of the whole recording, or of one tile on a surface.
#[derive(Clone, Copy)]
pub enum Walk {
    Full,
    Tile { surface: Surface, tile: Tile },
}

// A walk and what it listed.
#[derive(Drop)]
pub struct Walked {
    pub walk: Walk,
    pub entries: Vec<Listed>,
}

impl fmt::Display for Walked {
    fn fmt<W: fmt::Write>(&self, f: &mut fmt::Formatter<W>) -> fmt::Result {
        let entries = Entries(self.entries.as_slice());
        match self.walk {
            Walk::Full => write!(f, "walk {entries}"),
            Walk::Tile { surface, tile } => {
                let surface = Shown(surface);
                let tile = Shown(tile);
                write!(f, "tile {surface} {tile} {entries}")
            }
        }
    }
}

// A recorded draw, and the line of the script that made it.
#[derive(Clone, Copy)]
pub struct Found {
    pub number: u32,
    pub line: u32,
}

// What a hit found at a tile.
#[derive(Clone, Copy)]
pub struct Hit {
    pub tile: Tile,
    pub found: Option<Found>,
}

impl fmt::Display for Hit {
    fn fmt<W: fmt::Write>(&self, f: &mut fmt::Formatter<W>) -> fmt::Result {
        let tile = Shown(self.tile);
        match self.found {
            Some(Found { number, line }) => write!(f, "hit {tile} Draw {number} line {line}"),
            None => write!(f, "hit {tile} none"),
        }
    }
}
