// How values of the recording are printed.
use draws::blend::BlendMode;
use geometry::padding::PaddingU16;
use geometry::rect::RectU16;
use geometry::size::SizeU16;
use geometry::tile::Tile;
use layers::layer::PoppedLayer;
use layers::node::Node;
use layers::props::LayerClip;
use refusal::Refusal;
use std::fmt;
use tiles::surface::Surface;
use walk::listed::Listed;

// A value of another crate, as this program prints it: the lines' format is the program's, and not that crate's own `Display`.
#[derive(Drop)]
pub struct Shown<T>(pub T);

// A value that may be absent.
#[derive(Drop)]
pub struct OrNone<T>(pub Option<T>);

impl<T: fmt::Display> fmt::Display for OrNone<T> {
    fn fmt<W: fmt::Write>(&self, f: &mut fmt::Formatter<W>) -> fmt::Result {
        match &self.0 {
            Some(value) => write!(f, "{value}"),
            None => write!(f, "none"),
        }
    }
}

// A call that was refused.
impl fmt::Display for Shown<Refusal> {
    fn fmt<W: fmt::Write>(&self, f: &mut fmt::Formatter<W>) -> fmt::Result {
        let number = self.0.number();
        let sentence = self.0.sentence();
        write!(f, "refused {number} {sentence}")
    }
}

impl fmt::Display for Shown<SizeU16> {
    fn fmt<W: fmt::Write>(&self, f: &mut fmt::Formatter<W>) -> fmt::Result {
        let width = self.0.width;
        let height = self.0.height;
        write!(f, "{width} {height}")
    }
}

impl fmt::Display for Shown<RectU16> {
    fn fmt<W: fmt::Write>(&self, f: &mut fmt::Formatter<W>) -> fmt::Result {
        let RectU16 { x0, y0, x1, y1 } = self.0;
        write!(f, "{x0} {y0} {x1} {y1}")
    }
}

impl fmt::Display for Shown<PaddingU16> {
    fn fmt<W: fmt::Write>(&self, f: &mut fmt::Formatter<W>) -> fmt::Result {
        let PaddingU16 {
            left,
            top,
            right,
            bottom,
        } = self.0;
        write!(f, "{left} {top} {right} {bottom}")
    }
}

impl fmt::Display for Shown<BlendMode> {
    fn fmt<W: fmt::Write>(&self, f: &mut fmt::Formatter<W>) -> fmt::Result {
        let BlendMode { mix, compose } = self.0;
        write!(f, "{mix} {compose}")
    }
}

impl fmt::Display for Shown<LayerClip> {
    fn fmt<W: fmt::Write>(&self, f: &mut fmt::Formatter<W>) -> fmt::Result {
        let bbox = Shown(self.0.bbox);
        let start = self.0.strip_range.start;
        let end = self.0.strip_range.end;
        let thread = self.0.thread_idx;
        write!(f, "{bbox} path {start} {end} {thread}")
    }
}

impl fmt::Display for Shown<PoppedLayer> {
    fn fmt<W: fmt::Write>(&self, f: &mut fmt::Formatter<W>) -> fmt::Result {
        match self.0 {
            PoppedLayer::Regular => write!(f, "regular"),
            PoppedLayer::Filter => write!(f, "filter"),
        }
    }
}

impl fmt::Display for Shown<Node> {
    fn fmt<W: fmt::Write>(&self, f: &mut fmt::Formatter<W>) -> fmt::Result {
        let start = self.0.start;
        let end = self.0.end;
        match self.0.layer {
            Some(layer) => write!(f, "{start}..{end}>{layer}"),
            None => write!(f, "{start}..{end}"),
        }
    }
}

impl fmt::Display for Shown<Listed> {
    fn fmt<W: fmt::Write>(&self, f: &mut fmt::Formatter<W>) -> fmt::Result {
        match self.0 {
            Listed::Draw(number) => write!(f, "Draw {number}"),
            Listed::Enter(layer) => write!(f, "Enter {layer}"),
            Listed::Leave(layer) => write!(f, "Leave {layer}"),
            Listed::Filter(layer) => write!(f, "Filter {layer}"),
        }
    }
}

impl fmt::Display for Shown<Surface> {
    fn fmt<W: fmt::Write>(&self, f: &mut fmt::Formatter<W>) -> fmt::Result {
        match self.0 {
            Surface::Scene => write!(f, "scene"),
            Surface::Layer(layer) => write!(f, "{layer}"),
        }
    }
}

// Its column and its row.
impl fmt::Display for Shown<Tile> {
    fn fmt<W: fmt::Write>(&self, f: &mut fmt::Formatter<W>) -> fmt::Result {
        let Tile { x, y } = self.0;
        write!(f, "{x} {y}")
    }
}
