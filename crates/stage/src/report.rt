// The recording, as `report` prints it.
ghost use Rattle.std.specs.Prelude.{◌≡◌, to_bits};
ghost use Rattle.std.specs.Float.{binary32, NotNan};

use crate::shown::{OrNone, Shown};
use filter::data::FilterData;
use filter::placement::FilterLayerPlacement;
use geometry::rect::RectU16;
use layers::layer::{RecordedLayer, RecordedLayerKind};
use layers::node::Node;
use layers::props::LayerProps;
use record::recorder::CommandRecorder;
use std::fmt;

// A block of lines, each of which begins with the number of the script's line.
#[derive(Clone, Copy)]
pub struct Report<'a> {
    pub line: u32,
    pub recorder: &'a CommandRecorder,
}

// The nodes of one layer, or of the root, each after a space.
#[derive(Clone, Copy)]
struct NodesOf<'a> {
    nodes: &'a [Node],
    owner: Option<u32>,
}

impl fmt::Display for NodesOf<'_> {
    fn fmt<W: fmt::Write>(&self, f: &mut fmt::Formatter<W>) -> fmt::Result {
        let owner = self.owner;
        for node in self.nodes.iter().filter(|node| node.owner == owner) {
            let node = Shown(*node);
            write!(f, " {node}")?;
        }
        Ok(())
    }
}

// Numbers, each after a space. Not one type with the nodes, which print otherwise and are picked by their owner.
#[derive(Clone, Copy)]
struct Numbers<'a>(&'a [u32]);

impl fmt::Display for Numbers<'_> {
    fn fmt<W: fmt::Write>(&self, f: &mut fmt::Formatter<W>) -> fmt::Result {
        for number in self.0 {
            write!(f, " {number}")?;
        }
        Ok(())
    }
}

// A filter with its paddings, its layer's box, and where that lies in the layer around it.
#[derive(Clone, Copy)]
struct FilterPart {
    data: FilterData,
    placement: FilterLayerPlacement,
    bbox: RectU16,
}

impl fmt::Display for FilterPart {
    fn fmt<W: fmt::Write>(&self, f: &mut fmt::Formatter<W>) -> fmt::Result {
        let filter = self.data.filter;
        let pad = Shown(self.data.filter_padding);
        let source = Shown(self.data.source_padding);
        write!(f, "filter {filter} pad {pad} source {source}")?;
        let bbox = Shown(self.bbox);
        let dest = Shown(self.placement.dest_bbox());
        let (x, y) = self.placement.src_origin();
        write!(f, " box {bbox} dest {dest} origin {x} {y}")
    }
}

// A layer's kind and its box.
#[derive(Clone, Copy)]
struct KindPart(RecordedLayer);

impl fmt::Display for KindPart {
    fn fmt<W: fmt::Write>(&self, f: &mut fmt::Formatter<W>) -> fmt::Result {
        match self.0.kind {
            RecordedLayerKind::Regular => {
                let bbox = Shown(self.0.bbox);
                write!(f, "regular box {bbox}")
            }
            RecordedLayerKind::Filter {
                filter_data,
                placement,
            } => {
                let part = FilterPart {
                    data: filter_data,
                    placement,
                    bbox: self.0.bbox,
                };
                write!(f, "{part}")
            }
        }
    }
}

// The bits of an opacity. A recorded opacity is a number from 0 to 1.
fn opacity_bits(opacity: f32) -> u32
    ensures { NotNan opacity → result ≡ to_bits binary32 opacity }
{
    if opacity.is_nan() {
        0
    } else {
        opacity.to_bits()
    }
}

// What a layer was opened with.
#[derive(Clone, Copy)]
struct PropsPart(LayerProps);

impl fmt::Display for PropsPart {
    fn fmt<W: fmt::Write>(&self, f: &mut fmt::Formatter<W>) -> fmt::Result {
        let mode = Shown(self.0.blend_mode);
        let opacity = opacity_bits(self.0.opacity);
        let mask = OrNone(self.0.mask);
        let clip = OrNone(self.0.clip_path.map(Shown));
        write!(f, "mode {mode} opacity {opacity} mask {mask} clip {clip}")
    }
}

impl Report<'_> {
    fn write_counts<W: fmt::Write>(&self, f: &mut fmt::Formatter<W>) -> fmt::Result {
        let line = self.line;
        let scene = Shown(self.recorder.scene_size());
        let draws = self.recorder.draw_count();
        let open = self.recorder.open_count();
        writeln!(f, "{line} scene {scene}")?;
        writeln!(f, "{line} draws {draws}")?;
        writeln!(f, "{line} open {open}")
    }

    fn write_figures<W: fmt::Write>(&self, f: &mut fmt::Formatter<W>) -> fmt::Result {
        let line = self.line;
        let root = self.recorder.root_is_blend_target();
        let blend = self.recorder.has_non_default_blend();
        let depth = self.recorder.max_layer_depth();
        let largest = OrNone(self.recorder.largest_layer_size().map(Shown));
        let largest_filter = OrNone(self.recorder.largest_filter_layer_size().map(Shown));
        writeln!(
            f,
            "{line} flags root_is_blend_target={root} has_non_default_blend={blend}"
        )?;
        writeln!(f, "{line} depth {depth}")?;
        writeln!(f, "{line} largest_layer {largest}")?;
        writeln!(f, "{line} largest_filter_layer {largest_filter}")
    }

    fn nodes_of(&self, owner: Option<u32>) -> NodesOf<'_> {
        NodesOf {
            nodes: self.recorder.nodes(),
            owner,
        }
    }

    fn write_lists<W: fmt::Write>(&self, f: &mut fmt::Formatter<W>) -> fmt::Result {
        let line = self.line;
        let filter_layers = Numbers(self.recorder.filter_layers());
        let root = self.nodes_of(None);
        writeln!(f, "{line} filter_layers{filter_layers}")?;
        write!(f, "{line} nodes root{root}")
    }

    fn write_layer<W: fmt::Write>(
        &self,
        f: &mut fmt::Formatter<W>,
        id: u32,
        layer: &RecordedLayer,
    ) -> fmt::Result {
        let line = self.line;
        let depth = layer.depth;
        let kind = KindPart(*layer);
        let props = PropsPart(layer.props);
        let nodes = self.nodes_of(Some(id));
        write!(
            f,
            "\n{line} layer {id} depth {depth} {kind} {props} nodes{nodes}"
        )
    }
}

impl fmt::Display for Report<'_> {
    fn fmt<W: fmt::Write>(&self, f: &mut fmt::Formatter<W>) -> fmt::Result {
        self.write_counts(f)?;
        self.write_figures(f)?;
        self.write_lists(f)?;
        for (id, layer) in (0..self.recorder.layer_count()).zip(self.recorder.layers()) {
            self.write_layer(f, id, layer)?;
        }
        Ok(())
    }
}
