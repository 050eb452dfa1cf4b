// A recorded layer.
use crate::props::LayerProps;
use filter::data::FilterData;
use filter::placement::FilterLayerPlacement;
use geometry::rect::RectU16;

#[derive(Clone, Copy, Debug, Default)]
pub struct RecordedLayer {
    pub props: LayerProps,
    pub kind: RecordedLayerKind,
    // How many layers were open when it was opened, plus one.
    pub depth: u32,
    // Zero until the layer is closed, and no Option, as the rules have it.
    pub bbox: RectU16,
}

// Not an Option: the names say what kind of layer it is.
#[derive(Clone, Copy, Debug, Default)]
pub enum RecordedLayerKind {
    #[default]
    Regular,
    Filter {
        filter_data: FilterData,
        // All zero until the layer is closed, and no Option, as the rules have it.
        placement: FilterLayerPlacement,
    },
}

// The kind of the layer that was closed.
#[derive(Clone, Copy, Debug, PartialEq, Eq)]
pub enum PoppedLayer {
    Regular,
    Filter,
}

// A layer that is open, as its closing needs it.
#[derive(Clone, Copy, Debug, Default)]
pub struct OpenLayer {
    pub id: u32,
    pub clip: Option<RectU16>,
    pub filter: Option<FilterData>,
    // The union of the boxes put into the layer; none while there is no such box.
    pub contents: Option<RectU16>,
}

// What the closing of a layer gives.
#[derive(Clone, Copy, Debug)]
pub struct ClosedLayer {
    pub bbox: RectU16,
    // What the layer around it takes in.
    pub in_parent: RectU16,
    // A filter layer's. Beside the boxes and no enum of two: both kinds have both boxes.
    pub placement: Option<FilterLayerPlacement>,
}
