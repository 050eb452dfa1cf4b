// Where a filter layer is drawn, and where its result goes in the layer around it.
ghost use Rattle.std.specs.Prelude.{◌≡◌, false, IfSome, MatchOption};
ghost use Rattle.geometry.specs.Rect.{empty};
ghost use Rattle.filter.specs.Placement.{placed, Lies, Nowhere, OnTiles, ShiftOnTiles};

use crate::data::FilterData;
use geometry::rect::RectU16;

#[derive(Clone, Copy, Debug, Default)]
pub struct FilterLayerPlacement {
    pixmap_bbox: RectU16,
    dest_bbox: RectU16,
    src_x: u16,
    src_y: u16,
}

impl FilterLayerPlacement {
    // The placement of a filter layer without contents, and of one that is still open.
    pub const EMPTY: FilterLayerPlacement = FilterLayerPlacement {
        pixmap_bbox: RectU16::ZERO,
        dest_bbox: RectU16::ZERO,
        src_x: 0,
        src_y: 0,
    };

    // The placement of a filter layer with the contents box `bbox`.
    // It is absent where no rectangle of whole tiles with 16-bit edges holds the padded contents.
    pub fn new(bbox: RectU16, filter_data: &FilterData) -> Option<FilterLayerPlacement>
        ensures value { result ≡ placed bbox filter_data.now }
        ensures lies { empty bbox ≡ false → MatchOption result (Nowhere bbox filter_data.now) (λ p. Lies bbox filter_data.now p) }
        ensures on_tiles { ShiftOnTiles filter_data.now → IfSome result (λ p. OnTiles p) }
    {
        if bbox.is_empty() {
            return Some(FilterLayerPlacement::EMPTY);
        }
        let padded = bbox.expand(filter_data.filter_padding);
        let pixmap_bbox = padded.snap_to_tile_coordinates()?;
        let (shift_x, shift_y) = filter_data.source_shift();
        Some(FilterLayerPlacement {
            pixmap_bbox,
            dest_bbox: pixmap_bbox.relative_to_origin((shift_x, shift_y)),
            // The columns and rows of the pixmap that lie before the destination's zero.
            src_x: shift_x.saturating_sub(pixmap_bbox.x0),
            src_y: shift_y.saturating_sub(pixmap_bbox.y0),
        })
    }

    // The pixels that are drawn for the layer, with what its filter adds around the contents.
    pub fn pixmap_bbox(self) -> RectU16
        ensures { result ≡ self.pixmap_bbox }
    {
        self.pixmap_bbox
    }

    // Where the filtered pixels go in the layer around.
    pub fn dest_bbox(self) -> RectU16
        ensures { result ≡ self.dest_bbox }
    {
        self.dest_bbox
    }

    // The pixel of the pixmap that comes to the destination's low corner: a pair, as the rules have it.
    pub fn src_origin(self) -> (u16, u16)
        ensures { result ≡ (self.src_x, self.src_y) }
    {
        (self.src_x, self.src_y)
    }
}
