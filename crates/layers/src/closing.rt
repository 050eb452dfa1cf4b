// What is put into an open layer, and what its closing gives.
ghost use Rattle.std.specs.Prelude.{◌≡◌, [], ◌∷◌, Some};
ghost use Rattle.refusal.specs.Refusals.{Answers};
ghost use Rattle.layers.specs.Closing.{put, closing, clipped, or_zero, pads_within, kind_closed};
ghost use Rattle.layers.specs.Records.{placed_kind};

use crate::layer::{ClosedLayer, OpenLayer, PoppedLayer, RecordedLayerKind};
use filter::placement::FilterLayerPlacement;
use geometry::rect::RectU16;
use refusal::Refusal;

// The contents of a layer with one more box; an absent or an empty one adds nothing.
// It is not the union by which a run takes in its strips' boxes, where an empty box counts.
pub fn put_into(contents: Option<RectU16>, bbox: RectU16) -> Option<RectU16>
    ensures { result ≡ put (Some bbox) contents }
{
    if bbox.is_empty() {
        return contents;
    }
    match contents {
        Some(mut all) => {
            all.union(bbox);
            Some(all)
        }
        None => Some(bbox),
    }
}

// A regular layer's box: its contents, or zero, cut by its clip.
fn regular_bbox(layer: &OpenLayer) -> RectU16
    ensures { result ≡ clipped (or_zero layer.now.contents) layer.now.clip }
{
    let bbox = layer.contents.unwrap_or(RectU16::ZERO);
    layer.clip.map_or(bbox, |clip| bbox.intersect(clip))
}

// What the closing of a layer gives. Clauses tell a refusal by its number, as it is known outside.
pub fn close(layer: &OpenLayer) -> Result<ClosedLayer, Refusal>
    ensures { Answers ((pads_within layer.now.filter layer.now.contents, 9) ∷ []) result (λ k. closing layer.now ≡ Some k) (Unit {0}) }
{
    let Some(filter_data) = layer.filter else {
        let bbox = regular_bbox(layer);
        return Ok(ClosedLayer {
            bbox,
            in_parent: bbox,
            placement: None,
        });
    };
    let contents = layer.contents.unwrap_or(RectU16::ZERO);
    let placement = FilterLayerPlacement::new(contents, &filter_data).ok_or(
        Refusal::FilterPastEdge,
    )?;
    Ok(ClosedLayer {
        bbox: placement.pixmap_bbox(),
        in_parent: placement.dest_bbox(),
        placement: Some(placement),
    })
}

// The kind of a layer that was closed: a filter layer has a placement.
pub fn popped(closed: &ClosedLayer) -> PoppedLayer
    ensures { result ≡ kind_closed closed.now }
{
    match closed.placement {
        Some(_) => PoppedLayer::Filter,
        None => PoppedLayer::Regular,
    }
}

// A layer's kind with its placement, where it is a filter layer's.
pub fn placed_kind(
    kind: RecordedLayerKind,
    placement: Option<FilterLayerPlacement>,
) -> RecordedLayerKind
    ensures { result ≡ placed_kind placement kind }
{
    match (kind, placement) {
        (RecordedLayerKind::Filter { filter_data, .. }, Some(placement)) => {
            RecordedLayerKind::Filter {
                filter_data,
                placement,
            }
        }
        (kind, _) => kind,
    }
}
