// What an opening asks of its arguments, and what it records.
ghost use Rattle.std.specs.Prelude.{◌≡◌, ◌&&◌};
ghost use Rattle.refusal.specs.Refusals.{Answers};
ghost use Rattle.layers.specs.Opening.{opacity_fits, clip_on_tiles, shift_on_tiles, argument_questions, clip_box};
ghost use Rattle.layers.specs.Records.{recorded_open};

use crate::layer::{RecordedLayer, RecordedLayerKind};
use crate::props::{LayerClip, LayerProps};
use filter::data::FilterData;
use filter::placement::FilterLayerPlacement;
use geometry::rect::RectU16;
use geometry::tile::Tile;
use refusal::Refusal;

fn clip_on_tiles(clip: Option<LayerClip>) -> bool
    ensures { result ≡ clip_on_tiles clip }
{
    clip.is_none_or(|clip| clip.bbox.is_tile_aligned())
}

fn shift_on_tiles(filter: Option<FilterData>) -> bool
    ensures { result ≡ shift_on_tiles filter }
{
    filter.is_none_or(|filter_data| {
        let (x, y) = filter_data.source_shift();
        x.is_multiple_of(Tile::WIDTH) && y.is_multiple_of(Tile::HEIGHT)
    })
}

// What is not a number is neither at least 0 nor at most 1.
fn opacity_fits(opacity: f32) -> bool
    ensures { result ≡ opacity_fits opacity }
{
    opacity >= 0.0 && opacity <= 1.0
}

// What an opening asks of its arguments.
pub fn check_opening(props: &LayerProps, filter: Option<FilterData>) -> Result<(), Refusal>
    ensures { Answers (argument_questions props.now filter) result (λ _. Unit {0}) (Unit {0}) }
{
    if !opacity_fits(props.opacity) {
        return Err(Refusal::OpacityOutOfRange);
    }
    if !clip_on_tiles(props.clip_path) {
        return Err(Refusal::ClipOffTile);
    }
    if !shift_on_tiles(filter) {
        return Err(Refusal::ShiftOffTile);
    }
    Ok(())
}

pub fn clip_bbox(clip: Option<LayerClip>) -> Option<RectU16>
    ensures { result ≡ clip_box clip }
{
    clip.map(|clip| clip.bbox)
}

// A layer as its opening records it.
pub fn recorded_open(props: LayerProps, filter: Option<FilterData>, depth: u32) -> RecordedLayer
    ensures { result ≡ recorded_open props filter depth }
{
    let kind = match filter {
        Some(filter_data) => RecordedLayerKind::Filter {
            filter_data,
            placement: FilterLayerPlacement::EMPTY,
        },
        None => RecordedLayerKind::Regular,
    };
    RecordedLayer {
        props,
        kind,
        depth,
        bbox: RectU16::ZERO,
    }
}
