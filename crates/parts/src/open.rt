// The opening of a layer, as a script writes it. Its parts stand in one order, and each may be left out.
// Each part asks for its word itself, in two lines: a function for all, which takes the rest as a closure, is no shorter at its callers.
ghost use Rattle.text.specs.Readers.{Reads, following, behind};
ghost use Rattle.parts.specs.Openings.{opacity_of, mask_of, path_of, clip_of, props_of, filter_of, open_of};
ghost use Rattle.parts.specs.Shapes.{padding_of};

use crate::mode::read_mode;
use crate::shapes::read_rect;
use draws::blend::BlendMode;
use filter::data::FilterData;
use geometry::padding::PaddingU16;
use layers::props::{LayerClip, LayerProps, StripRange};
use text::reason::Reason;
use text::words::Words;

// `[opacity F]`, full opacity where it is left out
fn read_opacity(words: &mut Words<'_>) -> Result<f32, Reason>
    ensures { Reads opacity_of words.old result words.new }
{
    if !words.take("opacity") {
        return Ok(1.0);
    }
    let word = words.next_word().ok_or(Reason::NumberMissing)?;
    word.parse().map_err(|_| Reason::NotAnOpacity)
}

// `[path START END THREAD]`, no strip of list 0 where it is left out
fn read_path(words: &mut Words<'_>) -> Result<(StripRange, u8), Reason>
    ensures { Reads path_of words.old result words.new }
{
    if !words.take("path") {
        return Ok((StripRange { start: 0, end: 0 }, 0));
    }
    let (start, end) = words.pair()?;
    let thread_idx = words.number()?;
    Ok((StripRange { start, end }, thread_idx))
}

// `[clip X0 Y0 X1 Y1 [path START END THREAD]]`
fn read_clip(words: &mut Words<'_>) -> Result<Option<LayerClip>, Reason>
    ensures { Reads clip_of words.old result words.new }
{
    if !words.take("clip") {
        return Ok(None);
    }
    let bbox = read_rect(words)?;
    let (strip_range, thread_idx) = read_path(words)?;
    Ok(Some(LayerClip {
        strip_range,
        thread_idx,
        bbox,
    }))
}

// `[mask N]`
fn read_mask(words: &mut Words<'_>) -> Result<Option<u32>, Reason>
    ensures { Reads mask_of words.old result words.new }
{
    words.number_after("mask")
}

// All but the filter. The default mode where none is written.
pub fn read_props(words: &mut Words<'_>) -> Result<LayerProps, Reason>
    ensures { Reads props_of words.old result words.new }
{
    let blend_mode = read_mode(words)?.unwrap_or(BlendMode::DEFAULT);
    let opacity = read_opacity(words)?;
    let mask = read_mask(words)?;
    let clip_path = read_clip(words)?;
    Ok(LayerProps {
        blend_mode,
        opacity,
        mask,
        clip_path,
    })
}

// `LEFT TOP RIGHT BOTTOM`
fn read_padding(words: &mut Words<'_>) -> Result<PaddingU16, Reason>
    ensures { Reads padding_of words.old result words.new }
{
    let ((left, top), (right, bottom)) = words.pairs()?;
    Ok(PaddingU16::new(left, top, right, bottom))
}

// A padding after `word`, without which the line is faulty
fn read_padding_after(
    words: &mut Words<'_>,
    word: &str,
    missing: Reason,
) -> Result<PaddingU16, Reason>
    ensures { Reads (λ before. behind (following word.now before) padding_of) words.old result words.new }
{
    if !words.take(word) {
        return Err(missing);
    }
    read_padding(words)
}

// `[filter N pad L T R B source L T R B]`
pub fn read_filter(words: &mut Words<'_>) -> Result<Option<FilterData>, Reason>
    ensures { Reads filter_of words.old result words.new }
{
    if !words.take("filter") {
        return Ok(None);
    }
    let filter = words.number()?;
    let filter_padding = read_padding_after(words, "pad", Reason::PadMissing)?;
    let source_padding = read_padding_after(words, "source", Reason::SourceMissing)?;
    Ok(Some(FilterData {
        filter,
        filter_padding,
        source_padding,
    }))
}

// All parts of an opening: what the layer is opened with, and its filter.
pub fn read_opening(words: &mut Words<'_>) -> Result<(LayerProps, Option<FilterData>), Reason>
    ensures { Reads open_of words.old result words.new }
{
    let props = read_props(words)?;
    let filter = read_filter(words)?;
    Ok((props, filter))
}
