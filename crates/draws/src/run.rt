// A run of strips.
ghost use Rattle.std.specs.Prelude.{◌≡◌, None};
ghost use Rattle.draws.specs.Strips.{joined_to, strips_box, part};
ghost use Rattle.draws.specs.Boxes.{strips-on-tiles};

use crate::blend::BlendMode;
use crate::drawable::Drawable;
use crate::strip::Strip;
use geometry::rect::RectU16;

// The strips from place `start` of the strip list up to, and without, place `end`.
#[derive(Clone, Copy, Debug)]
pub struct Run {
    pub start: u32,
    pub end: u32,
}

// The union of two boxes of which either may be absent.
fn join(a: Option<RectU16>, b: Option<RectU16>) -> Option<RectU16>
    ensures { result ≡ joined_to a b }
{
    match (a, b) {
        (Some(mut bbox), Some(other)) => {
            bbox.union(other);
            Some(bbox)
        }
        (Some(bbox), None) => Some(bbox),
        (None, other) => other,
    }
}

impl Drawable for Run {
    ghost box_of = { λ r strips. strips_box (part r.start r.end strips) };

    ghost mode_of = { λ _. None };

    ghost on_tiles = { λ d strips. strips-on-tiles None (part d.start d.end strips) tt };

    fn bbox(&self, strips: &[Strip]) -> Option<RectU16> {
        let end = (self.end as usize).min(strips.len());
        let start = (self.start as usize).min(end);
        let mut bbox = None;
        // A loop over the part, one strip after another, as the rule has it.
        for strip in &strips[start..end] {
            bbox = join(bbox, strip.snapped());
        }
        bbox
    }

    fn blend_mode(&self) -> Option<BlendMode> {
        None
    }
}
