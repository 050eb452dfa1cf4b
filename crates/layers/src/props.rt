// The properties of a layer.
ghost use Rattle.std.specs.Prelude.{◌≡◌, false, pos, None};
ghost use Rattle.std.specs.Float.{fin};

use draws::blend::BlendMode;
use geometry::rect::RectU16;

#[derive(Clone, Copy, Debug)]
pub struct LayerProps {
    pub blend_mode: BlendMode,
    // From 0 to 1.
    pub opacity: f32,
    // The number of a mask in a list of the caller's.
    pub mask: Option<u32>,
    pub clip_path: Option<LayerClip>,
}

// Mixed as usual, opaque, with no mask and no clip.
impl Default for LayerProps {
    ghost is_default = { λ p. (p.blend_mode ≡ record { mix = 0; compose = 3 }) × (p.opacity ≡ fin false 1 (pos 0)) × (p.mask ≡ None) × (p.clip_path ≡ None) };

    fn default() -> LayerProps {
        LayerProps {
            blend_mode: BlendMode::DEFAULT,
            opacity: 1.0,
            mask: None,
            clip_path: None,
        }
    }
}

// A clip path, as strips that the caller keeps, and the box around them.
#[derive(Clone, Copy, Debug)]
pub struct LayerClip {
    pub strip_range: StripRange,
    // Which of the caller's strip lists holds the strips.
    pub thread_idx: u8,
    // All four edges are multiples of 4.
    pub bbox: RectU16,
}

// Not a `Range`, which is not `Copy`.
#[derive(Clone, Copy, Debug)]
pub struct StripRange {
    pub start: u32,
    pub end: u32,
}
