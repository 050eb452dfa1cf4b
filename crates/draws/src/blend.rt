// How a draw or a layer is mixed with what lies under it.
ghost use Rattle.std.specs.Prelude.{◌≡◌, true};
ghost use Rattle.draws.specs.Mode.{default_mode};

// Two numbers and no enum: what they stand for is the caller's.
#[derive(Clone, Copy, Debug, PartialEq, Eq)]
pub struct BlendMode {
    pub mix: u8,
    pub compose: u8,
}

impl BlendMode {
    // Normal mixing, drawn over what is there.
    pub const DEFAULT: BlendMode = BlendMode { mix: 0, compose: 3 };

    pub fn is_default(self) -> bool
        ensures { result ≡ default_mode self }
    {
        self == BlendMode::DEFAULT
    }
}

impl Default for BlendMode {
    ghost is_default = { λ m. (m ≡ record { mix = 0; compose = 3 }) × (default_mode m ≡ true) };

    fn default() -> BlendMode {
        BlendMode::DEFAULT
    }
}
