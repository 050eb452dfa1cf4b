// A width and a height.
ghost use Rattle.std.specs.Prelude.{◌≡◌};
ghost use Rattle.geometry.specs.Size.{size, larger};

#[derive(Clone, Copy, Debug, Default, PartialEq, Eq)]
pub struct SizeU16 {
    pub width: u16,
    pub height: u16,
}

impl SizeU16 {
    pub const ZERO: SizeU16 = SizeU16 {
        width: 0,
        height: 0,
    };

    pub const fn from_wh(width: u16, height: u16) -> SizeU16
        ensures { result ≡ size width height }
    {
        SizeU16 { width, height }
    }

    // The larger width and the larger height of the two.
    pub fn max(self, other: SizeU16) -> SizeU16
        ensures { result ≡ larger self other }
    {
        SizeU16::from_wh(self.width.max(other.width), self.height.max(other.height))
    }
}
