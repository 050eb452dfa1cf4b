// Padding around the four sides of a rectangle.
ghost use Rattle.std.specs.Prelude.{◌≡◌};

#[derive(Clone, Copy, Debug, Default, PartialEq, Eq)]
pub struct PaddingU16 {
    pub left: u16,
    pub top: u16,
    pub right: u16,
    pub bottom: u16,
}

impl PaddingU16 {
    // No padding on any side.
    pub const ZERO: PaddingU16 = PaddingU16 {
        left: 0,
        top: 0,
        right: 0,
        bottom: 0,
    };

    pub const fn new(left: u16, top: u16, right: u16, bottom: u16) -> PaddingU16
        ensures { result ≡ record { left = left; top = top; right = right; bottom = bottom } }
    {
        PaddingU16 {
            left,
            top,
            right,
            bottom,
        }
    }
}
