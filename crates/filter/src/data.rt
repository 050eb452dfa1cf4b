// The filter of a layer with its paddings, which are worked out elsewhere.
ghost use Rattle.std.specs.Prelude.{◌≡◌};

use geometry::padding::PaddingU16;

#[derive(Clone, Copy, Debug)]
pub struct FilterData {
    // The filter and its transform, which stand in a list of the caller's.
    pub filter: u32,
    // How far the filter reaches beyond the contents on each side.
    pub filter_padding: PaddingU16,
    // How far the contents are moved, to the right by `left` and downward by `top`, while they are drawn.
    pub source_padding: PaddingU16,
}

impl FilterData {
    // By how much the contents are moved while they are drawn: a pair, as the rules have it.
    pub fn source_shift(&self) -> (u16, u16)
        ensures { result ≡ (self.now.source_padding.left, self.now.source_padding.top) }
    {
        (self.source_padding.left, self.source_padding.top)
    }
}
