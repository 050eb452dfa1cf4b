// Why a call was refused. A refused call has altered nothing.
#![tactic(auto)]

ghost use Rattle.std.specs.Prelude.{◌≡◌};
ghost use Rattle.refusal.specs.Refusals.{number_of, sentence_of};

#[cfg(test)]
mod tests;

// A refusal's number is its discriminant.
#[derive(Clone, Copy, Debug, PartialEq, Eq)]
pub enum Refusal {
    // A fill that is not empty has a high edge above 65,532.
    FillPastEdge = 1,
    // The scene is not empty and wider or higher than 65,532.
    ScenePastEdge = 2,
    // 1,048,576 draws are recorded, or the draw list has no place for one more.
    NoPlaceForDraw = 3,
    // 256 layers were recorded since the reset.
    TooManyLayers = 4,
    // The opacity is below 0, above 1, or not a number.
    OpacityOutOfRange = 5,
    // An edge of the clip box is no multiple of 4.
    ClipOffTile = 6,
    // The left or top source padding of the filter is no multiple of 4.
    ShiftOffTile = 7,
    // There is no layer to close.
    NoLayerOpen = 8,
    // The contents of the filter layer, with its filter's padding, pass 65,532. The layer stays open.
    FilterPastEdge = 9,
    // A walk is made only while no layer is open.
    LayerOpen = 10,
    // The output list has fewer places than the walk has entries.
    NoPlaceInList = 11,
    // A tile walk starts at the scene, or at a recorded filter layer.
    NoSuchSurface = 12,
    // The tile's column or row is above 16,382.
    TileOutOfRange = 13,
    // The draw list is shorter than the number of recorded draws.
    DrawsMissing = 14,
}

impl Refusal {
    // The number under which the refusal is known.
    pub fn number(self) -> u32
        ensures { result ≡ number_of self }
    {
        self as u32
    }

    // The reason in plain words.
    pub fn sentence(self) -> &'static str
        ensures { result.now ≡ sentence_of self }
    {
        // By reference, so that what the clause says of `self` needs no proof by hand.
        match &self {
            Refusal::FillPastEdge => "a high edge of the fill is above 65532",
            Refusal::ScenePastEdge => "the scene is wider or higher than 65532",
            Refusal::NoPlaceForDraw => "there is no place for one more draw",
            Refusal::TooManyLayers => "256 layers are recorded already",
            Refusal::OpacityOutOfRange => "the opacity is not a number from 0 to 1",
            Refusal::ClipOffTile => "an edge of the clip box is not on a tile's edge",
            Refusal::ShiftOffTile =>
                "the filter's left or top source padding is not a multiple of 4",
            Refusal::NoLayerOpen => "no layer is open",
            Refusal::FilterPastEdge => "the filter layer with its padding passes 65532",
            Refusal::LayerOpen => "a layer is still open",
            Refusal::NoPlaceInList => "the output list has too few places",
            Refusal::NoSuchSurface => "the surface is not the scene or a filter layer",
            Refusal::TileOutOfRange => "the tile's column or row is above 16382",
            Refusal::DrawsMissing => "the draw list is shorter than the recording",
        }
    }
}
