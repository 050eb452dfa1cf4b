// The numbers under which the refusals are known.
use crate::Refusal;

#[test]
fn numbers(rt: HostRuntime) {
    assert_eq!(rt; Refusal::FillPastEdge.number(), 1);
    assert_eq!(rt; Refusal::ScenePastEdge.number(), 2);
    assert_eq!(rt; Refusal::NoPlaceForDraw.number(), 3);
    assert_eq!(rt; Refusal::TooManyLayers.number(), 4);
    assert_eq!(rt; Refusal::OpacityOutOfRange.number(), 5);
    assert_eq!(rt; Refusal::ClipOffTile.number(), 6);
    assert_eq!(rt; Refusal::ShiftOffTile.number(), 7);
    assert_eq!(rt; Refusal::NoLayerOpen.number(), 8);
    assert_eq!(rt; Refusal::FilterPastEdge.number(), 9);
    assert_eq!(rt; Refusal::LayerOpen.number(), 10);
    assert_eq!(rt; Refusal::NoPlaceInList.number(), 11);
    assert_eq!(rt; Refusal::NoSuchSurface.number(), 12);
    assert_eq!(rt; Refusal::TileOutOfRange.number(), 13);
    assert_eq!(rt; Refusal::DrawsMissing.number(), 14);
}
