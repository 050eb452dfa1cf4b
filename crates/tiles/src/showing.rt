// What a tile shows of a recorded layer.
ghost use Rattle.std.specs.Prelude.{◌≡◌};
ghost use Rattle.tiles.specs.Tile.{showing};

use geometry::tile::Tile;
use layers::layer::{RecordedLayer, RecordedLayerKind};

#[derive(Clone, Copy, Debug, PartialEq, Eq)]
pub enum Showing {
    // A regular layer's contents.
    Through,
    // A filter layer's result.
    Placed,
    Hidden,
}

// A regular layer shows where its box covers the tile, and a filter layer where its destination does.
pub(crate) fn shows(layer: &RecordedLayer, tile: Tile) -> Showing
    ensures { result ≡ showing tile layer.now }
{
    match layer.kind {
        RecordedLayerKind::Regular if layer.bbox.covers(tile) => Showing::Through,
        RecordedLayerKind::Filter { placement, .. } if placement.dest_bbox().covers(tile) => {
            Showing::Placed
        }
        _ => Showing::Hidden,
    }
}
