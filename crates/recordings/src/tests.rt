// The known recordings and the boundaries of every refusal, run.
use draws::blend::BlendMode;
use draws::fill::Fill;
use filter::data::FilterData;
use geometry::padding::PaddingU16;
use geometry::rect::RectU16;
use geometry::size::SizeU16;
use geometry::tile::Tile;
use layers::layer::{PoppedLayer, RecordedLayer, RecordedLayerKind};
use layers::props::{LayerClip, LayerProps, StripRange};
use record::recorder::CommandRecorder;
use refusal::Refusal;
use std::process::Abort;
use std::test::Fail;
use tiles::surface::Surface;
use tiles::tile::{hit, tile_walk};
use walk::full::full_walk;
use walk::listed::Listed;

// The number of the refusal, or 0 where the call was accepted.
fn number<T: Drop>(answer: Result<T, Refusal>) -> u32 {
    match answer {
        Ok(_) => 0,
        Err(refusal) => refusal.number(),
    }
}

fn plain(clip: Option<RectU16>) -> LayerProps {
    let clip_path = match clip {
        Some(bbox) => Some(LayerClip {
            strip_range: StripRange { start: 0, end: 0 },
            thread_idx: 0,
            bbox,
        }),
        None => None,
    };
    LayerProps {
        blend_mode: BlendMode::DEFAULT,
        opacity: 1.0,
        mask: None,
        clip_path,
    }
}

// A filter whose source is moved by (20, 4).
fn shadow(filter_padding: PaddingU16) -> Option<FilterData> {
    Some(FilterData {
        filter: 7,
        filter_padding,
        source_padding: PaddingU16::new(20, 4, 0, 0),
    })
}

fn layer(recorder: &CommandRecorder, id: u32) -> Result<RecordedLayer, Fail> {
    match recorder.layer(id) {
        Some(layer) => Ok(layer),
        None => Err(Fail::new("no such layer")),
    }
}

#[test]
fn scenes(rt: HostRuntime) {
    let mut recorder = CommandRecorder::new();
    assert_eq!(rt; recorder.scene_size(), SizeU16::ZERO);
    assert_eq!(rt; recorder.reset(1001, 6), Ok(()));
    assert_eq!(rt; recorder.scene_size(), SizeU16::from_wh(1004, 8));
    assert_eq!(rt; recorder.reset(65_533, 1), Err(Refusal::ScenePastEdge));
    assert_eq!(rt; recorder.reset(1, 65_533), Err(Refusal::ScenePastEdge));
    assert_eq!(rt; recorder.scene_size(), SizeU16::from_wh(1004, 8));
    assert_eq!(rt; recorder.reset(65_532, 1), Ok(()));
    assert_eq!(rt; recorder.scene_size(), SizeU16::from_wh(65_532, 4));
    assert_eq!(rt; recorder.reset(0, 65_535), Ok(()));
    assert_eq!(rt; recorder.scene_size(), SizeU16::ZERO);
}

#[test]
fn three_nodes(rt: HostRuntime) -> Result<(), Fail> {
    let mut recorder = CommandRecorder::new();
    let fill = Fill::new(RectU16::new(0, 0, 4, 4), None)?;
    let mut draws = [fill; 3];
    assert_eq!(rt; recorder.push_draw(fill, &mut draws, &[]), Ok(0));
    assert_eq!(rt; recorder.push_layer(plain(None), None), Ok(0));
    assert_eq!(rt; recorder.push_draw(fill, &mut draws, &[]), Ok(1));
    assert_eq!(rt; recorder.pop_layer(), Ok(PoppedLayer::Regular));
    assert_eq!(rt; recorder.push_draw(fill, &mut draws, &[]), Ok(2));
    assert_eq!(rt;
        recorder.push_draw(fill, &mut draws, &[]),
        Err(Refusal::NoPlaceForDraw)
    );
    assert_eq!(rt; recorder.nodes().len(), 3);
    let mut short = [Listed::Draw(9); 4];
    assert_eq!(rt;
        full_walk(&recorder, &mut short),
        Err(Refusal::NoPlaceInList)
    );
    assert_eq!(rt; short, [Listed::Draw(9); 4]);
    let mut out = [Listed::Draw(9); 6];
    assert_eq!(rt; full_walk(&recorder, &mut out), Ok(5));
    assert_eq!(rt;
        out,
        [
            Listed::Draw(0),
            Listed::Enter(0),
            Listed::Draw(1),
            Listed::Leave(0),
            Listed::Draw(2),
            Listed::Draw(9),
        ]
    );
    Ok(())
}

#[test]
fn empty_clipped_layer(rt: HostRuntime) -> Result<(), Fail> {
    let mut recorder = CommandRecorder::new();
    let clip = RectU16::new(4, 4, 12, 12);
    assert_eq!(rt; recorder.push_layer(plain(Some(clip)), None), Ok(0));
    assert_eq!(rt; full_walk(&recorder, &mut []), Err(Refusal::LayerOpen));
    assert_eq!(rt; recorder.pop_layer(), Ok(PoppedLayer::Regular));
    assert_eq!(rt; layer(&recorder, 0)?.bbox, RectU16::new(4, 4, 4, 4));
    assert_eq!(rt; recorder.largest_layer_size(), Some(SizeU16::ZERO));
    assert_eq!(rt; recorder.pop_layer(), Err(Refusal::NoLayerOpen));
    Ok(())
}

#[test]
fn clipped_tiles(rt: HostRuntime) -> Result<(), Fail> {
    let mut recorder = CommandRecorder::new();
    let fill = Fill::new(RectU16::new(0, 0, 16, 16), None)?;
    let mut draws = [fill; 1];
    recorder.push_layer(plain(Some(RectU16::new(0, 0, 8, 8))), None)?;
    recorder.push_draw(fill, &mut draws, &[])?;
    recorder.pop_layer()?;
    let inside = Tile { x: 1, y: 1 };
    let outside = Tile { x: 2, y: 1 };
    let mut out = [Listed::Draw(9); 3];
    assert_eq!(rt;
        tile_walk(&recorder, Surface::Scene, outside, &draws, &[], &mut out),
        Ok(0)
    );
    assert_eq!(rt; out, [Listed::Draw(9); 3]);
    assert_eq!(rt;
        tile_walk(&recorder, Surface::Scene, inside, &draws, &[], &mut out),
        Ok(3)
    );
    assert_eq!(rt; out, [Listed::Enter(0), Listed::Draw(0), Listed::Leave(0)]);
    assert_eq!(rt; hit(&recorder, inside, &draws, &[]), Ok(Some(0)));
    assert_eq!(rt; hit(&recorder, outside, &draws, &[]), Ok(None));
    Ok(())
}

// A filter layer with one fill inside a regular layer: its destination and origin, and the regular layer's box.
fn filtered(
    rt: &impl Abort,
    fill: RectU16,
    padding: PaddingU16,
) -> Result<(RectU16, (u16, u16), RectU16), Fail> {
    let mut recorder = CommandRecorder::new();
    let fill = Fill::new(fill, None)?;
    let mut draws = [fill; 1];
    recorder.push_layer(plain(None), None)?;
    recorder.push_layer(plain(None), shadow(padding))?;
    recorder.push_draw(fill, &mut draws, &[])?;
    recorder.pop_layer()?;
    recorder.pop_layer()?;
    match layer(&recorder, 1)?.kind {
        RecordedLayerKind::Filter { placement, .. } => {
            assert_eq!(rt; placement.pixmap_bbox(), layer(&recorder, 1)?.bbox);
            Ok((
                placement.dest_bbox(),
                placement.src_origin(),
                layer(&recorder, 0)?.bbox,
            ))
        }
        RecordedLayerKind::Regular => Err(Fail::new("not a filter layer")),
    }
}

#[test]
fn filter_layers(rt: HostRuntime) -> Result<(), Fail> {
    let around = PaddingU16::new(4, 4, 4, 4);
    let (dest, origin, outer) = filtered(&rt, RectU16::new(8, 8, 40, 16), around)?;
    assert_eq!(rt; dest, RectU16::new(0, 0, 24, 16));
    assert_eq!(rt; origin, (16, 0));
    assert_eq!(rt; outer, dest);
    let (dest, _, outer) = filtered(&rt, RectU16::new(8, 8, 16, 16), around)?;
    assert_eq!(rt; dest, RectU16::new(0, 0, 0, 16));
    assert_eq!(rt; outer, RectU16::ZERO);
    Ok(())
}

fn with_opacity(opacity: f32) -> u32 {
    let mut recorder = CommandRecorder::new();
    let mut props = plain(None);
    props.opacity = opacity;
    number(recorder.push_layer(props, None))
}

#[test]
fn opacities(rt: HostRuntime) {
    assert!(rt; with_opacity(0.0) == 0);
    assert!(rt; with_opacity(-0.0) == 0);
    assert!(rt; with_opacity(1.0) == 0);
    assert!(rt; with_opacity(1.000_000_1) == 5);
    assert!(rt; with_opacity(-1.0e-45) == 5);
    assert!(rt; with_opacity(f32::INFINITY) == 5);
    assert!(rt; with_opacity(f32::NEG_INFINITY) == 5);
    assert!(rt; with_opacity(f32::NAN) == 5);
}

fn with_clip(x0: u16, y0: u16, x1: u16, y1: u16) -> u32 {
    let mut recorder = CommandRecorder::new();
    number(recorder.push_layer(plain(Some(RectU16::new(x0, y0, x1, y1))), None))
}

fn with_source(left: u16, top: u16) -> u32 {
    let mut recorder = CommandRecorder::new();
    let filter_data = FilterData {
        filter: 1,
        filter_padding: PaddingU16::ZERO,
        source_padding: PaddingU16::new(left, top, 1, 1),
    };
    number(recorder.push_layer(plain(None), Some(filter_data)))
}

#[test]
fn edges_on_tiles(rt: HostRuntime) {
    assert!(rt; with_clip(0, 4, 8, 65_532) == 0);
    assert!(rt; with_clip(12, 12, 4, 4) == 0);
    assert!(rt; with_clip(1, 4, 8, 12) == 6);
    assert!(rt; with_clip(0, 5, 8, 12) == 6);
    assert!(rt; with_clip(0, 4, 7, 12) == 6);
    assert!(rt; with_clip(0, 4, 8, 65_535) == 6);
    assert!(rt; with_source(4, 65_532) == 0);
    assert!(rt; with_source(3, 4) == 7);
    assert!(rt; with_source(4, 65_535) == 7);
}

// An opening with an opacity above 1, a clip off the tiles and a shift off the tiles.
fn all_wrong(recorder: &mut CommandRecorder, opacity: f32, x0: u16, left: u16) -> u32 {
    let mut props = plain(Some(RectU16::new(x0, 0, 4, 4)));
    props.opacity = opacity;
    let filter_data = FilterData {
        filter: 1,
        filter_padding: PaddingU16::ZERO,
        source_padding: PaddingU16::new(left, 0, 0, 0),
    };
    number(recorder.push_layer(props, Some(filter_data)))
}

#[test]
fn at_most_256_layers(rt: HostRuntime) -> Result<(), Fail> {
    let mut recorder = CommandRecorder::new();
    assert!(rt; all_wrong(&mut recorder, 2.0, 1, 1) == 5);
    assert!(rt; all_wrong(&mut recorder, 1.0, 1, 1) == 6);
    assert!(rt; all_wrong(&mut recorder, 1.0, 0, 1) == 7);
    for _ in 0..256 {
        assert!(rt; all_wrong(&mut recorder, 1.0, 0, 0) == 0);
    }
    assert!(rt; recorder.max_layer_depth() == 256);
    assert!(rt; all_wrong(&mut recorder, 2.0, 1, 1) == 4);
    for _ in 0..256 {
        assert_eq!(rt; recorder.pop_layer(), Ok(PoppedLayer::Filter));
    }
    assert!(rt; all_wrong(&mut recorder, 1.0, 0, 0) == 4);
    let mut out = [Listed::Draw(0); 512];
    assert_eq!(rt; full_walk(&recorder, &mut out), Ok(512));
    assert_eq!(rt; out[256], Listed::Leave(255));
    recorder.reset(4, 4)?;
    assert!(rt; all_wrong(&mut recorder, 1.0, 0, 0) == 0);
    Ok(())
}

// Whether a filter layer that ends at (x1, y1) closes with this padding, and what is open then.
fn closes(x1: u16, y1: u16, right: u16, bottom: u16) -> Result<(u32, usize), Fail> {
    let mut recorder = CommandRecorder::new();
    let fill = Fill::new(RectU16::new(0, 0, x1, y1), None)?;
    let mut draws = [fill; 1];
    recorder.push_layer(plain(None), shadow(PaddingU16::new(0, 0, right, bottom)))?;
    recorder.push_draw(fill, &mut draws, &[])?;
    Ok((number(recorder.pop_layer()), recorder.open_count()))
}

#[test]
fn filter_padding_at_the_edge(rt: HostRuntime) -> Result<(), Fail> {
    assert_eq!(rt; closes(65_528, 4, 4, 0)?, (0, 0));
    assert_eq!(rt; closes(65_528, 4, 5, 0)?, (9, 1));
    assert_eq!(rt; closes(4, 65_528, 0, 4)?, (0, 0));
    assert_eq!(rt; closes(4, 65_528, 0, 5)?, (9, 1));
    assert_eq!(rt; closes(0, 4, 65_535, 65_535)?, (0, 0));
    Ok(())
}

#[test]
fn at_most_1048576_draws(rt: HostRuntime) -> Result<(), Fail> {
    let mut recorder = CommandRecorder::new();
    let fill = Fill::new(RectU16::ZERO, None)?;
    let mut draws = vec![in rt.alloc(); fill; 1_048_577]?;
    for _ in 0..1_048_576 {
        recorder.push_draw(fill, &mut draws, &[])?;
    }
    assert!(rt; recorder.draw_count() == 1_048_576);
    assert_eq!(rt;
        recorder.push_draw(fill, &mut draws, &[]),
        Err(Refusal::NoPlaceForDraw)
    );
    Ok(())
}
