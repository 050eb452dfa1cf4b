// The boundaries: for each answer that changes at an edge, the last value before it and the first one past it.
use crate::padding::PaddingU16;
use crate::rect::RectU16;
use crate::size::SizeU16;
use crate::tile::Tile;

#[test]
fn snaps_up_to_the_last_tile(rt: HostRuntime) {
    let wide = RectU16::new(0, 0, 65_532, 4);
    let high = RectU16::new(0, 0, 4, 65_532);
    assert_eq!(rt; wide.snap_to_tile_coordinates(), Some(wide));
    assert_eq!(rt; high.snap_to_tile_coordinates(), Some(high));
    assert_eq!(rt;
        RectU16::new(0, 0, 65_533, 4).snap_to_tile_coordinates(),
        None
    );
    assert_eq!(rt;
        RectU16::new(0, 0, 4, 65_533).snap_to_tile_coordinates(),
        None
    );
}

#[test]
fn snaps_outward(rt: HostRuntime) {
    assert_eq!(rt;
        RectU16::new(0, 0, 1_001, 6).snap_to_tile_coordinates(),
        Some(RectU16::new(0, 0, 1_004, 8))
    );
    assert_eq!(rt;
        RectU16::new(7, 5, 8, 9).snap_to_tile_coordinates(),
        Some(RectU16::new(4, 4, 8, 12))
    );
    // An empty rectangle has an answer wherever it lies.
    let empty = RectU16::new(65_533, 65_534, 65_533, 65_535);
    assert_eq!(rt;
        empty.snap_to_tile_coordinates(),
        Some(RectU16::new(65_532, 65_532, 65_532, 65_532))
    );
}

#[test]
fn edges_stop_at_both_ends(rt: HostRuntime) {
    let r = RectU16::new(10, 10, 65_530, 65_530);
    assert_eq!(rt;
        r.expand(PaddingU16::new(10, 11, 5, 6)),
        RectU16::new(0, 0, 65_535, 65_535)
    );
    assert_eq!(rt;
        r.expand(PaddingU16::new(9, 0, 4, 0)),
        RectU16::new(1, 10, 65_534, 65_530)
    );
    assert_eq!(rt; r.expand(PaddingU16::ZERO), r);
    let s = RectU16::new(10, 10, 20, 20);
    assert_eq!(rt; s.shift((-10, -11)), RectU16::new(0, 0, 10, 9));
    assert_eq!(rt;
        s.shift((65_515, 65_516)),
        RectU16::new(65_525, 65_526, 65_535, 65_535)
    );
    assert_eq!(rt;
        s.shift((i32::MIN, i32::MAX)),
        RectU16::new(0, 65_535, 0, 65_535)
    );
    assert_eq!(rt; s.relative_to_origin((15, 20)), RectU16::new(0, 0, 5, 0));
}

#[test]
fn joins_and_meets(rt: HostRuntime) {
    let r = RectU16::new(3, 5, 7, 9);
    let mut a = r;
    a.union(RectU16::INVERTED);
    assert_eq!(rt; a, r);
    assert_eq!(rt; RectU16::INVERTED, RectU16::new(65_535, 65_535, 0, 0));
    let mut b = RectU16::INVERTED;
    b.union(r);
    assert_eq!(rt; b, r);
    b.union(RectU16::new(0, 6, 8, 7));
    assert_eq!(rt; b, RectU16::new(0, 5, 8, 9));
    assert_eq!(rt;
        r.intersect(RectU16::new(4, 0, 12, 6)),
        RectU16::new(4, 5, 7, 6)
    );
    // Where nothing is shared the high edges are raised to the low ones.
    assert_eq!(rt;
        r.intersect(RectU16::new(8, 12, 12, 16)),
        RectU16::new(8, 12, 8, 12)
    );
}

#[test]
fn high_edges_are_outside(rt: HostRuntime) {
    let r = RectU16::new(2, 3, 5, 7);
    assert!(rt; r.contains(2, 3) && r.contains(4, 6) && !r.contains(5, 6) && !r.contains(4, 7));
    assert!(rt; !r.contains(1, 3) && !r.contains(2, 2));
    assert_eq!(rt; r.size(), SizeU16::from_wh(3, 4));
    assert_eq!(rt; RectU16::INVERTED.size(), SizeU16::from_wh(0, 0));
    assert_eq!(rt; SizeU16::ZERO, SizeU16::from_wh(0, 0));
    assert_eq!(rt; RectU16::ZERO, RectU16::new(0, 0, 0, 0));
    assert_eq!(rt;
        r.size().max(SizeU16::from_wh(2, 5)),
        SizeU16::from_wh(3, 5)
    );
    assert!(rt; !RectU16::new(2, 3, 3, 4).is_empty() && RectU16::new(2, 3, 2, 4).is_empty());
    assert!(rt;
        RectU16::new(4, 8, 12, 16).is_tile_aligned()
            && !RectU16::new(4, 8, 12, 15).is_tile_aligned()
    );
}

#[test]
fn covers_a_tile_by_its_first_pixel(rt: HostRuntime) {
    let r = RectU16::new(0, 0, 8, 8);
    assert!(rt; r.covers(Tile { x: 1, y: 1 }));
    assert!(rt; !r.covers(Tile { x: 2, y: 1 }) && !r.covers(Tile { x: 1, y: 2 }));
    // The last column that can begin inside 16 bits, the next one, and the last of all.
    let all = RectU16::new(0, 0, 65_535, 65_535);
    assert!(rt; all.covers(Tile { x: 16_383, y: 0 }) && !all.covers(Tile { x: 16_384, y: 0 }));
    assert!(rt; !all.covers(Tile { x: 65_535, y: 0 }) && !all.covers(Tile { x: 0, y: 65_535 }));
}
