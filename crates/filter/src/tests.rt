// Placements worked out by hand: padded, moved outward to tiles' edges, then seen from the shift.
use crate::data::FilterData;
use crate::placement::FilterLayerPlacement;
use geometry::padding::PaddingU16;
use geometry::rect::RectU16;
use std::process::Abort;
use std::test::Fail;

// A filter that reaches 4 pixels out on each side but the right, where it reaches `right`; its contents are moved by (20, 4).
fn filter_data(right: u16) -> FilterData {
    FilterData {
        filter: 0,
        filter_padding: PaddingU16::new(4, 4, right, 4),
        source_padding: PaddingU16::new(20, 4, 0, 8),
    }
}

// Whether the contents have a placement with these boxes and this origin.
fn placed(
    rt: &impl Abort,
    bbox: RectU16,
    pixmap: RectU16,
    dest: RectU16,
    origin: (u16, u16),
) -> Result<(), Fail> {
    let placement = FilterLayerPlacement::new(bbox, &filter_data(4)).ok_or("no placement")?;
    assert_eq!(rt; placement.pixmap_bbox(), pixmap);
    assert_eq!(rt; placement.dest_bbox(), dest);
    assert_eq!(rt; placement.src_origin(), origin);
    Ok(())
}

#[test]
fn lies_where_the_shift_puts_it(rt: HostRuntime) -> Result<(), Fail> {
    assert_eq!(rt; filter_data(4).source_shift(), (20, 4));
    placed(
        &rt,
        RectU16::new(8, 8, 40, 16),
        RectU16::new(4, 4, 44, 20),
        RectU16::new(0, 0, 24, 16),
        (16, 0),
    )?;
    // All columns lie before the destination's zero.
    placed(
        &rt,
        RectU16::new(8, 8, 16, 16),
        RectU16::new(4, 4, 20, 20),
        RectU16::new(0, 0, 0, 16),
        (16, 0),
    )
}

#[test]
fn without_contents_all_is_zero(rt: HostRuntime) -> Result<(), Fail> {
    let zero = RectU16::new(0, 0, 0, 0);
    placed(&rt, RectU16::new(8, 8, 8, 16), zero, zero, (0, 0))
}

#[test]
fn ends_at_the_last_tile(rt: HostRuntime) {
    let bbox = RectU16::new(0, 0, 65_528, 4);
    assert!(rt; FilterLayerPlacement::new(bbox, &filter_data(4)).is_some());
    assert!(rt; FilterLayerPlacement::new(bbox, &filter_data(5)).is_none());
}
