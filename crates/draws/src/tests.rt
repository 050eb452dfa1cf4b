// The boundaries of what can be drawn, and the boxes of draws, worked out by hand.
use crate::blend::BlendMode;
use crate::drawable::Drawable;
use crate::fill::Fill;
use crate::run::Run;
use crate::strip::Strip;
use crate::tagged::Tagged;
use geometry::rect::RectU16;
use std::test::Fail;

// The number of the refusal of a fill, or 0 where it is accepted.
fn refused(rect: RectU16) -> u32 {
    match Fill::new(rect, None) {
        Ok(_) => 0,
        Err(refusal) => refusal.number(),
    }
}

#[test]
fn fills_end_at_the_last_tile(rt: HostRuntime) {
    assert_eq!(rt; refused(RectU16::new(0, 0, 65_532, 4)), 0);
    assert_eq!(rt; refused(RectU16::new(0, 0, 65_533, 4)), 1);
    assert_eq!(rt; refused(RectU16::new(0, 0, 4, 65_532)), 0);
    assert_eq!(rt; refused(RectU16::new(0, 0, 4, 65_533)), 1);
    // Empty, so its large edges do no harm.
    assert_eq!(rt; refused(RectU16::new(65_535, 0, 65_535, 65_535)), 0);
}

#[test]
fn a_tag_passes_on_the_draw(rt: HostRuntime) -> Result<(), Fail> {
    let mode = BlendMode { mix: 1, compose: 3 };
    let draw = Fill::new(RectU16::new(1, 5, 6, 7), Some(mode))?;
    assert_eq!(rt; draw.rect(), RectU16::new(1, 5, 6, 7));
    assert_eq!(rt; draw.bbox(&[]), Some(RectU16::new(0, 4, 8, 8)));
    let tagged = Tagged { draw, line: 12 };
    assert_eq!(rt; tagged.bbox(&[]), Some(RectU16::new(0, 4, 8, 8)));
    assert_eq!(rt; tagged.blend_mode(), Some(mode));
    Ok(())
}

#[test]
fn the_default_mode(rt: HostRuntime) {
    assert_eq!(rt; BlendMode::DEFAULT, BlendMode { mix: 0, compose: 3 });
    assert!(rt; BlendMode::DEFAULT.is_default());
    assert!(rt; !BlendMode { mix: 0, compose: 2 }.is_default());
    assert!(rt; !BlendMode { mix: 1, compose: 3 }.is_default());
}

// The box of the strips from `start` up to `end` of a list of six.
fn run_box(start: u32, end: u32) -> Option<RectU16> {
    let strips = [
        Strip {
            x: 4,
            y: 8,
            width: 5,
        },
        // No width; a high edge at 65,533 to the right; one at 65,533 below.
        Strip {
            x: 20,
            y: 0,
            width: 0,
        },
        Strip {
            x: 65_528,
            y: 0,
            width: 5,
        },
        Strip {
            x: 0,
            y: 65_529,
            width: 1,
        },
        // The high edges at 65,532.
        Strip {
            x: 65_528,
            y: 0,
            width: 4,
        },
        Strip {
            x: 0,
            y: 65_528,
            width: 1,
        },
    ];
    Run { start, end }.bbox(&strips)
}

#[test]
fn strips_that_count(rt: HostRuntime) {
    assert_eq!(rt; run_box(0, 1), Some(RectU16::new(4, 8, 12, 12)));
    assert_eq!(rt; run_box(1, 4), None);
    assert_eq!(rt; run_box(0, 4), Some(RectU16::new(4, 8, 12, 12)));
    assert_eq!(rt; run_box(4, 5), Some(RectU16::new(65_528, 0, 65_532, 4)));
    assert_eq!(rt; run_box(5, 6), Some(RectU16::new(0, 65_528, 4, 65_532)));
}

#[test]
fn runs_are_cut_at_the_end_of_the_list(rt: HostRuntime) {
    assert_eq!(rt; run_box(0, 0), None);
    assert_eq!(rt; run_box(5, 4), None);
    assert_eq!(rt; run_box(5, 7), Some(RectU16::new(0, 65_528, 4, 65_532)));
    assert_eq!(rt;
        run_box(0, 4_294_967_295),
        Some(RectU16::new(0, 0, 65_532, 65_532))
    );
    assert_eq!(rt; run_box(6, 7), None);
    assert_eq!(rt; Run { start: 0, end: 6 }.blend_mode(), None);
}
