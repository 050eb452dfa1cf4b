// Faults and the edges of what is no fault.
use script::fault::{Fault, Unread};
use script::script::{Script, read_script};
use std::alloc::Global;
use std::process::Abort;
use std::test::Fail;
use text::reason::Reason;

#[derive(Clone, Copy)]
struct Case {
    text: &'static str,
    line: u64,
    reason: Reason,
}

const fn faulty(text: &'static str, line: u64, reason: Reason) -> Case {
    Case { text, line, reason }
}

fn fault_of(heap: Global, script: &[u8]) -> Option<Fault> {
    match read_script(heap, script) {
        Err(Unread::Faulty(fault)) => Some(fault),
        _ => None,
    }
}

fn check_faults(rt: &impl Abort, heap: Global, cases: &[Case]) {
    for case in cases {
        let fault = Fault {
            line: case.line,
            reason: case.reason,
        };
        assert_eq!(rt;
            fault_of(heap, case.text.as_bytes()),
            Some(fault),
            "{}",
            case.text
        );
    }
}

#[test]
fn faulty_words(rt: HostRuntime) {
    check_faults(
        &rt,
        rt.alloc(),
        &[
            faulty("# no\n\nshut\n", 3, Reason::UnknownWord),
            faulty("close\r", 1, Reason::UnknownWord),
            faulty("close now\n", 1, Reason::SurplusWord),
            faulty("open opacity 1 mode 0 3\n", 1, Reason::SurplusWord),
            faulty("open opacity x\n", 1, Reason::NotAnOpacity),
            faulty("open filter 1 source 0 0 0 0\n", 1, Reason::PadMissing),
            faulty("open filter 1 pad 0 0 0 0\n", 1, Reason::SourceMissing),
            faulty("kind\n", 1, Reason::UnknownKind),
        ],
    );
}

#[test]
fn faulty_numbers(rt: HostRuntime) {
    check_faults(
        &rt,
        rt.alloc(),
        &[
            faulty("reset 1\n", 1, Reason::NumberMissing),
            faulty("reset +1 1\n", 1, Reason::NotANumber),
            faulty("reset 65535 65536\n", 1, Reason::NumberTooLarge),
            faulty("fill 0 0 1 1 mode 255 256\n", 1, Reason::NumberTooLarge),
            faulty("walk room 4294967296\n", 1, Reason::NumberTooLarge),
        ],
    );
}

#[test]
fn faulty_order(rt: HostRuntime) {
    check_faults(
        &rt,
        rt.alloc(),
        &[
            faulty("kind fill\nkind fill\n", 2, Reason::KindNotFirst),
            faulty("places 1\nkind run\n", 2, Reason::KindNotFirst),
            faulty("report\nstrip 0 0 4\n", 2, Reason::StripAfterCall),
            faulty("walk\nplaces 1\n", 2, Reason::PlacesAfterCall),
            faulty("places 1\nplaces 1\n", 2, Reason::PlacesTwice),
            faulty("kind run\nfill 0 0 1 1\n", 2, Reason::FillAmongRuns),
            faulty("run 0 1\n", 1, Reason::RunAmongFills),
        ],
    );
}

#[test]
fn faulty_text(rt: HostRuntime) {
    let heap = rt.alloc();
    let not_text = Reason::NotText;
    assert_eq!(rt;
        fault_of(heap, b"close\n# \xff\nshut\n"),
        Some(Fault {
            line: 2,
            reason: not_text,
        })
    );
    assert_eq!(rt;
        fault_of(heap, b"shut\n\xff\n"),
        Some(Fault {
            line: 1,
            reason: Reason::UnknownWord,
        })
    );
}

#[test]
fn no_faults(rt: HostRuntime) {
    let texts = [
        "",
        "\t# nothing\r\n \n",
        "reset 65535 065535\r\n \tclose\t\nreport",
        "kind run\nstrip 0 0 65535\nplaces 4294967295\nrun 0 4294967295\n",
        "open mode 255 255 opacity NaN mask 1 clip 0 0 4 4 path 1 2 255 filter 1 pad 1 2 3 4 source 4 4 0 0\n",
    ];
    for text in texts {
        assert_eq!(rt; fault_of(rt.alloc(), text.as_bytes()), None, "{}", text);
    }
}

#[test]
fn a_sheet_of_runs(rt: HostRuntime) -> Result<(), Fail> {
    let script = read_script(
        rt.alloc(),
        b"# strips\nkind run\nstrip 0 0 4\nrun 0 1\nwalk\nrun 0 0\n",
    );
    let Ok(Script::Runs(sheet)) = script else {
        return Err(Fail::new("no sheet of runs"));
    };
    assert_eq!(rt; sheet.strips.len(), 1);
    assert_eq!(rt; sheet.lines.len(), 3);
    assert_eq!(rt; sheet.draw_lines(), 2);
    Ok(())
}
