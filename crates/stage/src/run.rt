// Makes the calls of a sheet, and prints a line for each.
ghost use Rattle.draws.specs.declared.tagged.Tagged.{Tagged};
ghost use Rattle.stage.specs.Calls.{recording_call, Makes};

use crate::answer::{Answer, Hit, Walk, Walked};
use crate::failure::Failure;
use crate::report::Report;
use crate::shown::Shown;
use crate::stage::Stage;
use calls::call::Call;
use calls::draw_line::DrawLine;
use draws::drawable::Drawable;
use draws::tagged::Tagged;
use refusal::Refusal;
use script::script::Script;
use script::sheet::{Line, Sheet};
use std::alloc::Global;
use std::fmt::Display;
use std::io;
use std::io::Write;

// Prints what a line's call answers, or its refusal, after the line's number.
fn print<T: Display + Drop, W: Write>(
    out: &mut W,
    line: u32,
    answer: Result<T, Refusal>,
) -> io::Result<()> {
    match answer {
        Ok(answer) => writeln!(out, "{line} {answer}"),
        Err(refusal) => {
            let refused = Shown(refusal);
            writeln!(out, "{line} {refused}")
        }
    }
}

// Makes a line's call, and prints what it answers. The design goes on by the recording call that the line says, and else it stays.
fn make<D: DrawLine, W: Write>(
    stage: &mut Stage<'_, D>,
    line: &Line<D>,
    out: &mut W,
) -> Result<(), Failure>
    ensures { Makes ⟦<Tagged<D> as Drawable>⟧.box_of ⟦<Tagged<D> as Drawable>⟧.mode_of (recording_call line.now) stage.old.design stage.new.design }
{
    let number = line.number;
    match &line.call {
        Call::Reset { width, height } => print(out, number, stage.reset(*width, *height))?,
        Call::Draw(Ok(draw)) => print(out, number, stage.draw(*draw, number))?,
        // There is no such draw, so that nothing is recorded.
        Call::Draw(Err(refusal)) => print::<Answer, W>(out, number, Err(*refusal))?,
        Call::Open { props, filter } => print(out, number, stage.open(*props, *filter))?,
        Call::Close => print(out, number, stage.close())?,
        Call::Walk { room } => {
            let walk = Walk::Full;
            let walked = stage.walk(*room)?;
            print(out, number, walked.map(|entries| Walked { walk, entries }))?;
        }
        Call::Tile {
            surface,
            tile,
            room,
        } => {
            let walk = Walk::Tile {
                surface: *surface,
                tile: *tile,
            };
            let walked = stage.tile(*surface, *tile, *room)?;
            print(out, number, walked.map(|entries| Walked { walk, entries }))?;
        }
        Call::Hit { tile } => {
            let tile = *tile;
            let hit = stage.hit(tile).map(|found| Hit { tile, found });
            print(out, number, hit)?;
        }
        Call::Report => {
            let recorder = stage.recorder();
            let report = Report {
                line: number,
                recorder,
            };
            writeln!(out, "{report}")?;
        }
    }
    Ok(())
}

// Makes the calls of a sheet one after another on a new recorder.
pub fn run_sheet<D: DrawLine, W: Write>(
    heap: Global,
    sheet: &Sheet<D>,
    out: &mut W,
) -> Result<(), Failure> {
    let mut stage = Stage::new(heap, sheet)?;
    for line in sheet.lines.iter() {
        make(&mut stage, line, out)?;
    }
    Ok(())
}

// Makes the calls of a script that was read. Every fault of a script is found when it is read, before its first call is made.
pub fn run_read<W: Write>(heap: Global, script: &Script, out: &mut W) -> Result<(), Failure> {
    match script {
        Script::Fills(sheet) => run_sheet(heap, sheet, out),
        Script::Runs(sheet) => run_sheet(heap, sheet, out),
    }
}
