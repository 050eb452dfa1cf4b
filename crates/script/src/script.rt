// A script as a whole.
ghost use Rattle.std.specs.Prelude.{◌≡◌, ◌^◌, ◌<◌, true, IsUtf8, MatchOption, MatchResult};
ghost use Rattle.text.specs.Lines.{lines_of};
ghost use Rattle.text.specs.Words.{words_of};
ghost use Rattle.calls.specs.Calls.{PassedOver, SaysAll};
ghost use Rattle.script.specs.Readings.{LineLeads, LineFaulty, Leads, StopsAt, Stopped, head_kind, GivesKind, Whole, Failed};
ghost use Rattle.script.specs.Sheets.{view_of, start, allowed};

use crate::fault::{Fault, Unread};
use crate::sheet::Sheet;
use calls::draw_line::{DrawLine, Kind};
use calls::entry::{Entry, read_entry, read_kind, words_of};
use draws::fill::Fill;
use draws::run::Run;
use std::alloc::Global;
use text::lines::{Lines, TextLine};
use text::reason::Reason;

// A sheet holds draws of one kind.
#[derive(Drop)]
pub enum Script {
    Fills(Sheet<Fill>),
    Runs(Sheet<Run>),
}

// The kind that a sheet has by its first line that is not passed over; nothing where this one is.
fn line_kind(bytes: &[u8]) -> Option<Kind>
    ensures { MatchOption result (PassedOver (words_of bytes.now)) (λ kind. IsUtf8 bytes.now → kind ≡ head_kind (words_of bytes.now)) }
{
    match words_of(bytes) {
        Ok(None) => None,
        Ok(Some(("kind", mut words))) => Some(read_kind(&mut words).unwrap_or(Kind::Fill)),
        _ => Some(Kind::Fill),
    }
}

// Fills where no line is left that is not passed over.
fn sheet_kind(bytes: &[u8]) -> Kind
    ensures { GivesKind (lines_of bytes.now) result }
{
    Lines::new(bytes)
        .find_map(|line| line_kind(line.bytes))
        .unwrap_or(Kind::Fill)
}

// What a line says, if the lines before it allow that, and its number.
fn checked_entry<D: DrawLine>(
    sheet: &Sheet<D>,
    line: TextLine<'_>,
) -> Result<Option<(u32, Entry<D>)>, Reason>
    ensures { MatchResult result (λ said. IsUtf8 line.entry.bytes.now × MatchOption said (PassedOver (words_of line.entry.bytes.now)) (λ p. (p.0 ≡ line.entry.number) × SaysAll D.Written (words_of line.entry.bytes.now) p.1 × (allowed (view_of sheet.now) p.1 ≡ true) × (line.entry.number < 2 ^ 32))) (λ _. LineFaulty D.Written (view_of sheet.now) line.entry.number line.entry.bytes.now) }
{
    let Some(entry) = read_entry(line.bytes)? else {
        return Ok(None);
    };
    sheet.allows(&entry)?;
    let number = u32::try_from(line.number).map_err(|_| Reason::TooManyLines)?;
    Ok(Some((number, entry)))
}

// Adds what a line says to the sheet.
fn read_line<D: DrawLine>(sheet: &mut Sheet<D>, line: TextLine<'_>) -> Result<(), Unread>
    ensures { MatchResult result (λ _. LineLeads D.Written (view_of sheet.old) line.entry.number line.entry.bytes.now (view_of sheet.new)) (λ unread. StopsAt D.Written (view_of sheet.old) line.entry.number line.entry.bytes.now unread) }
{
    let faulty = |reason| {
        Unread::Faulty(Fault {
            line: line.number,
            reason,
        })
    };
    if let Some((number, entry)) = checked_entry(sheet, line).map_err(faulty)? {
        sheet.add(number, entry)?;
    }
    Ok(())
}

// The sheet as its lines give it, one after another.
fn read_sheet<D: DrawLine>(heap: Global, bytes: &[u8]) -> Result<Sheet<D>, Unread>
    ensures { MatchResult result (λ sheet. Leads D.Written start 0 (lines_of bytes.now) (view_of sheet)) (λ unread. Stopped D.Written (lines_of bytes.now) unread) }
{
    let mut sheet = Sheet::new(heap);
    for line in Lines::new(bytes) {
        read_line(&mut sheet, line)?;
    }
    Ok(sheet)
}

// The sheet that the script asks for, or the first line that is faulty. Each line is read once, but for those before
// the first that has a meaning, which are looked at for the kind of the sheet as well.
pub fn read_script(heap: Global, bytes: &[u8]) -> Result<Script, Unread>
    ensures { MatchResult result (λ script. Whole (lines_of bytes.now) script) (λ unread. Failed (lines_of bytes.now) unread) }
{
    match sheet_kind(bytes) {
        Kind::Fill => Ok(Script::Fills(read_sheet(heap, bytes)?)),
        Kind::Run => Ok(Script::Runs(read_sheet(heap, bytes)?)),
    }
}
