// A sheet as its script gives it.
ghost use Rattle.std.specs.Prelude.{◌≡◌, true, false, MatchResult, OnOk};
ghost use Rattle.script.specs.Sheets.{view_of, start, allowed, added, draw_lines};

use calls::call::Call;
use calls::entry::Entry;
use draws::strip::Strip;
use std::alloc::{AllocError, Global};
use text::reason::Reason;

// A call and the number of its line, counted from 1.
#[derive(Drop)]
pub struct Line<D> {
    pub number: u32,
    pub call: Call<D>,
}

// No `Model`: all but one of its fields are public, and the program's contracts read them.
#[derive(Drop)]
pub struct Sheet<D> {
    pub strips: Vec<Strip>,
    // How many places the draw list has, where the script says so.
    pub places: Option<u32>,
    pub lines: Vec<Line<D>>,
    // Whether any line came before.
    begun: bool,
}

impl<D: Drop> Sheet<D> {
    pub(crate) fn new(heap: Global) -> Sheet<D>
        ensures { view_of result ≡ start }
    {
        Sheet {
            strips: Vec::new(heap),
            places: None,
            lines: Vec::new(heap),
            begun: false,
        }
    }

    // Whether an entry may come after those that came before it.
    pub(crate) fn allows(&self, entry: &Entry<D>) -> Result<(), Reason>
        ensures { MatchResult result (λ _. allowed (view_of self.now) entry.now ≡ true) (λ _. allowed (view_of self.now) entry.now ≡ false) }
    {
        match entry {
            Entry::Kind(_) if self.begun => Err(Reason::KindNotFirst),
            Entry::Strip(_) if !self.lines.is_empty() => Err(Reason::StripAfterCall),
            Entry::Places(_) if !self.lines.is_empty() => Err(Reason::PlacesAfterCall),
            Entry::Places(_) if self.places.is_some() => Err(Reason::PlacesTwice),
            _ => Ok(()),
        }
    }

    pub(crate) fn add(&mut self, number: u32, entry: Entry<D>) -> Result<(), AllocError>
        ensures { OnOk result (view_of self.new ≡ added (view_of self.old) number entry) }
    {
        self.begun = true;
        match entry {
            Entry::Kind(_) => {}
            Entry::Strip(strip) => self.strips.push(strip)?,
            Entry::Places(places) => self.places = Some(places),
            Entry::Call(call) => self.lines.push(Line { number, call })?,
        }
        Ok(())
    }
}

impl<D> Sheet<D> {
    // How many of the lines draw.
    pub fn draw_lines(&self) -> usize
        ensures { result ≡ draw_lines self.now.lines.items }
    {
        self.lines.iter().filter(|line| line.call.is_draw()).count()
    }
}
