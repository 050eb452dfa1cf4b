// Every reason why a line of a script is faulty.
ghost use Rattle.std.specs.Prelude.{◌≡◌};
ghost use Rattle.text.specs.Sentences.{sentence_of};

use std::fmt;

#[derive(Clone, Copy, Debug, PartialEq, Eq)]
pub enum Reason {
    NotText,
    UnknownWord,
    SurplusWord,
    NumberMissing,
    NotANumber,
    NumberTooLarge,
    NotAnOpacity,
    PadMissing,
    SourceMissing,
    UnknownKind,
    UnknownSurface,
    KindNotFirst,
    StripAfterCall,
    PlacesAfterCall,
    PlacesTwice,
    FillAmongRuns,
    RunAmongFills,
    TooManyLines,
}

impl Reason {
    // The reason in plain words.
    pub fn sentence(self) -> &'static str
        ensures { result.now ≡ sentence_of self }
    {
        match self {
            Reason::NotText => "the line is not UTF-8 text",
            Reason::UnknownWord => "the first word is not known",
            Reason::SurplusWord => "a word is surplus or out of its place",
            Reason::NumberMissing => "a number is missing",
            Reason::NotANumber => "a number is not written in decimal digits alone",
            Reason::NumberTooLarge => "a number is too large for its place",
            Reason::NotAnOpacity => "the opacity is not a number",
            Reason::PadMissing => "the filter's padding is missing",
            Reason::SourceMissing => "the filter's source padding is missing",
            Reason::UnknownKind => "the kind is neither fill nor run",
            Reason::UnknownSurface => "the surface is neither scene nor the number of a layer",
            Reason::KindNotFirst => "the kind stands once and before every other line",
            Reason::StripAfterCall => "a strip stands before the first call",
            Reason::PlacesAfterCall => "the number of places stands before the first call",
            Reason::PlacesTwice => "the number of places stands once",
            Reason::FillAmongRuns => "this is a sheet of runs and has no fill",
            Reason::RunAmongFills => "this is a sheet of fills and has no run",
            Reason::TooManyLines => "no line has a number above 4294967295",
        }
    }
}

impl fmt::Display for Reason {
    fn fmt<W: fmt::Write>(&self, f: &mut fmt::Formatter<W>) -> fmt::Result {
        f.write_str(self.sentence())
    }
}
