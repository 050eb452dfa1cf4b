// The kinds of draw, as a script writes them.
ghost use Rattle.std.specs.Prelude.{◌≡◌};
ghost use Rattle.std.proofs.Common.{inl, inr};
ghost use Rattle.std.specs.Option.{ok_or};
ghost use Rattle.text.specs.declared.reason.Reason.TheVariants.{UnknownKind};
ghost use Rattle.text.specs.Readers.{Told};
ghost use Rattle.calls.specs.Calls.{Draws, Begins, FillWords, RunWords, named, kinds};
ghost use Rattle.calls.specs.Heads.{kind_word};

use draws::drawable::Drawable;
use draws::fill::Fill;
use draws::run::Run;
use geometry::rect::RectU16;
use parts::mode::read_mode;
use parts::shapes::read_rect;
use refusal::Refusal;
use std::str::FromStr;
use text::reason::Reason;
use text::words::Words;

// A sheet holds draws of one kind.
#[derive(Clone, Copy)]
pub enum Kind {
    Fill,
    Run,
}

impl Kind {
    // The first word of a line that draws.
    pub fn word(self) -> &'static str
        ensures { result.now ≡ kind_word self }
    {
        match self {
            Kind::Fill => "fill",
            Kind::Run => "run",
        }
    }
}

// The kind whose lines begin with this word. A head that is none of its own is read by it.
impl FromStr for Kind {
    type Err = Reason;

    ghost from_str_gives = { λ word r. r ≡ ok_or (named kinds word) UnknownKind };

    fn from_str(word: &str) -> Result<Kind, Reason> {
        match word {
            "fill" => Ok(Kind::Fill),
            "run" => Ok(Kind::Run),
            _ => Err(Reason::UnknownKind),
        }
    }
}

// A draw that a line of a script can write.
pub trait DrawLine: Drawable + Clone + Copy {
    // What stands in a draw list where no draw is recorded yet. No `Default`: it fills a place, and is nobody's default draw.
    fn blank() -> Self;

    // The first word of a line and the words after it, the draw that they say, and the words that are left.
    ghost Written: { Draws Self };

    // The draw of a line that begins with `word`, or why there is no such draw.
    // A line that begins with the word of another kind is faulty.
    // By its word and not its kind, since what is said is a relation of the word.
    fn read(word: &str, words: &mut Words<'_>) -> Result<Result<Self, Refusal>, Reason>
        ensures { Told (Written word.now) words.old result words.new };

    // A line that begins with any other word says no draw.
    ghost begins: { Begins Written };
}

impl DrawLine for Fill {
    ghost Written = { FillWords };

    ghost begins = { λ word before draw after says. inl says.0 };

    fn blank() -> Fill {
        Fill::new(RectU16::ZERO, None).unwrap()
    }

    fn read(word: &str, words: &mut Words<'_>) -> Result<Result<Fill, Refusal>, Reason> {
        if word != "fill" {
            return Err(Reason::RunAmongFills);
        }
        let rect = read_rect(words)?;
        let mode = read_mode(words)?;
        Ok(Fill::new(rect, mode))
    }
}

impl DrawLine for Run {
    ghost Written = { RunWords };

    ghost begins = { λ word before draw after says. inr says.0 };

    fn blank() -> Run {
        Run { start: 0, end: 0 }
    }

    fn read(word: &str, words: &mut Words<'_>) -> Result<Result<Run, Refusal>, Reason> {
        if word != "run" {
            return Err(Reason::FillAmongRuns);
        }
        let (start, end) = words.pair()?;
        Ok(Ok(Run { start, end }))
    }
}
