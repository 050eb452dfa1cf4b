// What a line is about, by its first word.
ghost use Rattle.std.specs.Prelude.{◌≡◌};
ghost use Rattle.std.specs.Option.{ok_or};
ghost use Rattle.text.specs.declared.reason.Reason.TheVariants.{UnknownWord};
ghost use Rattle.calls.specs.Heads.{head_of};

use crate::draw_line::Kind;
use std::str::FromStr;
use text::reason::Reason;

// No word is that of a tile walk or a hit yet.
#[derive(Clone, Copy)]
pub enum Verb {
    Reset,
    Draw(Kind),
    Open,
    Close,
    Walk,
    Tile,
    Hit,
    Report,
}

#[derive(Clone, Copy)]
pub enum Head {
    Kind,
    Strip,
    Places,
    Call(Verb),
}

impl FromStr for Head {
    type Err = Reason;

    ghost from_str_gives = { λ word r. r ≡ ok_or (head_of word) UnknownWord };

    fn from_str(word: &str) -> Result<Head, Reason> {
        match word {
            "kind" => Ok(Head::Kind),
            "strip" => Ok(Head::Strip),
            "places" => Ok(Head::Places),
            "reset" => Ok(Head::Call(Verb::Reset)),
            "open" => Ok(Head::Call(Verb::Open)),
            "close" => Ok(Head::Call(Verb::Close)),
            "walk" => Ok(Head::Call(Verb::Walk)),
            "report" => Ok(Head::Call(Verb::Report)),
            _ => {
                // As the first word of a line it is not known.
                let kind = word.parse().map_err(|_| Reason::UnknownWord)?;
                Ok(Head::Call(Verb::Draw(kind)))
            }
        }
    }
}
