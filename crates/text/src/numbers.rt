// Numbers in decimal digits.
ghost use Rattle.std.specs.Prelude.{◌≡◌, ◌∷◌, refl, IfErr, MatchResult, Some, None, if◌then◌else◌};
ghost use Rattle.text.specs.declared.reason.Reason.TheVariants.{NotANumber, NumberTooLarge};
ghost use Rattle.text.specs.Numbers.{numeral};
ghost use Rattle.text.specs.Readers.{Line, Read, byte_of, edge_of, count_of, ReadsNumerals};
ghost use Rattle.text.specs.Parses.{reads_parsed};

use crate::reason::Reason;
use std::num::ParseIntError;
use std::str::FromStr;

// A type of the numbers that words write.
pub trait Number: FromStr<Err = ParseIntError> + Copy {
    // What the word in front is read as, and the words that follow.
    ghost reader: { Line → Read Self };

    // It is what `parse` gives for a word in digits alone, and nothing for any other.
    ghost reads: { ReadsNumerals Self.from_str_gives reader };
}

impl Number for u8 {
    ghost reader = { byte_of };

    ghost reads = { reads_parsed 8 255 refl (λ bs r parsed. parsed.0) };
}

impl Number for u16 {
    ghost reader = { edge_of };

    ghost reads = { reads_parsed 16 65535 refl (λ bs r parsed. parsed.0) };
}

impl Number for u32 {
    ghost reader = { count_of };

    ghost reads = { reads_parsed 32 4294967295 refl (λ bs r parsed. parsed.0) };
}

// Whether the word is one digit or more, and nothing else.
fn is_numeral(word: &str) -> bool
    ensures { result ≡ numeral word.now }
{
    !word.is_empty() && word.bytes().all(|byte| byte.is_ascii_digit())
}

// The number that the word writes in digits alone, if its type has it. Leading zeros are allowed.
pub fn read_number<N: Number>(word: &str) -> Result<N, Reason>
    ensures value { (rest : Line) → MatchResult result (λ n. N.reader (word.now ∷ rest) ≡ Some (n, rest)) (λ _. N.reader (word.now ∷ rest) ≡ None) }
    ensures reason { IfErr result (λ e. e ≡ (if numeral word.now then NumberTooLarge else NotANumber)) }
{
    if !is_numeral(word) {
        return Err(Reason::NotANumber);
    }
    word.parse().map_err(|_| Reason::NumberTooLarge)
}
