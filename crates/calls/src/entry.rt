// What one line of a script says.
ghost use Rattle.std.specs.Prelude.{◌≡◌, [], ◌∷◌, IsUtf8, MatchOption, MatchResult, ◌≢◌, slice_index};
ghost use Rattle.text.specs.Readers.{left, Reads, Told};
ghost use Rattle.text.specs.Words.{words_of};
ghost use Rattle.calls.specs.declared.entry.Entry.{Entry as EntryOf};
ghost use Rattle.calls.specs.Calls.{kind_of, SaysEntry, PassedOver, ReadsLine};
ghost use Rattle.calls.specs.Heads.{SaysHead};

use crate::call::{Call, read_call};
use crate::draw_line::{DrawLine, Kind};
use crate::head::Head;
use draws::strip::Strip;
use parts::shapes::read_strip;
use text::reason::Reason;
use text::words::Words;

#[derive(Drop)]
pub enum Entry<D> {
    Kind(Kind),
    Strip(Strip),
    Places(u32),
    Call(Call<D>),
}

// `fill` or `run`
pub fn read_kind(words: &mut Words<'_>) -> Result<Kind, Reason>
    ensures { Reads kind_of words.old result words.new }
{
    // A word that names no kind is not taken.
    let mut ahead = *words;
    let kind = ahead.next_word().ok_or(Reason::UnknownKind)?.parse()?;
    *words = ahead;
    Ok(kind)
}

// What a line says that begins with this head, and perhaps more words after it.
fn read_parts<D: DrawLine>(head: Head, words: &mut Words<'_>) -> Result<Entry<D>, Reason>
    ensures { Told (SaysHead D.Written head) words.old result words.new }
{
    match head {
        Head::Kind => Ok(Entry::Kind(read_kind(words)?)),
        Head::Strip => Ok(Entry::Strip(read_strip(words)?)),
        Head::Places => Ok(Entry::Places(words.number()?)),
        Head::Call(verb) => Ok(Entry::Call(read_call(verb, words)?)),
    }
}

// What all words of a line say, the first of which is `word`.
fn read_words<D: DrawLine>(word: &str, mut words: Words<'_>) -> Result<Entry<D>, Reason>
    ensures { MatchResult result (λ entry. SaysEntry D.Written word.now (left words.entry) entry []) (λ _. (e : EntryOf D) → SaysEntry D.Written word.now (left words.entry) e [] → ⊥) }
{
    let head: Head = word.parse()?;
    let entry = read_parts(head, &mut words)?;
    words.end()?;
    Ok(entry)
}

// The words of a line that says something: not of one without a word, nor of a comment.
pub fn words_of(bytes: &[u8]) -> Result<Option<(&str, Words<'_>)>, Reason>
    ensures { MatchResult result (λ line. IsUtf8 bytes.now × MatchOption line (PassedOver (words_of bytes.now)) (λ p. (words_of bytes.now ≡ p.0.now ∷ left p.1) × (slice_index p.0.now 0 ≢ 35))) (λ _. IsUtf8 bytes.now → ⊥) }
{
    let text = std::str::from_utf8(bytes).map_err(|_| Reason::NotText)?;
    let mut words = Words::new(text);
    match words.next_word() {
        Some(word) if !word.starts_with('#') => Ok(Some((word, words))),
        _ => Ok(None),
    }
}

// What a line says; nothing where it is passed over.
pub fn read_entry<D: DrawLine>(bytes: &[u8]) -> Result<Option<Entry<D>>, Reason>
    ensures { ReadsLine D.Written bytes.now result }
{
    let Some((word, words)) = words_of(bytes)? else {
        return Ok(None);
    };
    Ok(Some(read_words(word, words)?))
}
