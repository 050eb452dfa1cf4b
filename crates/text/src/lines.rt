// The lines of a script, as bytes.
ghost use Rattle.std.specs.Prelude.{◌≡◌, ◌+◌, ◌^◌, ◌<◌, [], ◌∷◌, length, MatchOption};
ghost use Rattle.std.specs.Str.Lines.{strip_carriage_return};
ghost use Rattle.text.specs.Lines.{lines_of};
ghost use Rattle.std.specs.Iterator.{at_most};

// A line without the LF or CR LF that ends it, and its number, counted from 1.
#[derive(Clone, Copy)]
pub struct TextLine<'a> {
    pub number: u64,
    pub bytes: &'a [u8],
}

// What is left of a script, and how many lines were taken from it. Lines are cut here and not by `str::lines`, which
// would have the whole script be text, where a fault names the first line that is not; and counted here, since a line
// and its number are named together in every fault.
#[derive(Clone, Copy)]
pub struct Lines<'a> {
    rest: &'a [u8],
    taken: u64,
    ghost fits: { taken + length rest.now < 2 ^ 64 },
}

impl<'a> Lines<'a> {
    pub fn new(bytes: &'a [u8]) -> Lines<'a>
        ensures { (result.rest.now ≡ bytes.now) × (result.taken ≡ 0) }
    {
        Lines {
            rest: bytes,
            taken: 0,
        }
    }
}

// A CR belongs to the line's end only where an LF follows it.
fn without_return(line: &[u8]) -> &[u8]
    ensures { result.now ≡ strip_carriage_return line.now }
{
    match line {
        [front @ .., b'\r'] => front,
        _ => line,
    }
}

// The first line of what is left of a script, and what follows it.
fn cut_line(bytes: &[u8]) -> (&[u8], &[u8])
    ensures lines { 0 < length bytes.now → lines_of bytes.now ≡ result.0.now ∷ lines_of result.1.now }
    ensures shorter { 0 < length bytes.now → length result.1.now < length bytes.now }
{
    match bytes.iter().position(|byte| *byte == b'\n') {
        Some(len) => (without_return(&bytes[..len]), &bytes[len + 1..]),
        None => (bytes, &[]),
    }
}

impl<'a> Iterator for Lines<'a> {
    type Item = TextLine<'a>;

    ghost remaining = { λ s. at_most (length s.rest.now) };

    ghost next_gives = { λ s r t. MatchOption r (lines_of s.rest.now ≡ []) (λ line. (lines_of s.rest.now ≡ line.bytes.now ∷ lines_of t.rest.now) × (line.number ≡ t.taken) × (t.taken ≡ s.taken + 1)) };

    fn next(&mut self) -> Option<TextLine<'a>> {
        if self.rest.is_empty() {
            return None;
        }
        let (bytes, rest) = cut_line(self.rest);
        self.rest = rest;
        self.taken += 1;
        Some(TextLine {
            number: self.taken,
            bytes,
        })
    }
}
