// Cutting a script into lines, each ended by a line feed but perhaps the last.
ghost use Rattle.std.specs.Prelude.{◌≡◌, ◌<◌, [], ◌∷◌, length, IfSome, MatchOption, ◌==◌, position};
ghost use Rattle.std.specs.Iterator.{YieldsFirstRef, item_count};
ghost use Rattle.script.specs.Lines.{lines, lines_left};

const LINE_FEED: u8 = b'\n';

// The lines of an input that are still to come. An iterator of our own, round `next_line`: the pieces of `split_inclusive` keep their feeds.
#[derive(Drop)]
pub struct Lines<'a> {
    rest: &'a [u8],
}

impl<'a> Lines<'a> {
    pub fn new(input: &'a [u8]) -> Lines<'a>
        ensures value { lines_left result ≡ lines input.now }
    {
        Lines { rest: input }
    }
}

impl<'a> Iterator for Lines<'a> {
    type Item = &'a [u8];

    ghost next_gives = { YieldsFirstRef lines_left };

    ghost remaining = { item_count lines_left };

    fn next(&mut self) -> Option<&'a [u8]> {
        let (line, rest) = next_line(self.rest)?;
        self.rest = rest;
        Some(line)
    }
}

// Where the first line feed is.
fn end_of_line(input: &[u8]) -> Option<usize>
    ensures value { result ≡ position (λ b. b == 10) input.now }
{
    input.iter().position(|byte| *byte == LINE_FEED)
}

// The first line without its line feed, and what follows it; nothing where there is no line.
#[tactic(auto, using(crate::proofs::Cutting::cuts))]
pub fn next_line(input: &[u8]) -> Option<(&[u8], &[u8])>
    ensures value { MatchOption result (lines input.now ≡ []) (λ p. lines input.now ≡ p.0.now ∷ lines p.1.now) }
    ensures shorter { IfSome result (λ p. length p.1.now < length input.now) }
{
    if input.is_empty() {
        return None;
    }
    match end_of_line(input) {
        Some(end) => Some((&input[..end], &input[end + 1..])),
        None => Some((input, b"")),
    }
}
