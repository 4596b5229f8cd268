// A word as six hexadecimal digits, with capital letters.
ghost use Rattle.std.specs.Prelude.{◌≡◌, Some};
ghost use Rattle.forms.specs.Numerals.{hexadecimal};

use std::fmt;

// How many words there are: of a greater number the listing has the lowest 24 bits.
const WORDS: u32 = 0x100_0000;

#[derive(Clone, Copy)]
pub struct Hexadecimal {
    value: u32,
}

impl Hexadecimal {
    pub fn word(value: u32) -> Hexadecimal
        ensures digits { hexadecimal 6 result.value ≡ hexadecimal 6 value }
    {
        Hexadecimal { value }
    }
}

impl fmt::Display for Hexadecimal {
    ghost output = { λ h. Some (hexadecimal 6 h.value) };

    #[tactic(auto, using(crate::proofs::Digits::six_shown))]
    fn fmt<W: fmt::Write>(&self, f: &mut fmt::Formatter<W>) -> fmt::Result {
        let word = self.value % WORDS;
        write!(f, "{word:06X}")
    }
}
