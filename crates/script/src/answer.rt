// What a line is answered, and how the answer is written in the listing.
ghost use Rattle.std.specs.Prelude.{◌≡◌, Some};
ghost use Rattle.std.specs.Char.{encode_utf8};
ghost use Rattle.forms.specs.Spelling.{letter, spelled_place};
ghost use Rattle.script.specs.Written.{tells_place, written_fault, written};

use crate::hexadecimal::Hexadecimal;
use memory::place::{Place, Space};
use memory::refusal::{Fault, Refusal};
use std::fmt;

#[derive(Clone, Copy, PartialEq, Debug)]
pub enum Answer {
    // A store was carried out.
    Done,
    // The word that was loaded.
    Word(u32),
    // What the memory refused.
    Fault(Fault),
    // The line is no form, or one that no call serves.
    NoForm,
}

// An answer with the number of the line that it answers, counted from 1.
#[derive(Clone, Copy)]
pub struct Numbered {
    pub line: usize,
    pub answer: Answer,
}

// A place as scripts spell it.
#[derive(Clone, Copy)]
struct Spelled(Place);

// A memory's refusal of the line with that number.
#[derive(Clone, Copy)]
struct Refused {
    line: usize,
    fault: Fault,
}

// No `From`: neither `char` nor `Space` is a type of this crate.
fn letter_of(space: Space) -> char
    ensures { encode_utf8 result ≡ letter space }
{
    match space {
        Space::X => 'x',
        Space::Y => 'y',
        Space::P => 'p',
    }
}

// Whether the place that was asked for is told with the refusal.
fn tells_place(cause: Refusal) -> bool
    ensures { result ≡ tells_place cause }
{
    matches!(
        cause,
        Refusal::AbsentLoad | Refusal::AbsentStore | Refusal::FixedStore
    )
}

impl fmt::Display for Spelled {
    ghost output = { λ s. Some (spelled_place s.0) };

    fn fmt<W: fmt::Write>(&self, f: &mut fmt::Formatter<W>) -> fmt::Result {
        let space = letter_of(self.0.space);
        let address = Hexadecimal::word(self.0.address);
        write!(f, "({space} {address})")
    }
}

impl fmt::Display for Refused {
    ghost output = { λ r. Some (written_fault r.line r.fault) };

    fn fmt<W: fmt::Write>(&self, f: &mut fmt::Formatter<W>) -> fmt::Result {
        let line = self.line;
        let number = u8::from(self.fault.cause);
        if tells_place(self.fault.cause) {
            let place = Spelled(self.fault.place);
            let owner = self.fault.owner.letter;
            let depth = self.fault.owner.depth;
            write!(f, "(refused {number} at {line} {place} {owner} {depth})")
        } else {
            write!(f, "(refused {number} at {line})")
        }
    }
}

impl fmt::Display for Numbered {
    ghost output = { λ n. Some (written n.line n.answer) };

    fn fmt<W: fmt::Write>(&self, f: &mut fmt::Formatter<W>) -> fmt::Result {
        let line = self.line;
        match self.answer {
            Answer::Done => write!(f, "(ok)"),
            Answer::Word(value) => {
                let word = Hexadecimal::word(value);
                write!(f, "(word {word})")
            }
            Answer::Fault(fault) => {
                let refused = Refused { line, fault };
                write!(f, "{refused}")
            }
            Answer::NoForm => {
                let number = u8::from(Refusal::NoForm);
                write!(f, "(refused {number} at {line})")
            }
        }
    }
}
