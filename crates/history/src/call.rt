// The calls of a device, and what each is answered.
ghost use Rattle.std.specs.Prelude.{◌≡◌, MatchResult};
ghost use Rattle.history.specs.declared.call.Answer.TheVariants.{Done, Word, Raised, Refused, Fault};

use dma::masks::Masks;
use memory::place::Place;
use memory::refusal::{Fault, Refusal};
use registers::register::Register;

#[derive(Clone, Copy, PartialEq, Eq, Debug)]
pub enum Call {
    Set(Register, u32),
    Get(Register),
    // A request of a source.
    Raise(u8),
    // The service of a channel's interrupt, opened and closed.
    Begin(u8),
    Return(u8),
    Stop,
    Wake,
    Load(Place),
    Store(Place, u32),
}

#[derive(Clone, Copy, PartialEq, Eq, Debug)]
pub enum Answer {
    Done,
    Word(u32),
    Raised(Masks),
    // How many due words the stop lost.
    Stopped(u32),
    Refused(Refusal),
    Fault(Fault),
}

impl From<()> for Answer {
    ghost from_gives = { λ _ answer. answer ≡ Done };

    fn from(_done: ()) -> Answer {
        Answer::Done
    }
}

impl From<u32> for Answer {
    ghost from_gives = { λ word answer. answer ≡ Word word };

    fn from(word: u32) -> Answer {
        Answer::Word(word)
    }
}

impl From<Masks> for Answer {
    ghost from_gives = { λ masks answer. answer ≡ Raised masks };

    fn from(masks: Masks) -> Answer {
        Answer::Raised(masks)
    }
}

impl From<Refusal> for Answer {
    ghost from_gives = { λ refusal answer. answer ≡ Refused refusal };

    fn from(refusal: Refusal) -> Answer {
        Answer::Refused(refusal)
    }
}

impl From<Fault> for Answer {
    ghost from_gives = { λ fault answer. answer ≡ Fault fault };

    fn from(fault: Fault) -> Answer {
        Answer::Fault(fault)
    }
}

// What a call of the controller or of the memory gives, or why it is refused.
impl<T: Into<Answer>, E: Into<Answer>> From<Result<T, E>> for Answer {
    ghost from_gives = { λ outcome answer. MatchResult outcome (λ x. T.converts x answer) (λ e. E.converts e answer) };

    fn from(outcome: Result<T, E>) -> Answer {
        outcome.map_or_else(E::into, T::into)
    }
}
