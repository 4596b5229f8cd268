// Why a call is refused, and what a memory tells about its refusal.
ghost use Rattle.std.specs.Prelude.{◌≡◌};
ghost use Rattle.memory.specs.Meaning.{fault_of, may_store};
ghost use Rattle.memory.specs.Refusals.{number};

use crate::place::{Kind, Owner, Place};

// Every refusal has a number, by which consoles and their engineers know it.
#[derive(Clone, Copy, PartialEq, Eq, Debug)]
pub enum Refusal {
    NoSuchRegister = 1,
    ValueTooLarge = 2,
    StatusIsRead = 3,
    Busy = 4,
    ReservedMode = 5,
    ReservedShape = 6,
    ReservedSpace = 7,
    ShapeInMidBlock = 8,
    NoSuchSource = 9,
    NoInterrupt = 10,
    InService = 11,
    NoService = 12,
    AbsentLoad = 13,
    AbsentStore = 14,
    FixedStore = 15,
    NoForm = 16,
    NotNow = 17,
    UnfitSizes = 18,
}

impl From<Refusal> for u8 {
    ghost from_gives = { λ refusal n. n ≡ number refusal };

    fn from(refusal: Refusal) -> u8 {
        refusal as u8
    }
}

// A memory's refusal: the cause, the place that was asked for and its owner.
#[derive(Clone, Copy, PartialEq, Eq, Debug)]
pub struct Fault {
    pub cause: Refusal,
    pub place: Place,
    pub owner: Owner,
}

impl Owner {
    // A refusal by the memory of this owner.
    pub fn fault(self, cause: Refusal, place: Place) -> Fault
        ensures value { result ≡ fault_of self cause place }
    {
        Fault {
            cause,
            place,
            owner: self,
        }
    }
}

// Whether a word can be stored at a place of this kind; a word that is too large is refused whatever the place is.
pub fn may_store(kind: Kind, word: u32) -> Result<(), Refusal>
    ensures value { result ≡ may_store kind word }
{
    if word > 0xFF_FFFF {
        return Err(Refusal::ValueTooLarge);
    }
    match kind {
        Kind::Absent => Err(Refusal::AbsentStore),
        Kind::Fixed => Err(Refusal::FixedStore),
        Kind::Plain => Ok(()),
    }
}
