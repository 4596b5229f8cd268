// Two memories side by side: addresses below the border go to the first, the others to the second.
ghost use Rattle.std.specs.Prelude.{◌≡◌, nat_lt};
ghost use Rattle.memory.specs.Border.{deeper, deeper_fault, border_of};
ghost use Rattle.std.proofs.Common.{rules};

use crate::interface::Memory;
use crate::place::{Kind, Owner, Place};
use crate::refusal::Fault;

#[derive(Drop)]
pub struct Border<Low, High> {
    pub low: Low,
    pub high: High,
    pub border: u32,
}

impl<Low, High> Border<Low, High> {
    // Whether the first memory answers for the place.
    fn is_low(&self, place: Place) -> bool
        ensures value { result ≡ nat_lt place.address self.now.border }
    {
        place.address < self.border
    }
}

impl Owner {
    // The owner as it is seen over one border more; a depth of 255 stays.
    pub fn deeper(self) -> Owner
        ensures value { result ≡ deeper self }
    {
        Owner {
            depth: self.depth.saturating_add(1),
            ..self
        }
    }
}

impl Fault {
    // The refusal as it is seen over one border more.
    pub fn deeper(self) -> Fault
        ensures value { result ≡ deeper_fault self }
    {
        Fault {
            owner: self.owner.deeper(),
            ..self
        }
    }
}

impl<Low: Memory, High: Memory> Memory for Border<Low, High> {
    ghost meaning = { λ m. border_of m.border (Low.Memory.meaning m.low) (High.Memory.meaning m.high) };

    ghost words_fit = { Prim.search rules };

    ghost high_addresses_are_absent = { Prim.search rules };

    fn kind(&self, place: Place) -> Kind {
        if self.is_low(place) {
            self.low.kind(place)
        } else {
            self.high.kind(place)
        }
    }

    fn load(&mut self, place: Place) -> Result<u32, Fault> {
        let answer = if self.is_low(place) {
            self.low.load(place)
        } else {
            self.high.load(place)
        };
        answer.map_err(Fault::deeper)
    }

    fn store(&mut self, place: Place, word: u32) -> Result<(), Fault> {
        let answer = if self.is_low(place) {
            self.low.store(place, word)
        } else {
            self.high.store(place, word)
        };
        answer.map_err(Fault::deeper)
    }
}
