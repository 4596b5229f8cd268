// A packed memory's places: which there are, and their words.
ghost use Rattle.std.specs.Prelude.{◌≡◌, ◌+◌, ◌<◌, vec_len};
ghost use Rattle.memory.specs.Packed.{holds_word, with_bytes, packed_of, packed_meaning};
ghost use Rattle.std.proofs.Common.{rules};

use crate::interface::Memory;
use crate::packed::{Packed, PackedSizes};
use crate::place::{Kind, Owner, Place};
use crate::refusal::{Fault, Refusal, may_store};

const OWNER: Owner = Owner {
    letter: 'B',
    depth: 0,
};

// The test and the index stand apart: a store has made the test by the kind.
impl PackedSizes {
    fn holds_word(self, place: Place) -> bool
        ensures value { result ≡ holds_word self place }
    {
        if place.space != self.space || place.address < self.base {
            return false;
        }
        let offset = place.address - self.base;
        offset % 3 == 0 && offset / 3 < self.count
    }
}

impl Packed {
    // Writes three bytes of the list, the lowest first.
    fn put(&mut self, at: usize, word: u32)
        requires { at + 2 < vec_len self.old.bytes }
        ensures after { packed_meaning self.new ≡ packed_of (with_bytes self.old.bytes.items at word) self.old.sizes }
    {
        let [low, middle, high, _] = word.to_le_bytes();
        self.bytes[at] = low;
        self.bytes[at + 1] = middle;
        self.bytes[at + 2] = high;
    }
}

impl Memory for Packed {
    ghost meaning = { packed_meaning };

    ghost words_fit = { Prim.search rules };

    ghost high_addresses_are_absent = { Prim.search rules };

    fn kind(&self, place: Place) -> Kind {
        if self.sizes.holds_word(place) {
            Kind::Plain
        } else {
            Kind::Absent
        }
    }

    fn load(&mut self, place: Place) -> Result<u32, Fault> {
        if !self.sizes.holds_word(place) {
            return Err(OWNER.fault(Refusal::AbsentLoad, place));
        }
        let at = (place.address - self.sizes.base) as usize;
        Ok(u32::from_le_bytes([self.bytes[at], self.bytes[at + 1], self.bytes[at + 2], 0]))
    }

    #[tactic(auto, using(crate::proofs::PackedStores::packed_store_leaves))]
    fn store(&mut self, place: Place, word: u32) -> Result<(), Fault> {
        may_store(self.kind(place), word).map_err(|cause| OWNER.fault(cause, place))?;
        let at = (place.address - self.sizes.base) as usize;
        self.put(at, word);
        Ok(())
    }
}
