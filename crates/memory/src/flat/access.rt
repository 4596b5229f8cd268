// A flat memory's places: which there are, and their words.
ghost use Rattle.std.specs.Prelude.{◌≡◌, ◌+◌, ◌<◌, vec_len, slice_set};
ghost use Rattle.memory.specs.Flat.{covers, start_of, flat_of, flat_meaning};
ghost use Rattle.std.proofs.Common.{rules};

use crate::flat::{Flat, FlatSizes};
use crate::interface::Memory;
use crate::place::{Kind, Owner, Place, Space};
use crate::refusal::{Fault, Refusal, may_store};

// The test and the index stand apart: a store has made the test by the kind.
impl FlatSizes {
    fn covers(self, place: Place) -> bool
        ensures value { result ≡ covers self place }
    {
        let size = match place.space {
            Space::X => self.x,
            Space::Y => self.y,
            Space::P => self.p,
        };
        place.address < size
    }

    // The index of the word of a place that is covered.
    fn index(self, place: Place) -> usize
        ensures value { result ≡ start_of self place.space + place.address }
    {
        let start = match place.space {
            Space::X => 0,
            Space::Y => self.x as usize,
            Space::P => self.x as usize + self.y as usize,
        };
        start + place.address as usize
    }
}

const OWNER: Owner = Owner {
    letter: 'F',
    depth: 0,
};

impl Flat {
    // Writes one number of the list.
    fn put(&mut self, at: usize, word: u32)
        requires { at < vec_len self.old.words }
        ensures after { flat_meaning self.new ≡ flat_of (slice_set self.old.words.items at word) self.old.sizes }
    {
        self.words[at] = word;
    }
}

impl Memory for Flat {
    ghost meaning = { flat_meaning };

    ghost words_fit = { Prim.search rules };

    ghost high_addresses_are_absent = { Prim.search rules };

    fn kind(&self, place: Place) -> Kind {
        if !self.sizes.covers(place) {
            return Kind::Absent;
        }
        match place.space {
            Space::P if place.address >= self.sizes.fixed_from => Kind::Fixed,
            _ => Kind::Plain,
        }
    }

    fn load(&mut self, place: Place) -> Result<u32, Fault> {
        if !self.sizes.covers(place) {
            return Err(OWNER.fault(Refusal::AbsentLoad, place));
        }
        let at = self.sizes.index(place);
        Ok(self.words[at] % 0x100_0000)
    }

    #[tactic(auto, using(crate::proofs::FlatStores::flat_store_leaves))]
    fn store(&mut self, place: Place, word: u32) -> Result<(), Fault> {
        may_store(self.kind(place), word).map_err(|cause| OWNER.fault(cause, place))?;
        let at = self.sizes.index(place);
        self.put(at, word);
        Ok(())
    }
}
