// What a memory is: any type with these three calls, a meaning, and two laws.
ghost use Rattle.std.specs.Prelude.{◌≡◌, ℕ, ◌<◌, ◌≢◌};
ghost use Rattle.memory.specs.declared.place.Kind.TheVariants.{Absent};
ghost use Rattle.memory.specs.declared.place.Place.{Place};
ghost use Rattle.memory.specs.Meaning.{Meaning, load_answer, store_answer, after_store};

use crate::place::{Kind, Place};
use crate::refusal::Fault;

pub trait Memory {
    // Kinds, words and owners as one value.
    ghost meaning: { Self → Meaning };

    // What may be done at a place; asking changes nothing.
    fn kind(&self, place: Place) -> Kind
        ensures value { result ≡ (meaning self.now).kind place };

    // The word at a place. A layer over a memory may note the call, so `self` is `&mut`; the meaning stays.
    fn load(&mut self, place: Place) -> Result<u32, Fault>
        ensures value { result ≡ load_answer (meaning self.old) place }
        ensures same { meaning self.new ≡ meaning self.old };

    // A place and its word are no type of their own: the pair would be made here and taken apart here.
    fn store(&mut self, place: Place, word: u32) -> Result<(), Fault>
        ensures value { result ≡ store_answer (meaning self.old) place word }
        ensures after { meaning self.new ≡ after_store (meaning self.old) place word };

    ghost words_fit: { (m : Self) (p : Place) → ((meaning m).kind p ≢ Absent) → (meaning m).word p < 0x1000000 };

    ghost high_addresses_are_absent: { (m : Self) (p : Place) → 0xFFFFFF < p.address → (meaning m).kind p ≡ Absent };
}
