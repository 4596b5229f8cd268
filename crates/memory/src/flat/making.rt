// Checking the sizes of a flat memory, and making one.
ghost use Rattle.std.specs.Prelude.{◌≡◌, length};
ghost use Rattle.memory.specs.Flat.{flat_check, made_flat, flat_meaning};

use crate::flat::{Flat, FlatSizes};
use crate::refusal::Refusal;

// The most words that a space can have.
const LARGEST: u32 = 65_536;

impl FlatSizes {
    // Whether a flat memory of these sizes can lie over the list.
    pub fn check(self, words: &[u32]) -> Result<(), Refusal>
        ensures value { result ≡ flat_check self (length words.now) }
    {
        if self.x > LARGEST || self.y > LARGEST || self.p > LARGEST {
            return Err(Refusal::UnfitSizes);
        }
        let sum = self.x as usize + self.y as usize + self.p as usize;
        if self.fixed_from > self.p || words.len() != sum {
            return Err(Refusal::UnfitSizes);
        }
        Ok(())
    }
}

impl Flat {
    // The memory of these sizes over the list, or one that is absent everywhere where `check` refuses them.
    pub fn new(words: Vec<u32>, sizes: FlatSizes) -> Flat
        ensures meaning { flat_meaning result ≡ made_flat sizes words.items }
    {
        match sizes.check(&words) {
            Ok(()) => Flat { words, sizes },
            Err(_) => Flat {
                words,
                sizes: FlatSizes {
                    x: 0,
                    y: 0,
                    p: 0,
                    fixed_from: 0,
                },
            },
        }
    }
}
