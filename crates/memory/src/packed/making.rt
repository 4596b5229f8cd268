// Checking the sizes of a packed memory, and making one.
ghost use Rattle.std.specs.Prelude.{◌≡◌, length};
ghost use Rattle.memory.specs.Packed.{packed_check, made_packed, packed_meaning};

use crate::packed::{Packed, PackedSizes};
use crate::place::Space;
use crate::refusal::Refusal;

// The most words that a packed memory can have.
const LARGEST: u32 = 65_536;

// The number of addresses of a space.
const ADDRESSES: u32 = 0x100_0000;

impl PackedSizes {
    // Whether a packed memory of these sizes can lie over the bytes.
    pub fn check(self, bytes: &[u8]) -> Result<(), Refusal>
        ensures value { result ≡ packed_check self (length bytes.now) }
    {
        if self.count > LARGEST {
            return Err(Refusal::UnfitSizes);
        }
        let span = 3 * self.count;
        if bytes.len() != span as usize || self.base > ADDRESSES - span {
            return Err(Refusal::UnfitSizes);
        }
        Ok(())
    }
}

impl Packed {
    // The memory of these sizes over the bytes, or one that is absent everywhere where `check` refuses them.
    pub fn new(bytes: Vec<u8>, sizes: PackedSizes) -> Packed
        ensures meaning { packed_meaning result ≡ made_packed sizes bytes.items }
    {
        match sizes.check(&bytes) {
            Ok(()) => Packed { bytes, sizes },
            Err(_) => Packed {
                bytes,
                sizes: PackedSizes {
                    space: Space::X,
                    base: 0,
                    count: 0,
                },
            },
        }
    }
}
