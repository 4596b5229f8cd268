// A bank as it is after reset.
ghost use Rattle.std.specs.Prelude.{◌≡◌};
ghost use Rattle.dma.specs.Banks.{state_of};
ghost use Rattle.dma.specs.State.{reset};

use crate::bank::Bank;
use crate::row::Row;

impl Bank {
    // Every register is 0, every channel is done, and every priority remembers channel 5.
    pub fn reset() -> Bank
        ensures value { state_of result ≡ reset }
    {
        Bank {
            rows: [Row::default(); 6],
            offsets: [0; 4],
            last: [5; 4],
        }
    }
}
