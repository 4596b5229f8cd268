// Requests of a source, and stopping: what goes over all six channels.
ghost use Rattle.std.specs.Prelude.{◌≡◌, false, slice_index_or, Ok, Err, if◌then◌else◌};
ghost use Rattle.memory.specs.declared.refusal.Refusal.TheVariants.{NoSuchSource};
ghost use Rattle.dma.specs.Raises.{mask_of, masks_of, no_such_source, raise_answer, after_raise};
ghost use Rattle.dma.specs.Banks.{state_of};
ghost use Rattle.dma.specs.Stops.{lost, after_stop};

use crate::bank::Bank;
use crate::masks::Masks;
use crate::row::Row;
use memory::refusal::Refusal;

// The channels that are in, bit c for channel c.
pub fn mask(is_in: [bool; 6]) -> u8
    ensures value { result ≡ mask_of (λ c. slice_index_or is_in c false) }
{
    is_in
        .iter()
        .rev()
        .fold(0, |mask, is_in| (mask << 1) | u8::from(*is_in))
}

// The channels that take a request of the source, and those that miss it.
pub fn masks(rows: &[Row; 6], source: u8) -> Masks
    ensures value { result ≡ masks_of source rows.now }
{
    Masks {
        captured: mask(rows.each_ref().map(|row| row.captures(source))),
        missed: mask(rows.each_ref().map(|row| row.misses(source))),
    }
}

// Refused where no device can raise the source: 4 to 9 are the block ends, and there is none above 31.
fn can_be_raised(source: u8) -> Result<(), Refusal>
    ensures value { result ≡ (if no_such_source source then Err NoSuchSource else Ok tt) }
{
    match source {
        4..=9 | 32.. => Err(Refusal::NoSuchSource),
        _ => Ok(()),
    }
}

impl Bank {
    pub fn raise(&mut self, source: u8) -> Result<Masks, Refusal>
        ensures value { result ≡ raise_answer (state_of self.old) source }
        ensures after { state_of self.new ≡ after_raise (state_of self.old) source }
    {
        can_be_raised(source)?;
        let masks = masks(&self.rows, source);
        self.rows = self.rows.map(|mut row| {
            row.ask(source);
            row
        });
        Ok(masks)
    }

    // How many words are due.
    fn due(&self) -> u32
        ensures value { result ≡ lost (state_of self.now) }
    {
        self.rows.iter().map(|row| row.due).sum()
    }

    // Loses every due word, and tells how many there were.
    pub fn stop(&mut self) -> u32
        ensures value { result ≡ lost (state_of self.old) }
        ensures after { state_of self.new ≡ after_stop (state_of self.old) }
    {
        let lost = self.due();
        self.rows = self.rows.map(|mut row| {
            row.halt();
            row
        });
        lost
    }
}
