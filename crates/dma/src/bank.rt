// The table of the six channels with what they share, and what holds of it at all times.
ghost use Rattle.std.specs.Prelude.{ℕ, ◌<◌, slice_index};
ghost use Rattle.dma.specs.Soundness.{AllSound, all_sound_is_a_fact};

use crate::row::Row;

mod changing;
mod making;
mod raising;
mod reading;
mod serving;
mod writing;

#[derive(Drop)]
pub struct Bank {
    rows: [Row; 6],
    offsets: [u32; 4],
    // The channel that each priority served last.
    last: [u8; 4],
    ghost channels: { AllSound rows } by { all_sound_is_a_fact rows },
    ghost words: { (i : ℕ) → slice_index offsets i < 0x1000000 },
    ghost remembered: { (p : ℕ) → slice_index last p < 6 },
}
