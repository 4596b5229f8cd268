// How an address register goes on after a word.
ghost use Rattle.std.specs.Prelude.{◌≡◌, ◌^◌, ◌<◌, slice_index};
ghost use Rattle.registers.specs.Updates.{stride, updated};

use crate::counter::Fields;

// By what a side's address grows: nothing, one, or an offset register at the end of a line or of a plane.
#[derive(Clone, Copy, PartialEq, Eq, Debug)]
pub enum Update {
    Still,
    Onward,
    // At the end of a line the offset register of that number is added, else one.
    TwoDimensional(u8),
    // At the end of a line the first offset register is added, at the end of a plane the second, else one.
    ThreeDimensional(u8, u8),
}

// The offset register of a number; one that there is not reads 0.
fn offset(offsets: [u32; 4], number: u8) -> u32
    ensures value { result ≡ slice_index offsets number }
{
    offsets.get(usize::from(number)).copied().unwrap_or(0)
}

impl Update {
    // The address after a word that was moved at this count. Sums wrap at 2^24.
    pub fn next(self, address: u32, offsets: [u32; 4], count: Fields) -> u32
        ensures value { result ≡ updated self offsets count address }
        ensures below { result < 2 ^ 24 }
    {
        address.wrapping_add(self.stride(offsets, count)) % 0x100_0000
    }

    // What is added to the address.
    fn stride(self, offsets: [u32; 4], count: Fields) -> u32
        ensures value { result ≡ stride self offsets count }
    {
        match self {
            Update::Still => 0,
            Update::TwoDimensional(line) if count.ends_line() => offset(offsets, line),
            Update::ThreeDimensional(_, plane) if count.ends_plane() => offset(offsets, plane),
            Update::ThreeDimensional(line, _) if count.ends_line() => offset(offsets, line),
            _ => 1,
        }
    }
}
