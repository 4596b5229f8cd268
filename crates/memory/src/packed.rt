// A packed memory lies over bytes, in one space: three bytes a word, the lowest first.
ghost use Rattle.std.specs.Prelude.{◌+◌, ◌*◌, ◌^◌, ◌≤◌, vec_len};

use crate::place::Space;

pub mod access;
pub mod making;

// The space, the address of the first word, and how many words there are. Word k is at base + 3 * k.
#[derive(Clone, Copy, PartialEq, Eq, Debug)]
pub struct PackedSizes {
    pub space: Space,
    pub base: u32,
    pub count: u32,
}

// The sizes stand beside the bytes, since they say where the words lie: the caller names them, and `room` says that the bytes are enough.
#[derive(Drop)]
pub struct Packed {
    bytes: Vec<u8>,
    sizes: PackedSizes,
    ghost room: { 3 * sizes.count ≤ vec_len bytes },
    ghost below: { sizes.base + 3 * sizes.count ≤ 2 ^ 24 },
}
