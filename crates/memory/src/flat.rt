// A flat memory lies over a list of 32-bit numbers: the words of X first, then those of Y, then those of P.
ghost use Rattle.std.specs.Prelude.{◌+◌, ◌≤◌, vec_len};

pub mod access;
pub mod making;

// How many words each space has, and the address from which on the places of P are fixed.
#[derive(Clone, Copy, PartialEq, Eq, Debug)]
pub struct FlatSizes {
    pub x: u32,
    pub y: u32,
    pub p: u32,
    pub fixed_from: u32,
}

// The sizes stand beside the list, since they part it into three: the caller names them, and `room` says that the list is as long as they need.
#[derive(Drop)]
pub struct Flat {
    words: Vec<u32>,
    sizes: FlatSizes,
    ghost room: { sizes.x + sizes.y + sizes.p ≤ vec_len words },
    ghost few: { (sizes.x ≤ 65536) × (sizes.y ≤ 65536) × (sizes.p ≤ 65536) },
}
