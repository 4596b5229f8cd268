// Where a word lies, what may be done there, and whose place it is.

// The three address spaces of the DSP56300: two of data and one of program.
#[derive(Clone, Copy, PartialEq, Eq, Debug)]
pub enum Space {
    X,
    Y,
    P,
}

// An address of a space. Addresses have 24 bits; a larger one names no place.
#[derive(Clone, Copy, PartialEq, Eq, Debug)]
pub struct Place {
    pub space: Space,
    pub address: u32,
}

// What an address is: no place at all, a place that can only be read, or a place that can be read and written.
#[derive(Clone, Copy, PartialEq, Eq, Debug)]
pub enum Kind {
    Absent,
    Fixed,
    Plain,
}

// The memory that answers for an address: its letter, and how many borders stand in front of it.
#[derive(Clone, Copy, PartialEq, Eq, Debug)]
pub struct Owner {
    pub letter: char,
    pub depth: u8,
}
