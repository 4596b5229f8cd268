// What a request of a source is answered.

// The channels that took a request and those that missed it, bit c for channel c.
#[derive(Clone, Copy, PartialEq, Eq, Debug)]
pub struct Masks {
    pub captured: u8,
    pub missed: u8,
}
