// What the controller's calls name and answer, for a caller of this crate alone.
pub use crate::masks::Masks;
pub use registers::register::Register;
