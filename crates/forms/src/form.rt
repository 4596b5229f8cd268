// The forms of the script language, one for each thing that a line can ask for.
use memory::place::Place;
pub use registers::register::Register;

#[derive(Clone, Copy, PartialEq, Eq, Debug)]
pub enum Form {
    Store(Place, u32),
    Load(Place),
    Set(Register, u32),
    Get(Register),
    Raise(u8),
    Slot,
    Serve(u8),
    Stop,
    Wake,
}
