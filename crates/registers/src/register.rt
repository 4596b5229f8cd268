// The names by which a console and a script reach the registers.
ghost use Rattle.std.specs.Prelude.{◌≡◌, Ok, Err, if◌then◌else◌};
ghost use Rattle.memory.specs.declared.refusal.Refusal.TheVariants.{NoSuchRegister};
ghost use Rattle.registers.specs.Names.{unknown};

use memory::refusal::Refusal;

// A register by its name, with the number of its channel or, for an offset, its own number. The number stands as it was written: see `known`.
#[derive(Clone, Copy, PartialEq, Eq, Debug)]
pub enum Register {
    Dsr(u8),
    Ddr(u8),
    Dco(u8),
    Dcr(u8),
    Dor(u8),
    Dstr,
}

impl Register {
    // Whether there is no register of that number.
    pub fn unknown(self) -> bool
        ensures value { result ≡ unknown self }
    {
        match self {
            Register::Dsr(0..=5)
            | Register::Ddr(0..=5)
            | Register::Dco(0..=5)
            | Register::Dcr(0..=5) => false,
            Register::Dor(0..=3) | Register::Dstr => false,
            _ => true,
        }
    }

    // Refused where there is none.
    pub fn known(self) -> Result<(), Refusal>
        ensures value { result ≡ (if unknown self then Err NoSuchRegister else Ok tt) }
    {
        if self.unknown() {
            return Err(Refusal::NoSuchRegister);
        }
        Ok(())
    }
}
