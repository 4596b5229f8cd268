// Setting the registers.
ghost use Rattle.std.specs.Prelude.{◌≡◌};
ghost use Rattle.dma.specs.Banks.{state_of};
ghost use Rattle.dma.specs.Sets.{set_answer, after_set};

use crate::bank::Bank;
use crate::channel::Channel;
use memory::refusal::Refusal;
use registers::register::Register;

impl Bank {
    pub fn set(&mut self, register: Register, value: u32) -> Result<(), Refusal>
        ensures value { result ≡ set_answer (state_of self.old) register value }
        ensures after { state_of self.new ≡ after_set (state_of self.old) register value }
    {
        register.known()?;
        if value > 0xFF_FFFF {
            return Err(Refusal::ValueTooLarge);
        }
        match register {
            Register::Dsr(c) | Register::Ddr(c) | Register::Dco(c) | Register::Dcr(c) =>
                self.change_row(Channel::try_from(c)?, |row| row.set(register, value)),
            // An offset can be set at any time.
            Register::Dor(i) => {
                self.offsets[i as usize] = value;
                Ok(())
            }
            Register::Dstr => Err(Refusal::StatusIsRead),
        }
    }
}
