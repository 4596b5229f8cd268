// Reading the registers.
ghost use Rattle.std.specs.Prelude.{◌≡◌};
ghost use Rattle.dma.specs.Banks.{state_of};
ghost use Rattle.dma.specs.Reads.{contender, contest, next_served, status_of, status, get_answer};

use crate::arbitration::{Contender, Contest};
use crate::bank::Bank;
use crate::bank::raising::mask;
use crate::row::Row;
use memory::refusal::Refusal;
use registers::register::Register;

fn status_of(done: u8, next: Option<u8>) -> u32
    ensures value { result ≡ status_of done next }
{
    u32::from(done) + next.map_or(0, |next| 0x100 + u32::from(next) * 0x200)
}

impl Row {
    // What arbitration looks at of one channel.
    fn contender(&self) -> Contender
        ensures value { result ≡ contender self.now }
    {
        let settings = self.settings();
        Contender {
            due: self.due > 0,
            priority: settings.priority,
            continuous: settings.continuous,
        }
    }
}

impl Bank {
    // What arbitration looks at.
    pub fn contest(&self) -> Contest
        ensures value { result ≡ contest (state_of self.now) }
    {
        Contest {
            contenders: self.rows.map(|row| row.contender()),
            last: self.last,
        }
    }

    // The channel that the next slot would serve.
    pub fn next(&self) -> Option<u8>
        ensures value { result ≡ next_served (state_of self.now) }
    {
        self.contest().winner()
    }

    // Done bits, activity in bit 8, and in bits 9 to 11 the channel that the next slot would serve.
    fn status(&self) -> u32
        ensures value { result ≡ status (state_of self.now) }
    {
        let done = mask(self.rows.map(|row| !row.active));
        status_of(done, self.next())
    }

    pub fn get(&self, register: Register) -> Result<u32, Refusal>
        ensures value { result ≡ get_answer (state_of self.now) register }
    {
        register.known()?;
        match register {
            Register::Dsr(c) => Ok(self.rows[c as usize].source),
            Register::Ddr(c) => Ok(self.rows[c as usize].destination),
            Register::Dco(c) => Ok(self.rows[c as usize].count),
            Register::Dcr(c) => Ok(self.rows[c as usize].control),
            Register::Dor(i) => Ok(self.offsets[i as usize]),
            Register::Dstr => Ok(self.status()),
        }
    }
}
