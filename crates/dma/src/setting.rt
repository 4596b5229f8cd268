// Setting the registers of one channel.
ghost use Rattle.std.specs.Prelude.{◌≡◌, false};
ghost use Rattle.registers.specs.Control.{enable};
ghost use Rattle.dma.specs.Channels.{busy};
ghost use Rattle.dma.specs.Refusing.{answer, unless};
ghost use Rattle.dma.specs.Sets.{disabled, reshapes, if_busy, switched_off, switched_on, at_rest_refusal, control_refusal, after_control, row_refusal, row_set};

use crate::row::Row;
use memory::refusal::Refusal;
use registers::control::{Shape, Spaces, TransferMode, enabled};
use registers::register::Register;

// The control word with DE cleared.
fn disabled(word: u32) -> u32
    ensures value { result ≡ disabled word }
    ensures off { enable result ≡ false }
{
    word - (word >> 23) % 2 * 0x80_0000
}

// Whether D3D or DAM differ.
fn reshapes(held: u32, word: u32) -> bool
    ensures value { result ≡ reshapes held word }
{
    (held >> 4) % 0x80 != (word >> 4) % 0x80
}

impl Row {
    fn refuse_if_busy(&self) -> Result<(), Refusal>
        ensures value { result ≡ answer (if_busy self.now) }
    {
        if self.busy() {
            Err(Refusal::Busy)
        } else {
            Ok(())
        }
    }

    // DE has been cleared: a due word of DTM 1 and 5 drains first, other due words are lost.
    fn switch_off(&mut self)
        ensures after { self.new ≡ switched_off self.old }
    {
        let settings = self.settings();
        if self.due == 0 {
            self.active = false;
            return;
        }
        match settings.mode {
            TransferMode::Word | TransferMode::WordKeepingEnable => {}
            TransferMode::Block
            | TransferMode::Line
            | TransferMode::BlockByEnable
            | TransferMode::BlockKeepingEnable => {
                self.due = 0;
                self.active = false;
                self.requested |= settings.interrupts;
            }
        }
    }

    // DE has been set: in DTM 3 the rest of the block is due.
    fn switch_on(&mut self)
        ensures after { self.new ≡ switched_on self.old }
    {
        if self.settings().mode == TransferMode::BlockByEnable {
            self.due = self.made_due();
        }
        self.active = true;
    }

    // What a control word for a channel at rest is refused with.
    fn refuse_at_rest(&self, word: u32) -> Result<(), Refusal>
        ensures value { result ≡ answer (at_rest_refusal self.now word) }
    {
        TransferMode::try_from(word)?;
        Shape::try_from(word)?;
        Spaces::try_from(word)?;
        if reshapes(self.control, word) && self.counter().position() != 0 {
            return Err(Refusal::ShapeInMidBlock);
        }
        Ok(())
    }

    // While DE is 1 it can only be cleared; while the channel drains nothing can be set.
    fn refuse_control(&self, word: u32) -> Result<(), Refusal>
        ensures value { result ≡ answer (control_refusal self.now word) }
    {
        if enabled(self.control) {
            if word != self.control && word != disabled(self.control) {
                return Err(Refusal::Busy);
            }
            return Ok(());
        }
        if self.active {
            return Err(Refusal::Busy);
        }
        self.refuse_at_rest(word)
    }

    // Holds the word; DE rises, falls or stays.
    fn take_control(&mut self, word: u32)
        ensures after { self.new ≡ after_control self.old word }
    {
        let was = enabled(self.control);
        self.control = word;
        match (was, enabled(word)) {
            (true, false) => self.switch_off(),
            (false, true) => self.switch_on(),
            (true, true) | (false, false) => {}
        }
    }

    // What a set of a register of this channel is refused with; the offsets and the status are no channel's.
    fn refuse(&self, register: Register, value: u32) -> Result<(), Refusal>
        ensures value { result ≡ answer (row_refusal self.now register value) }
    {
        match register {
            Register::Dsr(_) | Register::Ddr(_) | Register::Dco(_) => self.refuse_if_busy(),
            Register::Dcr(_) => self.refuse_control(value),
            Register::Dor(_) | Register::Dstr => Ok(()),
        }
    }

    pub fn set(&mut self, register: Register, value: u32) -> Result<(), Refusal>
        ensures value { result ≡ answer (row_refusal self.old register value) }
        ensures after { self.new ≡ unless (row_refusal self.old register value) self.old (row_set self.old register value) }
    {
        self.refuse(register, value)?;
        match register {
            Register::Dsr(_) => self.source = value,
            Register::Ddr(_) => self.destination = value,
            // Both what is left of the block and what each block starts from.
            Register::Dco(_) => {
                self.count = value;
                self.preload = value;
            }
            Register::Dcr(_) => self.take_control(value),
            Register::Dor(_) | Register::Dstr => {}
        }
        Ok(())
    }
}
