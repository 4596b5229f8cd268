// The interrupt of one channel and its service, and what a stop does to the channel.
ghost use Rattle.std.specs.Prelude.{◌≡◌};
ghost use Rattle.dma.specs.Refusing.{answer, unless};
ghost use Rattle.dma.specs.Services.{begin_row_refusal, begun, return_row_refusal, returned};
ghost use Rattle.dma.specs.Stops.{halted};

use crate::row::Row;
use memory::refusal::Refusal;

impl Row {
    // Clears the requested interrupt and opens its service.
    pub fn begin(&mut self) -> Result<(), Refusal>
        ensures value { result ≡ answer (begin_row_refusal self.old) }
        ensures after { self.new ≡ unless (begin_row_refusal self.old) self.old (begun self.old) }
    {
        if !self.requested {
            return Err(Refusal::NoInterrupt);
        }
        if self.serving {
            return Err(Refusal::InService);
        }
        self.requested = false;
        self.serving = true;
        Ok(())
    }

    // Closes the service.
    pub fn finish(&mut self) -> Result<(), Refusal>
        ensures value { result ≡ answer (return_row_refusal self.old) }
        ensures after { self.new ≡ unless (return_row_refusal self.old) self.old (returned self.old) }
    {
        if !self.serving {
            return Err(Refusal::NoService);
        }
        self.serving = false;
        Ok(())
    }

    // Loses every due word; a draining channel is done.
    pub fn halt(&mut self)
        ensures after { self.new ≡ halted self.old }
    {
        self.active &= self.settings().enabled;
        self.due = 0;
    }
}
