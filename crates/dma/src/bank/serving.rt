// Beginning and ending the service of a channel's interrupt.
ghost use Rattle.std.specs.Prelude.{◌≡◌};
ghost use Rattle.dma.specs.Banks.{state_of};
ghost use Rattle.dma.specs.Refusing.{gives, answer, unless};
ghost use Rattle.dma.specs.Services.{begin_row_refusal, begun, begin_refusal, after_begin, return_refusal, after_return};
ghost use Rattle.dma.specs.Sets.{change};
ghost use Rattle.dma.specs.State.{row_at};

use crate::bank::Bank;
use crate::channel::Channel;
use memory::refusal::Refusal;

impl Bank {
    // Answers the channel whose service it opened.
    pub fn begin(&mut self, c: u8) -> Result<Channel, Refusal>
        ensures value { result ≡ gives c (begin_refusal (state_of self.old) c) }
        ensures after { state_of self.new ≡ after_begin (state_of self.old) c }
    {
        let channel = Channel::try_from(c)?;
        self.change_row(channel, |row| row.begin())?;
        Ok(channel)
    }

    pub(crate) fn finish(&mut self, c: Channel) -> Result<(), Refusal>
        ensures value { result ≡ answer (return_refusal (state_of self.old) c) }
        ensures after { state_of self.new ≡ after_return (state_of self.old) c }
    {
        self.change_row(c, |row| row.finish())
    }
}
