// The calls of the controller but for its slot.
ghost use Rattle.std.specs.Prelude.{◌≡◌, false, Ok};
ghost use Rattle.dma.specs.Controllers.{state, stopped_state};
ghost use Rattle.dma.specs.Raises.{no_such_source, raise_answer, after_raise, NobodyListens, no_masks};
ghost use Rattle.dma.specs.Reads.{get_answer};
ghost use Rattle.dma.specs.Services.{after_begin, after_return};
ghost use Rattle.dma.specs.Sets.{set_answer, after_set};
ghost use Rattle.dma.specs.State.{reset};
ghost use Rattle.dma.specs.Stops.{lost, after_stop};
ghost use Rattle.dma.specs.Tokens.{Begins, Returns};

use crate::bank::Bank;
use crate::controller::{Controller, Stopped};
use crate::masks::Masks;
use crate::service::{HandedBack, Service};
use memory::refusal::Refusal;
use registers::register::Register;

impl Controller {
    // Awake, every register 0, nothing due or requested, no service open.
    pub fn reset() -> Controller
        ensures value { state result ≡ reset }
    {
        Controller {
            bank: Bank::reset(),
        }
    }

    // A register and its value are no type of their own: the pair would be made for the call and taken apart in it.
    pub fn set(&mut self, register: Register, value: u32) -> Result<(), Refusal>
        ensures value { result ≡ set_answer (state self.old) register value }
        ensures after { state self.new ≡ after_set (state self.old) register value }
    {
        self.bank.set(register, value)
    }

    pub fn get(&self, register: Register) -> Result<u32, Refusal>
        ensures value { result ≡ get_answer (state self.now) register }
    {
        self.bank.get(register)
    }

    // A request of a source. Each enabled channel that listens to it takes it, or misses it while it still has words due.
    pub fn raise(&mut self, source: u8) -> Result<Masks, Refusal>
        ensures value { result ≡ raise_answer (state self.old) source }
        ensures after { state self.new ≡ after_raise (state self.old) source }
        ensures no_listener_changes_nothing { no_such_source source ≡ false → NobodyListens source (state self.old) → (result ≡ Ok no_masks) × (state self.new ≡ state self.old) }
    {
        self.bank.raise(source)
    }

    // Opens the service of a requested interrupt. The token has to be given back by `finish`.
    pub fn begin(&mut self, channel: u8) -> Result<Service, Refusal>
        ensures value { Begins (state self.old) channel result }
        ensures after { state self.new ≡ after_begin (state self.old) channel }
    {
        let channel = self.bank.begin(channel)?;
        Ok(Service::new(channel))
    }

    // Takes a service back, or hands it back where this controller has no such service open. The service goes one way or the other, so no `?`.
    pub fn finish(&mut self, service: Service) -> Result<(), HandedBack>
        ensures value { Returns (state self.old) service result }
        ensures after { state self.new ≡ after_return (state self.old) service.channel }
    {
        match self.bank.finish(service.own_channel()) {
            Ok(()) => {
                service.spend();
                Ok(())
            }
            Err(refusal) => Err(HandedBack { refusal, service }),
        }
    }

    // Every due word is lost; the number says how many.
    pub fn stop(self) -> (Stopped, u32)
        ensures value { result.1 ≡ lost (state self) }
        ensures after { stopped_state result.0 ≡ after_stop (state self) }
    {
        let Controller { mut bank } = self;
        let lost = bank.stop();
        (Stopped { bank }, lost)
    }
}

impl Stopped {
    pub fn wake(self) -> Controller
        ensures value { state result ≡ stopped_state self }
    {
        let Stopped { bank } = self;
        Controller { bank }
    }
}
