// A controller with the tokens of its open services, awake and asleep.
ghost use Rattle.std.specs.Prelude.{◌≡◌, ℕ, false, None, slice_index_or};
ghost use Rattle.dma.specs.Controllers.{state, stopped_state};
ghost use Rattle.dma.specs.Raises.{raise_answer, after_raise};
ghost use Rattle.dma.specs.Reads.{get_answer};
ghost use Rattle.dma.specs.Refusing.{answer};
ghost use Rattle.dma.specs.Services.{begin_refusal, after_begin};
ghost use Rattle.dma.specs.Sets.{set_answer, after_set};
ghost use Rattle.dma.specs.State.{State, reset, row_at};
ghost use Rattle.dma.specs.Stops.{lost, after_stop};
ghost use Rattle.history.specs.Open.{Tied};
ghost use Rattle.history.specs.Returns.{finish_refusal, after_finish};

use crate::ending::absent;
use dma::channel::Channel;
use dma::controller::{Controller, Stopped};
use dma::masks::Masks;
use dma::service::Service;
use memory::refusal::Refusal;
use registers::register::Register;

// A controller, awake or stopped, and the state that it is in.
pub trait Held {
    ghost held: { Self → State };
}

impl Held for Controller {
    ghost held = { state };
}

impl Held for Stopped {
    ghost held = { stopped_state };
}

// The k-th token is there exactly while the service of channel k is open.
pub struct Holding<C: Held> {
    controller: C,
    services: [Option<Service>; 6],
    ghost tied: { Tied services (C.held controller).rows },
}

pub type Awake = Holding<Controller>;

pub type Asleep = Holding<Stopped>;

impl Awake {
    pub fn reset() -> Awake
        ensures value { state result.controller ≡ reset }
    {
        Awake {
            controller: Controller::reset(),
            services: std::array::from_fn(|_| None),
        }
    }

    pub fn set(&mut self, register: Register, value: u32) -> Result<(), Refusal>
        ensures value { result ≡ set_answer (state self.old.controller) register value }
        ensures after { state self.new.controller ≡ after_set (state self.old.controller) register value }
    {
        self.controller.set(register, value)
    }

    pub fn get(&self, register: Register) -> Result<u32, Refusal>
        ensures value { result ≡ get_answer (state self.now.controller) register }
    {
        self.controller.get(register)
    }

    pub fn raise(&mut self, source: u8) -> Result<Masks, Refusal>
        ensures value { result ≡ raise_answer (state self.old.controller) source }
        ensures after { state self.new.controller ≡ after_raise (state self.old.controller) source }
    {
        self.controller.raise(source)
    }

    // Opens a service and keeps its token.
    pub fn begin(&mut self, channel: u8) -> Result<(), Refusal>
        ensures value { result ≡ answer (begin_refusal (state self.old.controller) channel) }
        ensures after { state self.new.controller ≡ after_begin (state self.old.controller) channel }
    {
        // Lent before the call: between the two, tokens and rows are not tied.
        let services = &mut self.services;
        let service = self.controller.begin(channel)?;
        absent(services[usize::from(channel)].replace(service));
        Ok(())
    }

    // Gives the token of the channel back.
    pub fn finish(&mut self, channel: u8) -> Result<(), Refusal>
        ensures value { result ≡ answer (finish_refusal (state self.old.controller) channel) }
        ensures after { state self.new.controller ≡ after_finish (state self.old.controller) channel }
    {
        let channel = Channel::try_from(channel)?;
        let place = &mut self.services[usize::from(channel)];
        let service = place.take().ok_or(Refusal::NoService)?;
        self.controller.finish(service).unwrap();
        Ok(())
    }

    // The tokens of a device with no open service.
    pub(crate) fn into_services(self) -> [Option<Service>; 6]
        requires { (k : ℕ) → (row_at (state self.controller).rows k).serving ≡ false }
        ensures absent { (k : ℕ) → slice_index_or result k None ≡ None }
    {
        let Awake {
            controller: _,
            services,
        } = self;
        services
    }

    // The number says how many due words are lost; services stay open.
    pub fn stop(self) -> (Asleep, u32)
        ensures value { result.1 ≡ lost (state self.controller) }
        ensures after { stopped_state result.0.controller ≡ after_stop (state self.controller) }
    {
        let Awake {
            controller,
            services,
        } = self;
        let (controller, lost) = controller.stop();
        (
            Asleep {
                controller,
                services,
            },
            lost,
        )
    }
}

impl Asleep {
    pub fn wake(self) -> Awake
        ensures value { state result.controller ≡ stopped_state self.controller }
    {
        let Asleep {
            controller,
            services,
        } = self;
        Awake {
            controller: controller.wake(),
            services,
        }
    }
}
