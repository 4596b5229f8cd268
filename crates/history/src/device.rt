// A device, awake or stopped: it makes any call over a memory, and answers it.
ghost use Rattle.std.specs.Prelude.{◌≡◌, true};
ghost use Rattle.dma.specs.Controllers.{state, stopped_state};
ghost use Rattle.dma.specs.State.{reset};
ghost use Rattle.history.specs.Devices.{state_in, is_awake, machine};
ghost use Rattle.history.specs.Rules.{awake_answer, after_awake, stopped_answer, wakes, answered, after};

use crate::awake::{Asleep, Awake};
use crate::call::{Answer, Call};
use memory::interface::Memory;
use memory::refusal::Refusal;

pub enum Device {
    Awake(Awake),
    Asleep(Asleep),
}

impl Device {
    pub fn reset() -> Device
        ensures state { state_in result ≡ reset }
        ensures awake { is_awake result ≡ true }
    {
        Device::Awake(Awake::reset())
    }

    pub fn execute<M: Memory>(self, memory: &mut M, call: Call) -> (Device, Answer)
        ensures value { result.1 ≡ answered (machine self (M.Memory.meaning memory.old)) call }
        ensures after { machine result.0 (M.Memory.meaning memory.new) ≡ after (machine self (M.Memory.meaning memory.old)) call }
        ensures memory { M.Memory.meaning memory.new ≡ (after (machine self (M.Memory.meaning memory.old)) call).memory }
    {
        match self {
            Device::Awake(device) => device.execute(memory, call),
            Device::Asleep(device) => device.execute(call),
        }
    }
}

impl Awake {
    fn execute<M: Memory>(mut self, memory: &mut M, call: Call) -> (Device, Answer)
        ensures value { result.1 ≡ awake_answer (state self.controller) (M.Memory.meaning memory.old) call }
        ensures after { machine result.0 (M.Memory.meaning memory.new) ≡ after_awake (state self.controller) (M.Memory.meaning memory.old) call }
    {
        let answer = match call {
            Call::Set(register, value) => Answer::from(self.set(register, value)),
            Call::Get(register) => Answer::from(self.get(register)),
            Call::Raise(source) => Answer::from(self.raise(source)),
            Call::Begin(channel) => Answer::from(self.begin(channel)),
            Call::Return(channel) => Answer::from(self.finish(channel)),
            Call::Stop => {
                let (device, lost) = self.stop();
                return (Device::Asleep(device), Answer::Stopped(lost));
            }
            Call::Wake => Answer::Refused(Refusal::NotNow),
            Call::Load(place) => Answer::from(memory.load(place)),
            Call::Store(place, word) => Answer::from(memory.store(place, word)),
        };
        (Device::Awake(self), answer)
    }
}

impl Asleep {
    fn execute(self, call: Call) -> (Device, Answer)
        ensures value { result.1 ≡ stopped_answer call }
        ensures state { state_in result.0 ≡ stopped_state self.controller }
        ensures awake { is_awake result.0 ≡ wakes call }
    {
        match call {
            Call::Wake => (Device::Awake(self.wake()), Answer::Done),
            _ => (Device::Asleep(self), Answer::Refused(Refusal::NotNow)),
        }
    }
}
