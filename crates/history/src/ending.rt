// The end of a device. Tokens cannot be let go, so every open service is given back first.
ghost use Rattle.std.specs.Prelude.{◌≡◌, ℕ, None, slice_index_or};

use crate::awake::Awake;
use crate::device::Device;
use dma::service::Service;

impl Device {
    // No ensures: afterwards there is no device to speak of, and that no token is lost is what the check of linear values shows.
    pub fn end(self) {
        match self {
            Device::Awake(device) => device.end(),
            Device::Asleep(device) => device.wake().end(),
        }
    }
}

impl Awake {
    fn end(mut self) {
        for channel in 0..6u8 {
            let _ = self.finish(channel);
        }
        all_absent(self.into_services());
    }
}

// There is no token to let go.
pub(crate) fn absent(token: Option<Service>)
    requires { token ≡ None }
{
    match token {
        None => {}
        Some(_service) => unreachable!(),
    }
}

// One by one: an array has no `map` and no iterator by value where its elements cannot be let go.
fn all_absent(services: [Option<Service>; 6])
    requires { (k : ℕ) → slice_index_or services k None ≡ None }
{
    let [first, second, third, fourth, fifth, sixth] = services;
    absent(first);
    absent(second);
    absent(third);
    absent(fourth);
    absent(fifth);
    absent(sixth);
}
