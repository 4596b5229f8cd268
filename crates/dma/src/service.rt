// The open service of a channel's interrupt: it cannot be copied or let go, only given back to the controller.
ghost use Rattle.std.specs.Prelude.{◌≡◌, ◌<◌};

use crate::channel::Channel;
use memory::refusal::Refusal;

pub struct Service {
    channel: Channel,
    // Said here too: who holds a service does not see what `Channel` keeps.
    ghost a_channel: { channel < 6 },
}

// A service that was not taken back, with the reason.
pub struct HandedBack {
    pub refusal: Refusal,
    pub service: Service,
}

impl Service {
    pub(crate) fn new(channel: Channel) -> Service
        ensures value { result.channel ≡ channel }
    {
        // Made for its contract alone, which says that the channel is below 6.
        let _number = u8::from(channel);
        Service { channel }
    }

    // Does nothing: its contract is that the channel of a service, one handed back too, is known to be one of the six.
    pub fn is_of_a_channel(&self)
        ensures below { self.now.channel < 6 }
    {}

    pub fn channel(&self) -> u8
        ensures value { result ≡ self.now.channel }
        ensures below { result < 6 }
    {
        u8::from(self.channel)
    }

    // The channel with the fact that it is one.
    pub(crate) fn own_channel(&self) -> Channel
        ensures value { result ≡ self.now.channel }
    {
        self.channel
    }

    pub(crate) fn spend(self) {
        let Service { channel: _ } = self;
    }
}
