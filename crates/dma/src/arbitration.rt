// Which channel the next slot serves.
ghost use Rattle.std.specs.Prelude.{◌≡◌, ◌+◌, ◌%◌, ◌<◌, ◌&&◌, ◌==◌, true};
ghost use Rattle.dma.specs.Arbitration.{competes_at, competes, any_competes, upward, served_at, winner};
ghost use Rattle.dma.specs.ArbitrationLaws.{Highest, WellMade, Arbitrates};

const CHANNELS: u8 = 6;

const PRIORITIES: u8 = 4;

// One channel: whether it has words due, its priority and its DCON bit.
#[derive(Clone, Copy, PartialEq, Eq, Debug)]
pub struct Contender {
    pub due: bool,
    pub priority: u8,
    pub continuous: bool,
}

// All that arbitration looks at: the six channels, and which of them each priority served last.
#[derive(Clone, Copy, PartialEq, Eq, Debug)]
pub struct Contest {
    pub contenders: [Contender; 6],
    pub last: [u8; 4],
}

impl Contender {
    fn competes(&self, priority: u8) -> bool
        ensures value { result ≡ competes_at priority self.now }
    {
        self.due && self.priority == priority
    }
}

impl Contest {
    // The channel that the next slot serves, if any has words due.
    pub fn winner(&self) -> Option<u8>
        ensures value { result ≡ winner self.now }
        ensures lawful { WellMade self.now → Arbitrates self.now result }
    {
        self.served_at(self.highest())
    }

    // The highest priority at which a channel competes, or 0 if there is none.
    fn highest(&self) -> u8
        ensures highest { Highest self.now result }
    {
        (1..PRIORITIES)
            .rev()
            .find(|priority| self.any_competes(*priority))
            .unwrap_or(0)
    }

    // Among equals the remembered channel goes on if it is continuous; else the next one upward has its turn.
    fn served_at(&self, priority: u8) -> Option<u8>
        requires { priority < 4 }
        ensures value { result ≡ served_at self.now priority }
    {
        let last = self.last[priority as usize];
        if self.competes(priority, last) && self.contenders[last as usize].continuous {
            Some(last)
        } else {
            self.upward(priority, last)
        }
    }

    // The next channel upward that competes, 0 following 5, and `last` itself asked last.
    fn upward(&self, priority: u8, last: u8) -> Option<u8>
        ensures value { result ≡ upward self.now priority 6 ((last + 1) % 6) }
    {
        let first = last % CHANNELS + 1;
        (0..CHANNELS)
            .map(|step| (first + step) % CHANNELS)
            .find(|channel| self.competes(priority, *channel))
    }

    fn any_competes(&self, priority: u8) -> bool
        ensures value { result ≡ any_competes self.now priority }
    {
        self.contenders
            .iter()
            .any(|contender| contender.competes(priority))
    }

    // A number above 5, which a remembered channel may be, is no channel.
    fn competes(&self, priority: u8, channel: u8) -> bool
        ensures value { result ≡ competes self.now priority channel }
        ensures a_channel { result ≡ true → channel < 6 }
    {
        self.contenders
            .get(channel as usize)
            .is_some_and(|contender| contender.competes(priority))
    }
}

#[cfg(test)]
mod tests;
