// The number of one of the six channels.
ghost use Rattle.std.specs.Prelude.{◌≡◌, ◌<◌, Ok, Err, nat_lt, if◌then◌else◌};
ghost use Rattle.memory.specs.declared.refusal.Refusal.TheVariants.{NoSuchRegister};

use memory::refusal::Refusal;
use std::marker::Model;

#[cfg(test)]
mod tests;

// Below 6. Clauses read it as its number.
#[derive(Clone, Copy, PartialEq, Eq, Debug)]
pub struct Channel {
    number: u8,
}

impl Model for Channel {
    ghost use Rattle.std.specs.Prelude.{ℕ, ◌<◌};

    ghost Value = { ℕ };

    ghost view = { λ channel. channel.number };

    ghost invariant = { λ channel. channel.number < 6 };

    ghost inverse = { λ number. record { number = number } };
}

impl TryFrom<u8> for Channel {
    type Error = Refusal;

    ghost try_from_gives = { λ number outcome. outcome ≡ (if nat_lt 5 number then Err NoSuchRegister else Ok number) };

    fn try_from(number: u8) -> Result<Channel, Refusal> {
        if number > 5 {
            return Err(Refusal::NoSuchRegister);
        }
        Ok(Channel { number })
    }
}

impl From<Channel> for u8 {
    ghost from_gives = { λ channel number. (number ≡ channel) × (number < 6) };

    fn from(channel: Channel) -> u8 {
        channel.number
    }
}

// As an index.
impl From<Channel> for usize {
    ghost from_gives = { λ channel index. (index ≡ channel) × (index < 6) };

    fn from(channel: Channel) -> usize {
        usize::from(channel.number)
    }
}
