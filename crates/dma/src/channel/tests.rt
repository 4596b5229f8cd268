// The numbers that are a channel's, and the first that is none.
use super::Channel;
use memory::refusal::Refusal;

#[test]
fn six_channels(rt: HostRuntime) {
    for number in 0..6u8 {
        assert_eq!(rt; Channel::try_from(number).map(u8::from), Ok(number));
    }
    assert_eq!(rt; Channel::try_from(6), Err(Refusal::NoSuchRegister));
}
