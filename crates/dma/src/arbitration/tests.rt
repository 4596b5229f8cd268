// Slots one after another, each remembering the channel of the one before.
use super::{Contender, Contest};

const IDLE: Contender = Contender {
    due: false,
    priority: 1,
    continuous: false,
};

const DUE: Contender = Contender {
    due: true,
    priority: 1,
    continuous: false,
};

// Channels 0, 2 and 5 have words due at priority 1; as after reset, every priority remembers channel 5.
const EQUALS: Contest = Contest {
    contenders: [DUE, IDLE, DUE, IDLE, IDLE, DUE],
    last: [5; 4],
};

fn served_after(last: u8, mut contest: Contest) -> Option<u8> {
    contest.last[1] = last;
    contest.winner()
}

#[test]
fn equals_take_turns(rt: HostRuntime) {
    assert_eq!(rt; EQUALS.winner(), Some(0));
    assert_eq!(rt; served_after(0, EQUALS), Some(2));
    assert_eq!(rt; served_after(2, EQUALS), Some(5));
    assert_eq!(rt; served_after(5, EQUALS), Some(0));
}

#[test]
fn continuous_channel_goes_on_while_due(rt: HostRuntime) {
    let mut contest = EQUALS;
    contest.contenders[2].continuous = true;
    assert_eq!(rt; served_after(0, contest), Some(2));
    assert_eq!(rt; served_after(2, contest), Some(2));
    contest.contenders[2].due = false;
    assert_eq!(rt; served_after(2, contest), Some(5));
}

#[test]
fn higher_priority_goes_first(rt: HostRuntime) {
    let mut contest = EQUALS;
    contest.contenders[5].priority = 3;
    assert_eq!(rt; contest.winner(), Some(5));
    for contender in contest.contenders.iter_mut() {
        contender.due = false;
    }
    assert_eq!(rt; contest.winner(), None);
}
