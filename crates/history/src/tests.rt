// A device that is set, stopped, woken and served over a memory of one word.
use crate::call::{Answer, Call};
use crate::device::Device;
use dma::masks::Masks;
use memory::flat::{Flat, FlatSizes};
use memory::place::{Owner, Place, Space};
use memory::refusal::{Fault, Refusal};
use registers::register::Register;
use std::test::Fail;

const ONE_WORD: FlatSizes = FlatSizes {
    x: 1,
    y: 0,
    p: 0,
    fixed_from: 0,
};

const FIRST: Place = Place {
    space: Space::X,
    address: 0,
};

const BEYOND: Place = Place {
    space: Space::X,
    address: 1,
};

const NOWHERE: Fault = Fault {
    cause: Refusal::AbsentLoad,
    place: BEYOND,
    owner: Owner {
        letter: 'F',
        depth: 0,
    },
};

// DIE, and DTM for a block that starts as DE is set.
const OFF: u32 = 0x58_0000;

const ON: u32 = 0xD8_0000;

const DCR: Register = Register::Dcr(2);

const NOT_NOW: Answer = Answer::Refused(Refusal::NotNow);

const NO_ONE: Masks = Masks {
    captured: 0,
    missed: 0,
};

const STORY: [(Call, Answer); 22] = [
    (Call::Store(FIRST, 0x12_3456), Answer::Done),
    (Call::Load(FIRST), Answer::Word(0x12_3456)),
    (Call::Load(BEYOND), Answer::Fault(NOWHERE)),
    (Call::Set(DCR, ON), Answer::Done),
    (Call::Get(DCR), Answer::Word(ON)),
    (Call::Raise(10), Answer::Raised(NO_ONE)),
    (Call::Raise(4), Answer::Refused(Refusal::NoSuchSource)),
    (Call::Wake, NOT_NOW),
    (Call::Stop, Answer::Stopped(1)),
    (Call::Stop, NOT_NOW),
    (Call::Set(DCR, OFF), NOT_NOW),
    (Call::Load(FIRST), NOT_NOW),
    (Call::Wake, Answer::Done),
    (Call::Set(DCR, OFF), Answer::Done),
    (Call::Begin(2), Answer::Refused(Refusal::NoInterrupt)),
    (Call::Set(DCR, ON), Answer::Done),
    (Call::Set(DCR, OFF), Answer::Done),
    (Call::Begin(2), Answer::Done),
    (Call::Return(6), Answer::Refused(Refusal::NoSuchRegister)),
    (Call::Return(2), Answer::Done),
    (Call::Return(2), Answer::Refused(Refusal::NoService)),
    (Call::Stop, Answer::Stopped(0)),
];

// The place of the first call that is answered otherwise than the list says.
fn first_otherwise(memory: &mut Flat, story: &[(Call, Answer)]) -> Option<usize> {
    let mut device = Device::reset();
    let mut otherwise = None;
    for (i, (call, expected)) in story.iter().enumerate() {
        let (next, answer) = device.execute(memory, *call);
        device = next;
        if answer != *expected && otherwise.is_none() {
            otherwise = Some(i);
        }
    }
    device.end();
    otherwise
}

#[test]
fn a_story_of_calls(rt: HostRuntime) -> Result<(), Fail> {
    let mut memory = Flat::new(vec![in rt.alloc(); 0u32; 1]?, ONE_WORD);
    assert_eq!(rt; first_otherwise(&mut memory, &STORY), None);
    Ok(())
}
