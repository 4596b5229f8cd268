// Control words, counters and addresses by example.
use crate::control::{Settings, Shape, Spaces, TransferMode};
use crate::counter::{Counter, Layout};
use crate::update::Update;
use memory::place::Space;
use memory::refusal::Refusal;

#[test]
fn reserved_parts_are_refused(rt: HostRuntime) {
    assert_eq!(rt;
        Shape::try_from(0x00_0060),
        Err(Refusal::ReservedShape),
        "a code of three dimensions alone"
    );
    assert_eq!(rt;
        Shape::try_from(0x00_0430),
        Err(Refusal::ReservedShape),
        "the fourth layout of three dimensions"
    );
    assert_eq!(rt;
        TransferMode::try_from(0x30_0063),
        Err(Refusal::ReservedMode)
    );
    assert_eq!(rt; Spaces::try_from(0x00_000C), Err(Refusal::ReservedSpace));
    assert_eq!(rt; Settings::try_from(0x30_0000), Err(Refusal::ReservedMode));
    let cubic = Shape {
        source: Update::TwoDimensional(0),
        destination: Update::ThreeDimensional(2, 3),
        layout: Layout::E,
    };
    assert_eq!(rt; Shape::try_from(0x00_0460), Ok(cubic));
}

#[test]
fn a_whole_control_word(rt: HostRuntime) {
    let settings = Settings {
        enabled: true,
        interrupts: false,
        mode: TransferMode::BlockByEnable,
        priority: 2,
        continuous: false,
        request: 10,
        shape: Shape {
            source: Update::TwoDimensional(0),
            destination: Update::Onward,
            layout: Layout::B,
        },
        spaces: Spaces {
            source: Space::X,
            destination: Space::X,
        },
    };
    assert_eq!(rt; Settings::try_from(0x9C_5280), Ok(settings));
}

fn counter(layout: Layout, preload: u32, count: u32) -> Counter {
    Counter {
        layout,
        preload,
        count,
    }
}

#[test]
fn blocks_by_layout(rt: HostRuntime) {
    assert_eq!(rt; Layout::C.block_length(0x00_1042), 12);
    assert_eq!(rt; Layout::B.block_length(0x00_1003), 8);
    assert_eq!(rt;
        Layout::E.block_length(0x00_1000),
        2,
        "middle and low are two counts"
    );
    assert_eq!(rt; counter(Layout::C, 0x00_1042, 0x00_1042).position(), 0);
    assert_eq!(rt;
        counter(Layout::C, 0x00_1042, 0x00_1000).step().count,
        0x00_0042,
        "the end of a plane"
    );
}

// The address after some words of a block, from its first word on.
fn after(words: u8, update: Update, layout: Layout, preload: u32, from: u32) -> u32 {
    let offsets = [0x00_0010, 0x00_0020, 0xFF_FFFD, 0];
    let mut address = from;
    let mut count = preload;
    for _ in 0..words {
        address = update.next(address, offsets, layout.cut(count));
        count = counter(layout, preload, count).step().count;
    }
    address
}

#[test]
fn addresses_by_lines_and_planes(rt: HostRuntime) {
    let cubic = Update::ThreeDimensional(0, 1);
    assert_eq!(rt; after(3, cubic, Layout::C, 0x00_1042, 0x00_0100), 0x00_0112);
    assert_eq!(rt;
        after(12, cubic, Layout::C, 0x00_1042, 0x00_0100),
        0x00_0168
    );
    let back = Update::TwoDimensional(2);
    assert_eq!(rt; after(3, back, Layout::B, 0x00_1003, 0x00_0200), 0x00_0203);
    assert_eq!(rt; after(4, back, Layout::B, 0x00_1003, 0x00_0200), 0x00_0200);
    assert_eq!(rt; after(7, back, Layout::B, 0x00_1003, 0x00_0200), 0x00_0203);
    assert_eq!(rt; after(8, back, Layout::B, 0x00_1003, 0x00_0200), 0x00_0200);
    assert_eq!(rt;
        after(1, Update::Onward, Layout::A, 0, 0xFF_FFFF),
        0,
        "sums wrap"
    );
}
