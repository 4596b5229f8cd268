// The memories at their edges: sizes, byte order, upper bits, and owners behind many borders.
ghost use Rattle.memory.specs.Meaning.{nowhere};
ghost use Rattle.std.proofs.Common.{rules};

use crate::border::Border;
use crate::flat::{Flat, FlatSizes};
use crate::interface::Memory;
use crate::packed::{Packed, PackedSizes};
use crate::place::{Kind, Owner, Place, Space};
use crate::refusal::{Fault, Refusal, may_store};
use std::test::Fail;

fn at(space: Space, address: u32) -> Place {
    Place { space, address }
}

fn flat_sizes(x: u32, y: u32, p: u32, fixed_from: u32) -> FlatSizes {
    FlatSizes {
        x,
        y,
        p,
        fixed_from,
    }
}

fn packed_sizes(base: u32, count: u32) -> PackedSizes {
    PackedSizes {
        space: Space::Y,
        base,
        count,
    }
}

#[test]
fn flat_sizes_at_their_edges(rt: HostRuntime) -> Result<(), Fail> {
    let unfit = Err(Refusal::UnfitSizes);
    let list = vec![in rt.alloc(); 0u32; 65_537]?;
    let words = list.as_slice();
    let few = &words[0..65_536];
    assert_eq!(rt;
        flat_sizes(65_536, 0, 0, 0).check(few),
        Ok(()),
        "the largest X"
    );
    assert_eq!(rt;
        flat_sizes(0, 0, 65_536, 65_536).check(few),
        Ok(()),
        "the largest P"
    );
    assert_eq!(rt;
        flat_sizes(65_537, 0, 0, 0).check(words),
        unfit,
        "X too large"
    );
    assert_eq!(rt;
        flat_sizes(0, 65_537, 0, 0).check(words),
        unfit,
        "Y too large"
    );
    assert_eq!(rt;
        flat_sizes(0, 0, 65_537, 0).check(words),
        unfit,
        "P too large"
    );
    assert_eq!(rt;
        flat_sizes(0, 0, 65_536, 65_537).check(few),
        unfit,
        "fixed past P"
    );
    assert_eq!(rt;
        flat_sizes(65_535, 0, 0, 0).check(few),
        unfit,
        "a number too many"
    );
    assert_eq!(rt;
        flat_sizes(65_536, 1, 1, 0).check(words),
        unfit,
        "a number too few"
    );
    Ok(())
}

#[test]
fn packed_sizes_at_their_edges(rt: HostRuntime) -> Result<(), Fail> {
    let unfit = Err(Refusal::UnfitSizes);
    let list = vec![in rt.alloc(); 0u8; 196_611]?;
    let bytes = list.as_slice();
    let few = &bytes[0..196_608];
    assert_eq!(rt;
        packed_sizes(0, 65_536).check(few),
        Ok(()),
        "the largest count"
    );
    assert_eq!(rt;
        packed_sizes(0, 65_537).check(bytes),
        unfit,
        "the count too large"
    );
    assert_eq!(rt;
        packed_sizes(0xFD_0000, 65_536).check(few),
        Ok(()),
        "up to the last address"
    );
    assert_eq!(rt;
        packed_sizes(0xFD_0001, 65_536).check(few),
        unfit,
        "past the last address"
    );
    assert_eq!(rt; packed_sizes(0, 65_535).check(few), unfit, "bytes too many");
    Ok(())
}

#[test]
fn refused_sizes_make_a_memory_that_is_absent(rt: HostRuntime) -> Result<(), Fail> {
    let words = vec![in rt.alloc(); 7u32; 4]?;
    let flat = Flat::new(words, flat_sizes(2, 1, 0, 0));
    assert_eq!(rt; flat.kind(at(Space::X, 0)), Kind::Absent);
    let bytes = vec![in rt.alloc(); 7u8; 4]?;
    let packed = Packed::new(bytes, packed_sizes(0, 1));
    assert_eq!(rt; packed.kind(at(Space::Y, 0)), Kind::Absent);
    Ok(())
}

#[test]
fn words_of_a_flat_memory(rt: HostRuntime) -> Result<(), Fail> {
    let words = vec![in rt.alloc(); 0xFF00_0001u32, 2, 3, 4]?;
    let mut flat = Flat::new(words, flat_sizes(1, 1, 2, 1));
    assert_eq!(rt;
        flat.load(at(Space::X, 0)),
        Ok(1),
        "the upper eight bits are no part of a word"
    );
    assert_eq!(rt; flat.load(at(Space::Y, 0)), Ok(2));
    assert_eq!(rt; flat.store(at(Space::P, 0), 0xFF_FFFF), Ok(()));
    assert_eq!(rt; flat.load(at(Space::P, 0)), Ok(0xFF_FFFF));
    assert_eq!(rt;
        flat.load(at(Space::P, 1)),
        Ok(4),
        "the place beside it stands"
    );
    assert_eq!(rt; flat.kind(at(Space::P, 1)), Kind::Fixed);
    assert_eq!(rt; flat.kind(at(Space::P, 2)), Kind::Absent);
    Ok(())
}

#[test]
fn words_of_a_packed_memory(rt: HostRuntime) -> Result<(), Fail> {
    let bytes = vec![in rt.alloc(); 0x56u8, 0x34, 0x12, 0, 0, 0]?;
    let mut packed = Packed::new(bytes, packed_sizes(0x100, 2));
    assert_eq!(rt;
        packed.load(at(Space::Y, 0x100)),
        Ok(0x12_3456),
        "the lowest byte comes first"
    );
    assert_eq!(rt; packed.store(at(Space::Y, 0x103), 0xAB_CDEF), Ok(()));
    assert_eq!(rt; packed.load(at(Space::Y, 0x103)), Ok(0xAB_CDEF));
    assert_eq!(rt;
        packed.load(at(Space::Y, 0x100)),
        Ok(0x12_3456),
        "the word before it stands"
    );
    assert_eq!(rt; packed.kind(at(Space::Y, 0x101)), Kind::Absent);
    assert_eq!(rt; packed.kind(at(Space::X, 0x100)), Kind::Absent);
    assert_eq!(rt; packed.kind(at(Space::Y, 0x106)), Kind::Absent);
    Ok(())
}

// A memory that is absent everywhere, behind 253 borders already.
#[derive(Drop)]
struct Far(Owner);

impl Memory for Far {
    ghost meaning = { λ m. nowhere m.0 };

    ghost words_fit = { Prim.search rules };

    ghost high_addresses_are_absent = { Prim.search rules };

    fn kind(&self, _place: Place) -> Kind {
        Kind::Absent
    }

    fn load(&mut self, place: Place) -> Result<u32, Fault> {
        Err(self.0.fault(Refusal::AbsentLoad, place))
    }

    fn store(&mut self, place: Place, word: u32) -> Result<(), Fault> {
        may_store(Kind::Absent, word).map_err(|cause| self.0.fault(cause, place))
    }
}

fn behind<M: Memory>(low: M) -> Border<M, Far> {
    let owner = Owner {
        letter: 'H',
        depth: 0,
    };
    Border {
        low,
        high: Far(owner),
        border: 0x10,
    }
}

fn depth_of(answer: Result<u32, Fault>) -> Option<u8> {
    answer.err().map(|fault| fault.owner.depth)
}

#[test]
fn depth_stays_at_255(rt: HostRuntime) {
    let owner = Owner {
        letter: 'T',
        depth: 253,
    };
    let mut two = behind(behind(Far(owner)));
    assert_eq!(rt; depth_of(two.load(at(Space::X, 0))), Some(255));
    assert_eq!(rt;
        depth_of(two.load(at(Space::X, 0x10))),
        Some(1),
        "at the border the second answers"
    );
    let mut four = behind(behind(two));
    assert_eq!(rt; depth_of(four.load(at(Space::X, 0xF))), Some(255));
}
