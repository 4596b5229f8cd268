// Examples: lines at their limits, each kind of answer as text, and a script over a memory that can only be read.
ghost use Rattle.std.specs.Prelude.{◌≡◌, ◌%◌, if◌then◌else◌, nat_lt};
ghost use Rattle.memory.specs.declared.place.Kind.TheVariants.{Absent, Fixed};
ghost use Rattle.std.proofs.Common.{rules};

use crate::answer::{Answer, Numbered};
use crate::listing::{answer_all, listing, requests};
use forms::form::Form;
use memory::interface::Memory;
use memory::place::{Kind, Owner, Place, Space};
use memory::refusal::{Fault, Refusal, may_store};
use std::alloc::AllocError;
use std::process::Abort;
use std::test::Fail;

// A memory whose word at each address is the address, and that takes no store.
#[derive(Drop)]
struct Addresses;

const OWNER: Owner = Owner {
    letter: 'A',
    depth: 0,
};

impl Memory for Addresses {
    ghost meaning = { λ _. record { kind = λ p. (if nat_lt 0xFFFFFF p.address then Absent else Fixed); word = λ p. p.address % 0x1000000; owner = λ _. record { letter = 65; depth = 0 } } };

    ghost words_fit = { Prim.search rules };

    ghost high_addresses_are_absent = { Prim.search rules };

    fn kind(&self, place: Place) -> Kind {
        if place.address > 0xFF_FFFF {
            Kind::Absent
        } else {
            Kind::Fixed
        }
    }

    fn load(&mut self, place: Place) -> Result<u32, Fault> {
        if place.address > 0xFF_FFFF {
            return Err(OWNER.fault(Refusal::AbsentLoad, place));
        }
        Ok(place.address % 0x100_0000)
    }

    fn store(&mut self, place: Place, word: u32) -> Result<(), Fault> {
        may_store(self.kind(place), word).map_err(|cause| OWNER.fault(cause, place))
    }
}

fn lines_in(rt: &HostRuntime, input: &[u8]) -> Result<usize, AllocError> {
    let forms = requests(rt.alloc(), input)?;
    Ok(forms.len())
}

// Whether the answer to line 7 is written as that text.
fn writes(rt: &(impl Abort + AllocGlobal), answer: Answer, text: &str) -> Result<(), Fail> {
    let numbered = Numbered { line: 7, answer };
    let line = format!(in rt.alloc(); "{numbered}")?;
    assert!(rt; line.as_str() == text);
    Ok(())
}

// Whether that text is the listing of the input.
fn lists(rt: &(impl Abort + AllocGlobal), input: &[u8], text: &str) -> Result<(), Fail> {
    let listed = listing(rt.alloc(), &mut Addresses, input)?;
    assert!(rt; listed.as_str() == text);
    Ok(())
}

#[test]
fn answers_are_written(rt: HostRuntime) -> Result<(), Fail> {
    let place = Place {
        space: Space::Y,
        address: 0x101,
    };
    let absent = Answer::Fault(OWNER.fault(Refusal::AbsentLoad, place));
    let large = Answer::Fault(OWNER.fault(Refusal::ValueTooLarge, place));
    writes(&rt, Answer::Done, "(ok)")?;
    writes(&rt, Answer::Word(0xAA), "(word 0000AA)")?;
    writes(&rt, absent, "(refused 13 at 7 (y 000101) A 0)")?;
    writes(&rt, large, "(refused 2 at 7)")?;
    writes(&rt, Answer::NoForm, "(refused 16 at 7)")
}

#[test]
fn forms_are_answered_in_turn(rt: HostRuntime) -> Result<(), Fail> {
    let place = Place {
        space: Space::X,
        address: 0xABC,
    };
    let forms = [Some(Form::Load(place)), Some(Form::Store(place, 1)), None];
    let answers = answer_all(rt.alloc(), &mut Addresses, &forms)?;
    let refused = Answer::Fault(OWNER.fault(Refusal::FixedStore, place));
    let wanted = [Answer::Word(0xABC), refused, Answer::NoForm];
    assert!(rt; answers.as_slice() == wanted.as_slice());
    Ok(())
}

#[test]
fn short_scripts(rt: HostRuntime) -> Result<(), Fail> {
    let mut input = vec![in rt.alloc(); b'x'; 80]?;
    input.push(b'\n')?;
    input.extend_from_slice(&[b'x'; 81])?;
    lists(&rt, &input, "(refused 16 at 1)\n(refused 16 at 2)\n")?;
    lists(&rt, b"a\n\n", "(refused 16 at 1)\n(refused 16 at 2)\n")?;
    lists(&rt, b"", "")
}

#[test]
fn only_the_first_99999_lines_are_read(rt: HostRuntime) -> Result<(), Fail> {
    let feeds = vec![in rt.alloc(); b'\n'; 100_000]?;
    assert!(rt; lines_in(&rt, &feeds)? == 99_999);
    assert!(rt; lines_in(&rt, &feeds[0..99_999])? == 99_999);
    Ok(())
}
