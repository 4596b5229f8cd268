// Lines of the script language, and lines that are not.
use crate::form::Form;
use crate::reading::read;
use memory::place::{Place, Space};
use registers::register::Register;
use std::process::Abort;

fn all_read(rt: &impl Abort, lines: &[(&[u8], Form)]) {
    for (line, form) in lines {
        assert_eq!(rt; read(line), Some(*form));
    }
}

fn all_refused(rt: &impl Abort, lines: &[&[u8]]) {
    for line in lines {
        assert_eq!(rt; read(line), None);
    }
}

fn place(space: Space, address: u32) -> Place {
    Place { space, address }
}

#[test]
fn every_form_reads_back(rt: HostRuntime) {
    let lines: [(&[u8], Form); 10] = [
        (
            b"(store (x 000010) 0000AA)",
            Form::Store(place(Space::X, 0x10), 0xAA),
        ),
        (b"(load (y FFFFFF))", Form::Load(place(Space::Y, 0xFF_FFFF))),
        (b"(load (p 0A0B0C))", Form::Load(place(Space::P, 0x0A_0B0C))),
        (b"(set (dsr 0) 000020)", Form::Set(Register::Dsr(0), 0x20)),
        (b"(get (dcr 5))", Form::Get(Register::Dcr(5))),
        (b"(raise 10)", Form::Raise(10)),
        (b"(slot)", Form::Slot),
        (b"(serve 255)", Form::Serve(255)),
        (b"(stop)", Form::Stop),
        (b"(wake)", Form::Wake),
    ];
    all_read(&rt, &lines);
}

#[test]
fn every_register_reads_back(rt: HostRuntime) {
    let lines: [(&[u8], Form); 7] = [
        (b"(get (dsr 9))", Form::Get(Register::Dsr(9))),
        (b"(get (ddr 10))", Form::Get(Register::Ddr(10))),
        (b"(get (dco 199))", Form::Get(Register::Dco(199))),
        (b"(get (dcr 200))", Form::Get(Register::Dcr(200))),
        (b"(get (dor 3))", Form::Get(Register::Dor(3))),
        (b"(get (dstr))", Form::Get(Register::Dstr)),
        (b"(set (dstr) 000000)", Form::Set(Register::Dstr, 0)),
    ];
    all_read(&rt, &lines);
}

#[test]
fn numbers_are_exact(rt: HostRuntime) {
    let lines: [&[u8]; 11] = [
        b"(raise 00)",
        b"(raise 01)",
        b"(raise 256)",
        b"(raise 999)",
        b"(raise -1)",
        b"(raise )",
        b"(load (x 00000a))",
        b"(load (x 00010))",
        b"(load (x 0000010))",
        b"(get (dstr 0))",
        b"(get (dsr))",
    ];
    all_refused(&rt, &lines);
}

#[test]
fn nothing_is_left_over(rt: HostRuntime) {
    let lines: [&[u8]; 10] = [
        b"",
        b"(stop) ",
        b"(stop)\r",
        b"(stop",
        b"\t(stop)",
        b"(raise 10",
        b"(raise  10)",
        b"(load (x 000010)",
        b"(load (z 000010))",
        b"(store (x 000010)  0000AA)",
    ];
    all_refused(&rt, &lines);
}
