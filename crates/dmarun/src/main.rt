// dmarun reads a script from standard input, carries it out over the console's memory, and writes the listing.
#![tactic(auto)]

use script::listing::listing;
use std::io;
use std::io::{Read, Write};
use std::process::ExitCode;

mod console;

// Nothing is written before the whole listing is made, so that a failure never leaves part of one.
fn run(rt: &HostRuntime) -> io::Result<()> {
    let heap = rt.alloc();
    let mut input = Vec::new(heap);
    rt.stdin().read_to_end(&mut input)?;
    let mut memory = console::memory(heap)?;
    let text = listing(heap, &mut memory, &input)?;
    let mut out = rt.stdout();
    out.write_all(text.as_bytes())?;
    out.flush()
}

fn main(rt: HostRuntime) -> ExitCode {
    match run(&rt) {
        Ok(()) => ExitCode::SUCCESS,
        Err(error) => {
            let _ = eprintln!(rt; "dmarun: {error}");
            ExitCode::FAILURE
        }
    }
}
