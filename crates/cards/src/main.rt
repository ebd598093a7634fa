// Runs the cards of data/ that its arguments name, each under its name: the examples, run in the gate. Of a card whose name begins
// with why_ the last peek is explained too.
#![tactic(auto)]

use report::Failure;
use std::env::FillError;
use std::fs::File;
use std::io;
use std::io::Write;
use std::rt::Env;

// A card under its name.
fn write<W: Write>(name: &[u8], card: &[u8], out: &mut W) -> io::Result<usize> {
    out.write_all(name)?;
    out.write_all(b"\n")?;
    if name.starts_with(b"why_") {
        why::why(card, out)
    } else {
        play::play(card, out)
    }
}

// The file of this name; std's names are text.
fn open(rt: &HostRuntime, name: &[u8]) -> io::Result<File> {
    let path = str::from_utf8(name).map_err(|_| io::ErrorKind::InvalidInput)?;
    File::open(rt, path)
}

// The card of this name.
fn run(rt: &HostRuntime, name: &[u8]) -> Result<usize, Failure> {
    let mut file = open(rt, name).map_err(Failure::Read)?;
    report::over_card(
        &mut file,
        &mut rt.stdout(),
        |card, out| write(name, card, out),
    )
}

// One line on standard error; names are bytes there. Where even that cannot be written, nobody is left to be told.
fn say(rt: &HostRuntime, who: &[u8], failure: Failure) {
    let _ = rt.stderr().write_all(who);
    let _ = eprintln!(rt; ": {failure}");
}

// The cards one by one: one that cannot be read is passed over, and none is run behind output that is lost.
fn main(rt: HostRuntime) {
    for i in 1..33usize {
        let mut buf = [0u8; 4096];
        let k = match rt.arg(i, &mut buf) {
            Ok(k) => k,
            Err(FillError::TooLong) => 0,
            Err(FillError::NotPresent) => return,
        };
        let name = &buf[..k];
        match run(&rt, name) {
            Ok(_) => {}
            Err(Failure::Read(error)) => say(&rt, name, Failure::Read(error)),
            Err(Failure::Write(error)) => {
                say(&rt, b"cards", Failure::Write(error));
                return;
            }
        }
    }
}
