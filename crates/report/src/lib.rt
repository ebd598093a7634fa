// What a program over one card reads, and what it cannot read or write: every program says so in the same words.
#![tactic(auto)]

ghost use Rattle.std.specs.Prelude.{◌≡◌, ℕ, ◌≤◌, ◌+◌, length, Ok, Err};
ghost use Rattle.text.specs.Limits.{max_bytes};
ghost use Rattle.report.specs.declared.Failure.TheVariants as Failure;
ghost use Rattle.report.specs.Input.{Within};

use std::io::{Cursor, Read, Write};
use std::{fmt, io};
use text::Card;

// What could not be done, and the system's error.
#[derive(Drop)]
pub enum Failure {
    Read(io::Error),
    Write(io::Error),
}

// The words of an error: its number, which std puts behind them, is no part of them.
fn words(text: &[u8]) -> &str {
    let said = str::from_utf8(text).unwrap_or("");
    said.split_once(" (os error ")
        .map_or(said, |(words, _)| words)
}

impl fmt::Display for Failure {
    fn fmt<W: fmt::Write>(&self, f: &mut fmt::Formatter<W>) -> fmt::Result {
        let (what, error) = match self {
            Failure::Read(error) => ("read", error),
            Failure::Write(error) => ("write", error),
        };
        // on the stack: a text on the heap could fail where a failure is told
        let mut text = [0u8; 256];
        let mut line = Cursor::new(&mut text[..]);
        let _ = write!(line, "{error}");
        let end = (line.position() as usize).min(256);
        write!(f, "cannot {what}: {}", words(&text[..end]))
    }
}

// Reads until the buffer is full or the input ends. The answer is how many bytes stand at the buffer's front, which std's read_exact does
// not say of an input that ends before.
pub fn read_all<R: Read>(input: &mut R, buf: &mut [u8]) -> io::Result<usize>
    ensures { Within buf.new result }
{
    let mut done: usize = 0;
    while done < buf.len() {
        let n = input.read(&mut buf[done..])?;
        if n == 0 {
            break;
        }
        done += n;
    }
    Ok(done)
}

// Reads a card and does the work on it, which writes. One byte more is read than a card may have, so that one that is too long is seen.
pub fn over_card<R: Read, W: Write, F: FnOnce(&[u8], &mut W) -> io::Result<usize>>(
    input: &mut R,
    out: &mut W,
    work: F,
) -> Result<usize, Failure>
    requires { F.IsAlwaysCallable work }
    ensures done { (n : ℕ) → result ≡ Ok n → (card : _) × (to : _) × (to' : _) × F.post work card to (Ok n) to' × (length card.now ≤ max_bytes + 1) }
    ensures lost { (e : _) → result ≡ Err (Failure.Write e) → (card : _) × (to : _) × (to' : _) × F.post work card to (Err e) to' × (length card.now ≤ max_bytes + 1) }
{
    let mut card = [0u8; Card::BYTES + 1];
    let n = read_all(input, &mut card).map_err(Failure::Read)?;
    work(&card[..n], out).map_err(Failure::Write)
}
