// Runs one card from its bytes, and writes what it prints to a writer, page by page. The store may be lent, so that a caller has
// it as the card's last operation left it.
#![tactic(auto)]

mod page;
mod progress;
mod reading;

ghost use Rattle.std.specs.Prelude.{◌≡◌, List, [], ℕ, ◌+◌, ◌<◌, ◌^◌, length};
ghost use Rattle.card.specs.Cards.{Passes, StopsAt};
ghost use Rattle.play.specs.Output.{Stands};
ghost use Rattle.play.specs.Steps.{Ready, SoFar, Begun, HandedOn, AllOf, AllLeft};

use crate::page::Page;
use crate::progress::Progress;
use crate::reading::{Heads, read_heads, read_tops};
use card::check::{BadLine, check};
use layout::Store;
use print::{Print, put_bad};
use std::io;
use std::io::Write;

// The largest store, the largest top cells and the largest trace of a card.
#[derive(Drop)]
pub struct Sizes {}

impl Sizes {
    pub const STORE: usize = Store::HEADER + Store::CELL * Store::VARS + Store::NODE * Store::NODES;

    pub const TOPS: usize = Store::BARE * Store::VARS;

    pub const TRACE: usize = Store::EVENT * (Store::NODES - 1);
}

// The only function that writes: the text, which stands in the card's output at the place from (for which the card is handed in). The
// answer is the place behind it.
fn hand<W: Write>(card: &[u8], from: usize, text: &[u8], out: &mut W) -> io::Result<usize>
    requires { Stands card.now from text.now × (from + length text.now < 2 ^ 64) }
    ensures { HandedOn (from + length text.now) result }
{
    out.write_all(text)?;
    Ok(from + text.len())
}

// What is printed from a beginning to the end, page by page.
fn write_pages<W: Write>(
    start: Progress,
    card: &[u8],
    store: &mut [u8],
    trace: &mut [u8],
    out: &mut W,
) -> io::Result<usize>
    requires { Ready card.now trace.old start × SoFar card.now [] start store.old trace.old }
    ensures { AllLeft card.now store.new result }
{
    let mut page = [0u8; Page::BYTES];
    let mut progress = start;
    let mut done: usize = 0;
    // how many pages there are is not known before
    while !progress.is_ended(card) {
        progress.fill(card, store, trace, &mut page);
        done = hand(card, done, &page[..progress.used], out)?;
    }
    Ok(done)
}

// The lines behind the headings, on lent buffers: the top values, the store as it is opened, the operations.
fn run_in<W: Write>(
    heads: Heads,
    card: &[u8],
    tops: &mut [u8],
    store: &mut [u8],
    trace: &mut [u8],
    out: &mut W,
) -> io::Result<usize>
    requires { Begun card.now heads (length tops.old) (length store.old) (length trace.old) }
    ensures { AllLeft card.now store.new result }
{
    let cells = Store::BARE * heads.vars as usize;
    let room = Store::EVENT * heads.room as usize;
    let at = read_tops(card, heads.at, &mut tops[..cells]);
    let _ = store::open(heads.vars, heads.nodes, &tops[..cells], store);
    let start = Progress {
        at,
        number: 0,
        told: 0,
        left: 0,
        used: 0,
    };
    write_pages(start, card, store, &mut trace[..room], out)
}

// A good card, run on buffers that are large enough for any.
fn run_card<W: Write>(card: &[u8], store: &mut [u8; Sizes::STORE], out: &mut W) -> io::Result<usize>
    requires { Passes card.now }
    ensures { AllLeft card.now store.new result }
{
    let Some(heads) = read_heads(card) else {
        // a card that passes does not come here
        return Err(io::Error::from(io::ErrorKind::InvalidData));
    };
    let mut tops = [0u8; Sizes::TOPS];
    let mut trace = [0u8; Sizes::TRACE];
    run_in(heads, card, &mut tops, store, &mut trace, out)
}

// The one line of a card that is no good.
fn refuse<W: Write>(card: &[u8], line: u32, out: &mut W) -> io::Result<usize>
    requires { StopsAt card.now line }
    ensures { (s : List ℕ) → AllLeft card.now s result }
{
    let mut text = [0u8; Print::LINE];
    let n = put_bad(line, &mut text);
    hand(card, 0, &text[..n], out)
}

// The card is checked as a whole before anything is run, and run on the lent store. Nothing more is written behind a write that failed.
pub fn play_in<W: Write>(
    card: &[u8],
    store: &mut [u8; Sizes::STORE],
    out: &mut W,
) -> io::Result<usize>
    ensures { AllLeft card.now store.new result }
{
    match check(card) {
        Ok(()) => run_card(card, store, out),
        Err(BadLine(line)) => refuse(card, line, out),
    }
}

// The same on a store of its own.
pub fn play<W: Write>(card: &[u8], out: &mut W) -> io::Result<usize>
    ensures { AllOf card.now result }
{
    let mut store = [0u8; Sizes::STORE];
    play_in(card, &mut store, out)
}
