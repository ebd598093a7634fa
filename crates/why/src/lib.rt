// Why a card's last peek found what it found: the card is run, and then the value is explained from the store that it leaves.
#![tactic(auto)]

pub mod asked;
pub mod explain;

ghost use Rattle.std.specs.Prelude.{◌≡◌, ◌+◌, ◌≤◌, ◌<◌, ◌^◌, length};
ghost use Rattle.why.specs.Asking.{peek, bad, Asks};
ghost use Rattle.why.specs.Saying.{Ends, AllSaid};

use crate::asked::{Peek, asked};
use crate::explain::{Explanation, explain};
use card::check::BadLine;
use play::{Sizes, play_in};
use print::{Print, put_bad};
use std::io;
use std::io::Write;

// The only function that writes here: the text, which ends the output behind the place from (for which the card is handed in).
// Beside play's, since its clause Ends, and no less, is what may be written here.
fn hand<W: Write>(card: &[u8], from: usize, text: &[u8], out: &mut W) -> io::Result<usize>
    requires { Ends card.now from text.now × (from + length text.now < 2 ^ 64) }
    ensures { AllSaid card.now result }
{
    out.write_all(text)?;
    Ok(from + text.len())
}

// The one line of a card that asks nothing. Beside play's for the same clause.
fn refuse<W: Write>(card: &[u8], line: u32, out: &mut W) -> io::Result<usize>
    requires { Asks card.now (bad line) }
    ensures { AllSaid card.now result }
{
    let mut text = [0u8; Print::LINE];
    let n = put_bad(line, &mut text);
    hand(card, 0, &text[..n], out)
}

// A card that asks for x at a: what it prints, and then why it is so.
fn answer<W: Write>(card: &[u8], a: u32, x: u32, out: &mut W) -> io::Result<usize>
    requires { Asks card.now (peek a x) }
    ensures { AllSaid card.now result }
{
    let mut store = [0u8; Sizes::STORE];
    let n = play_in(card, &mut store, out)?;
    let mut text = [0u8; Explanation::BYTES];
    let k = explain(&store, a, x, &mut text);
    hand(card, n, &text[..k], out)
}

// The card is run and its last peek explained. Nothing is run where it asks nothing, and nothing more is written behind a write that failed.
pub fn why<W: Write>(card: &[u8], out: &mut W) -> io::Result<usize>
    ensures { AllSaid card.now result }
{
    match asked(card) {
        Ok(Peek { env, var }) => answer(card, env, var, out),
        Err(BadLine(line)) => refuse(card, line, out),
    }
}
