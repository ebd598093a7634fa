// One line of the card: what it says, and its reading by the table of key words.
ghost use Rattle.std.specs.Prelude.{◌<◌, length, MatchOption};
ghost use Rattle.text.specs.Finds.{Finds};
ghost use Rattle.text.specs.Lines.{Leads, FirstAt, Good, Pair, Says};

use crate::Card;
use crate::decimal::{number_of, read_natural, read_whole};
use crate::keys::{Word, find_key};
use layout::Store;

#[derive(Clone, Copy, Debug, PartialEq, Eq)]
pub enum Op {
    Bind(u32, i32),
    Wind(u16, u16),
    Look(u32),
    Set(u32, i32),
    Here,
    Goto(u32),
    Back,
    Peek(u32, u32),
}

// A heading or an operation. A top value may be none.
#[derive(Clone, Copy, Debug, PartialEq, Eq)]
pub enum Line {
    Vars(u32),
    Nodes(u32),
    Room(u32),
    Top(Option<i32>),
    Do(Op),
}

// The place of the first b in s.
fn find_byte(s: &[u8], b: u8) -> Option<usize>
    ensures { MatchOption result (FirstAt b s.now (length s.now)) (λ i. (i < length s.now) × FirstAt b s.now i) }
{
    s.iter().position(|x| *x == b)
}

// A number and a value with a comma between them.
fn read_bound(s: &[u8]) -> Option<(u32, i32)>
    ensures { Finds (Pair s.now) result }
{
    let i = find_byte(s, b',')?;
    let x = read_natural(&s[..i], 0, Card::NUMBER)?;
    let v = read_whole(&s[i + 1..])?;
    Some((x, v))
}

// The top value that s gives.
fn read_top(s: &[u8]) -> Option<Line>
    ensures { Finds (Says 1 Word.Top s.now) result }
{
    match s {
        b"none" => Some(Line::Top(None)),
        _ => read_whole(s).map(|v| Line::Top(Some(v))),
    }
}

// The lines without a number: their operands are fixed words.
fn read_fixed(word: Word, s: &[u8]) -> Option<Line>
    ensures { Finds (Says 0 word s.now) result }
{
    match (word, s) {
        (Word::Here, b"now") => Some(Line::Do(Op::Here)),
        (Word::Back, b"1") => Some(Line::Do(Op::Back)),
        _ => None,
    }
}

// The lines with one number.
fn read_one(word: Word, s: &[u8]) -> Option<Line>
    ensures { Finds (Says 1 word s.now) result }
{
    match word {
        Word::Vars => read_natural(s, 1, Store::VARS as u32).map(Line::Vars),
        Word::Nodes => read_natural(s, 1, Store::NODES as u32).map(Line::Nodes),
        Word::Room => read_natural(s, 0, Store::NODES as u32 - 1).map(Line::Room),
        Word::Look => read_natural(s, 0, Card::NUMBER).map(|x| Line::Do(Op::Look(x))),
        Word::Goto => read_natural(s, 0, Card::NUMBER).map(|a| Line::Do(Op::Goto(a))),
        Word::Top => read_top(s),
        _ => None,
    }
}

// The lines with two numbers.
fn read_two(word: Word, s: &[u8]) -> Option<Line>
    ensures { Finds (Says 2 word s.now) result }
{
    let (x, v) = read_bound(s)?;
    match word {
        Word::Bind => Some(Line::Do(Op::Bind(x, v))),
        Word::Set => Some(Line::Do(Op::Set(x, v))),
        Word::Wind => {
            let q = number_of(v, Card::NUMBER)?;
            Some(Line::Do(Op::Wind(x as u16, q as u16)))
        },
        Word::Peek => {
            let y = number_of(v, Card::NUMBER)?;
            Some(Line::Do(Op::Peek(x, y)))
        },
        _ => None,
    }
}

// The line whose text is s, without its LF.
fn read_line(s: &[u8]) -> Option<Line>
    ensures { Finds (Good s.now) result }
{
    let key = find_key(s)?;
    let operands = &s[key.text.len()..];
    match key.numbers {
        0 => read_fixed(key.word, operands),
        1 => read_one(key.word, operands),
        _ => read_two(key.word, operands),
    }
}

// The good line that s begins with, and how many bytes it takes, its LF counted.
pub fn next_line(s: &[u8]) -> Option<(Line, usize)>
    ensures { Finds (Leads s.now) result }
{
    let i = find_byte(s, b'\n')?;
    let line = read_line(&s[..i])?;
    Some((line, i + 1))
}
