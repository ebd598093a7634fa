// Text written into a lent line buffer: bytes, and plain decimals digit by digit, by division by ten.
ghost use Rattle.std.specs.Prelude.{◌≡◌, ◌+◌, ◌++◌, ◌≤◌, ◌%◌, length};
ghost use Rattle.text.specs.Decimal.{digit, decimal, whole};
ghost use Rattle.print.specs.Printed.{longest};
ghost use Rattle.print.specs.Writing.{Adds};

use crate::Print;

// The last digit of n, as a byte.
fn glyph(n: u32) -> u8
    ensures { result ≡ digit (n % 10) }
{
    b'0' + (n % 10) as u8
}

// How many digits n has: each division by ten takes one away (document 02, W6: a loop by hand, which the edits decimals_1 and decimals_2 hold).
fn count_places(n: u32) -> usize
    ensures { (result ≡ length (decimal n)) × (result ≤ 10) }
{
    let mut left = n;
    let mut k: usize = 0;
    loop {
        k += 1;
        left /= 10;
        if left == 0 {
            return k;
        }
    }
}

// Writes the digits of n over a part that is as long, the last one first (W6 too).
fn put_digits(n: u32, out: &mut [u8])
    requires { length out.old ≡ length (decimal n) }
    ensures { out.new ≡ decimal n }
{
    let mut rest = n;
    let mut p = out.len();
    loop {
        p -= 1;
        out[p] = glyph(rest);
        rest /= 10;
        if rest == 0 {
            return;
        }
    }
}

// A pen on a lent line: the place at is behind what is written.
#[derive(Drop)]
pub(crate) struct Pen<'a> {
    pub line: &'a mut [u8; Print::LINE],
    pub at: usize,
}

impl<'a> Pen<'a> {
    // A pen at the front of the line.
    pub fn new(line: &'a mut [u8; Print::LINE]) -> Pen<'a>
        ensures same_line { result.line.ghost_name ≡ line.entry.ghost_name }
        ensures at_front { (result.line.now ≡ line.old) × (result.at ≡ 0) }
    {
        Pen { line, at: 0 }
    }

    // A text. (No part of what lies behind a reference in a field can be lent: the line is lent on whole first.)
    pub fn text(&mut self, text: &[u8])
        requires { self.old.at + length text.now ≤ longest }
        ensures { Adds self.old text.now self.new }
    {
        let next = self.at + text.len();
        let line = &mut *self.line;
        line[self.at..next].copy_from_slice(text);
        self.at = next;
    }

    // A number in plain decimals.
    pub fn natural(&mut self, n: u32)
        requires { self.old.at + 10 ≤ longest }
        ensures adds { Adds self.old (decimal n) self.new }
        ensures upper_bound { self.new.at ≤ self.old.at + 10 }
    {
        let next = self.at + count_places(n);
        let line = &mut *self.line;
        put_digits(n, &mut line[self.at..next]);
        self.at = next;
    }

    // A value in plain decimals, with its sign where it is below 0.
    pub fn whole(&mut self, v: i32)
        requires { self.old.at + 11 ≤ longest }
        ensures adds { Adds self.old (whole v) self.new }
        ensures upper_bound { self.new.at ≤ self.old.at + 11 }
    {
        if v < 0 {
            self.text(b"-");
        }
        self.natural(v.unsigned_abs());
    }

    // A word and a number behind it.
    pub fn field(&mut self, word: &[u8], n: u32)
        requires { self.old.at + length word.now + 10 ≤ longest }
        ensures adds { Adds self.old (word.now ++ decimal n) self.new }
        ensures upper_bound { self.new.at ≤ self.old.at + length word.now + 10 }
    {
        self.text(word);
        self.natural(n);
    }
}
