// The lines that a run prints, each written from the front of a lent line buffer; the answer is its length. Numbers are written by decimals of
// this crate's own, digit by digit by division by ten, as document 02 (W6) demands, so `impl Display`, which would use the library's, serves no line.
#![tactic(auto)]

mod writing;

ghost use Rattle.std.specs.Prelude.{◌+◌, ◌≤◌, ◌≡◌, length};
ghost use Rattle.print.specs.Printed.{out_text, by_of, by_text, kind_text, op_line, event_line, bad_line, longest};
ghost use Rattle.print.specs.Explaining.{bind_line, wind_line, top_line, shadowed_line, top_value_line, unbound_line, Puts};
ghost use Rattle.print.specs.Writing.{Wrote, Adds};

use crate::writing::Pen;

// The longest line.
#[derive(Drop)]
pub struct Print {}

impl Print {
    pub const LINE: usize = 96;
}

// Each function below that puts a line promises that it is no longer than the longest, since its callers put it where so much is free.

// What a call that is not refused answers: a number, or a value and the number of its decider. What a binding holds is a number, or none.
#[derive(Clone, Copy)]
pub enum Out {
    Number(i32),
    Value { value: i32, by: u32 },
}

// What is printed of one operation: its number, the answer number, the answer with its decider (none on a refusal), moves and events. The
// number stands beside the answer, since the line has both (`op_line`), and `Plain` says when there is one.
#[derive(Clone, Copy)]
pub struct Report {
    pub op: u32,
    pub code: u32,
    pub out: Option<Out>,
    pub moves: u32,
    pub events: u32,
}

impl Pen<'_> {
    // The answer, or what a binding holds; or none.
    fn answer(&mut self, out: Option<Out>)
        requires { self.old.at + 11 ≤ longest }
        ensures adds { Adds self.old (out_text out) self.new }
        ensures upper_bound { self.new.at ≤ self.old.at + 11 }
    {
        match out {
            None => self.text(b"none"),
            Some(Out::Number(n)) => self.whole(n),
            Some(Out::Value { value, .. }) => self.whole(value),
        }
    }

    // The end of an operation's line: the decider of a value, or none.
    fn decider(&mut self, out: Option<Out>)
        requires { self.old.at + 15 ≤ longest }
        ensures adds { Adds self.old (by_text (by_of out)) self.new }
        ensures upper_bound { self.new.at ≤ self.old.at + 15 }
    {
        match out {
            None | Some(Out::Number(_)) => self.text(b" by=none\n"),
            Some(Out::Value { by, .. }) => {
                self.field(b" by=", by);
                self.text(b"\n")
            }
        }
    }
}

// The line of one operation.
pub fn put_op(report: Report, out: &mut [u8; Print::LINE]) -> usize
    ensures wrote { Wrote out.old 0 (op_line report) out.new result }
    ensures upper_bound { result ≤ longest }
{
    let mut pen = Pen::new(out);
    pen.field(b"op=", report.op);
    pen.field(b" code=", report.code);
    pen.text(b" out=");
    pen.answer(report.out);
    pen.field(b" moves=", report.moves);
    pen.field(b" events=", report.events);
    pen.decider(report.out);
    pen.at
}

// The word of an event: its thunk is entered or left.
fn kind_word(entering: bool) -> &'static [u8; 6]
    ensures { result.now ≡ kind_text entering }
{
    if entering { b"enter=" } else { b"leave=" }
}

// The line of one trace event: the thunk entered or left, and its place.
pub fn put_event(entering: bool, thunk: u16, place: u32, out: &mut [u8; Print::LINE]) -> usize
    ensures wrote { Wrote out.old 0 (event_line entering thunk place) out.new result }
    ensures upper_bound { result ≤ longest }
{
    let mut pen = Pen::new(out);
    pen.field(kind_word(entering), u32::from(thunk));
    pen.field(b"@", place);
    pen.text(b"\n");
    pen.at
}

// The one line of a card that is no good: its first bad line, and the answer number for that.
pub fn put_bad(line: u32, out: &mut [u8; Print::LINE]) -> usize
    ensures wrote { Wrote out.old 0 (bad_line line) out.new result }
    ensures upper_bound { result ≤ longest }
{
    let mut pen = Pen::new(out);
    pen.field(b"line=", line);
    pen.text(b" code=9\n");
    pen.at
}

// The line of a binding: its number, its variable, the value that it holds or none.
pub fn put_bind(env: u32, x: u32, v: Option<Out>, out: &mut [u8; Print::LINE]) -> usize
    ensures wrote { Wrote out.old 0 (bind_line env x v) out.new result }
    ensures upper_bound { result ≤ longest }
{
    let mut pen = Pen::new(out);
    pen.field(b"env=", env);
    pen.field(b" bind=", x);
    pen.text(b",");
    pen.answer(v);
    pen.text(b"\n");
    pen.at
}

// The line of a wind: its number and its thunks.
pub fn put_wind(env: u32, p: u32, q: u32, out: &mut [u8; Print::LINE]) -> usize
    ensures wrote { Wrote out.old 0 (wind_line env p q) out.new result }
    ensures upper_bound { result ≤ longest }
{
    let mut pen = Pen::new(out);
    pen.field(b"env=", env);
    pen.field(b" wind=", p);
    pen.field(b",", q);
    pen.text(b"\n");
    pen.at
}

// The line of the top. It and the last line below are fixed texts; each keeps a function, since its promise names its line.
#[tactic(auto, unfolding(crate::specs::Explaining::top_line))]
pub fn put_top(out: &mut [u8; Print::LINE]) -> usize
    ensures wrote { Wrote out.old 0 top_line out.new result }
    ensures upper_bound { result ≤ longest }
{
    let mut pen = Pen::new(out);
    pen.text(b"env=0 top\n");
    pen.at
}

// The line of a binding behind the one that decides: its number, and the value that it holds or none.
pub fn put_shadowed(env: u32, v: Option<Out>, out: &mut [u8; Print::LINE]) -> usize
    ensures wrote { Wrote out.old 0 (shadowed_line env v) out.new result }
    ensures upper_bound { result ≤ longest }
{
    let mut pen = Pen::new(out);
    pen.field(b"shadowed=", env);
    pen.text(b" value=");
    pen.answer(v);
    pen.text(b"\n");
    pen.at
}

// The line of the top value, or none.
pub fn put_top_value(v: Option<Out>, out: &mut [u8; Print::LINE]) -> usize
    ensures wrote { Wrote out.old 0 (top_value_line v) out.new result }
    ensures upper_bound { result ≤ longest }
{
    let mut pen = Pen::new(out);
    pen.text(b"top=");
    pen.answer(v);
    pen.text(b"\n");
    pen.at
}

// The last line where no value was found.
#[tactic(auto, unfolding(crate::specs::Explaining::unbound_line))]
pub fn put_unbound(out: &mut [u8; Print::LINE]) -> usize
    ensures wrote { Wrote out.old 0 unbound_line out.new result }
    ensures upper_bound { result ≤ longest }
{
    let mut pen = Pen::new(out);
    pen.text(b"unbound\n");
    pen.at
}

// A line put behind a place of a text; where the text has no room for it there, nothing is put. The place stays beside the text, since
// the promise Puts names both for any text lent.
pub fn put_line(line: &[u8], out: &mut [u8], at: usize) -> usize
    ensures { Puts line.now out.old at out.new result }
{
    match at.checked_add(line.len()) {
        Some(end) if end <= out.len() => {
            out[at..end].copy_from_slice(line);
            end
        }
        _ => at,
    }
}
