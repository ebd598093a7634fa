// One operation of the card, run on the store: the call that it stands for, and what is printed of the answer.
ghost use Rattle.std.specs.Prelude.{◌≡◌, ◌*◌, ◌≤◌, length};
ghost use Rattle.layout.specs.Limits.{event_size};
ghost use Rattle.promises.specs.Answers.{numbers, flat};
ghost use Rattle.promises.specs.Calls.{Promised};
ghost use Rattle.card.specs.Running.{call_of, out_by, report_of, Ran};

use print::{Out, Report};
use promises::{Answer, Flat, Refusal, numbers_of};
use text::line::Op;

// What is printed as the answer: none on a refusal, else a number, or a value and its decider.
#[tactic(auto, unfolding(crate::specs::Running::out_by))]
fn answer_of(n: Flat) -> Option<Out>
    ensures { result ≡ out_by n.code n.out n.by }
{
    if n.code != 0 {
        return None;
    }
    Some(match n.by {
        Some(by) => Out::Value {
            value: n.out,
            by: u32::from(by),
        },
        None => Out::Number(n.out),
    })
}

// What is printed of an answer to the operation with this number.
#[tactic(auto, unfolding(crate::specs::Running::report_of))]
fn reported(op: u32, a: Result<Answer, Refusal>) -> Report
    ensures { result ≡ report_of op (flat (numbers a)) }
{
    let n = numbers_of(a);
    Report {
        op,
        code: u32::from(n.code),
        out: answer_of(n),
        moves: u32::from(n.moves),
        events: u32::from(n.events),
    }
}

// The call that the operation stands for.
fn call(op: Op, store: &mut [u8], trace: &mut [u8]) -> Result<Answer, Refusal>
    ensures { Promised (call_of op) store.old trace.old store.new trace.new (numbers result) }
{
    match op {
        Op::Bind(x, v) => store::bind(store, x, v),
        Op::Wind(p, q) => store::wind(store, trace, p, q),
        Op::Look(x) => store::look(store, x),
        Op::Set(x, v) => store::set(store, x, v),
        Op::Here => store::here(store),
        Op::Goto(a) => store::goto(store, trace, a),
        Op::Back => store::back(store, trace),
        Op::Peek(a, x) => store::peek(store, a, x),
    }
}

// The operation with this number is run.
pub fn run(number: u32, op: Op, store: &mut [u8], trace: &mut [u8]) -> Report
    ensures ran { Ran number op store.old trace.old store.new trace.new result }
    ensures event_size_in_bounds { result.events * event_size ≤ length trace.old }
{
    reported(number, call(op, store, trace))
}
