// The store: bindings and winds on a tree in lent bytes, and the walk of its focus. Fourteen calls, and nothing else is public.
#![tactic(auto)]

ghost use Rattle.std.specs.Prelude.{◌≡◌, false, [], ◌∷◌, ◌<◌, ◌≤◌, length};
ghost use Rattle.layout.specs.Limits.{none_n, event_size};
ghost use Rattle.layout.specs.Records.{vars, focus, target};
ghost use Rattle.layout.specs.Sound.{Says, Whole, Sound};
ghost use Rattle.layout.specs.View.{as_cell};
ghost use Rattle.layout.specs.Made.{IsMade, next_of, IsFull};
ghost use Rattle.layout.specs.Writes.{set_b, bind_b, wind_b};
ghost use Rattle.layout.specs.Events.{told};
ghost use Rattle.layout.specs.Events.{events_to};
ghost use Rattle.promises.specs.declared.Answer.TheVariants as Answer;
ghost use Rattle.promises.specs.Answers.{numbers, numbers_told};
ghost use Rattle.store.specs.Cells.{of_cell};
ghost use Rattle.promises.specs.Promises.{entering, room_row, Switches, Openable, OpenPromise, BindPromise, WindPromise, LookPromise, SetPromise, HerePromise, GotoPromise, BackPromise, PeekPromise, FarPromise, TellPromise, BeginPromise, StepPromise, DropPromise};

use layout::{Event, Store};
use promises::{Answer, Environment, New, Refusal, Seen, Switch};

mod apart;
mod check;
mod kinds;
mod made;
mod moves;
mod needs;
mod number;
mod opening;
mod path;
mod read;
mod records;
mod stride;
mod trace;
mod what;

// A cell as an answer: its value with the decider, or that it has none.
fn answered(c: [u8; Store::BARE], by: u16) -> Result<Answer, Refusal>
    ensures { result ≡ of_cell (as_cell c) by }
{
    let value = needs::value(c)?;
    Ok(Answer::Value(Seen { value, by }))
}

// The focus.
pub fn here(s: &[u8]) -> Result<Answer, Refusal>
    ensures { HerePromise s.now s.now (numbers result) }
{
    needs::sound(s)?;
    Ok(Answer::Number(records::focus_of(s)))
}

// The value of x at the focus, and its decider.
pub fn look(s: &[u8], x: u32) -> Result<Answer, Refusal>
    ensures { LookPromise s.now x s.now (numbers result) }
{
    needs::sound(s)?;
    let y = needs::variable(s, x)?;
    let f = records::focus_of(s);
    let by = read::decider_of(s, f, y);
    answered(records::bare_of(records::cell(s, y)), by)
}

// The cell of x takes the value v.
fn set_at(s: &mut [u8], x: u16, v: i32) -> Answer
    requires { Whole s.old × (x < vars s.old) }
    ensures { (result ≡ Answer.Number (focus s.old)) × (s.new ≡ set_b s.old x v) }
{
    let f = records::focus_of(s);
    records::set_cell(s, x, layout::value_cell(v));
    Answer::Number(f)
}

// The value of x at the focus becomes v: of the binding that decides it, or the top value.
pub fn set(s: &mut [u8], x: u32, v: i32) -> Result<Answer, Refusal>
    ensures { SetPromise s.old x v s.new (numbers result) }
{
    needs::sound(s)?;
    let y = needs::variable(s, x)?;
    needs::value(records::bare_of(records::cell(s, y)))?;
    Ok(set_at(s, y, v))
}

// A binding of x to v: it stores the cell of x, and the cell takes v.
fn bind_at(s: &mut [u8], x: u16, v: i32) -> Answer
    requires { Whole s.old × ((x < vars s.old) × (IsFull s.old → ⊥)) }
    ensures { (result ≡ Answer.Made (record { node = next_of s.old; events = 0 })) × (s.new ≡ bind_b s.old x v) }
{
    let c = records::bare_of(records::cell(s, x));
    let n = made::grow(s, 3, x, 0, c);
    records::set_cell(s, x, layout::value_cell(v));
    Answer::Made(New { node: n, events: 0 })
}

// A new binding of x to v, child of the focus, becomes the focus.
pub fn bind(s: &mut [u8], x: u32, v: i32) -> Result<Answer, Refusal>
    ensures { BindPromise s.old x v s.new (numbers result) }
{
    needs::sound(s)?;
    needs::rest(s)?;
    let y = needs::variable(s, x)?;
    needs::space(s)?;
    Ok(bind_at(s, y, v))
}

// The value of x at a, and its decider, with nothing moved.
pub fn peek(s: &[u8], a: u32, x: u32) -> Result<Answer, Refusal>
    ensures { PeekPromise s.now a x s.now (numbers result) }
{
    needs::sound(s)?;
    let y = needs::variable(s, x)?;
    let b = needs::environment(s, a)?;
    let found = read::find(s, b, y);
    let c = found.cell;
    answered(c, found.by)
}

// How far a and b are apart, with nothing moved.
pub fn far(s: &[u8], a: u32, b: u32) -> Result<Answer, Refusal>
    ensures { FarPromise s.now a b s.now (numbers result) }
{
    needs::sound(s)?;
    let c = needs::environment(s, a)?;
    let d = needs::environment(s, b)?;
    Ok(Answer::Number(apart::between(s, c, d)))
}

// What the environment a is, with nothing moved.
pub fn tell(s: &[u8], a: u32) -> Result<Environment, Refusal>
    ensures { TellPromise s.now a s.now (numbers_told result) }
{
    needs::sound(s)?;
    let n = needs::environment(s, a)?;
    Ok(what::environment(s, n))
}

// A wind and its one event, entering p at the focus.
fn wind_at(s: &mut [u8], t: &mut [u8], p: u16, q: u16) -> Answer
    requires whole { Whole s.old × (IsFull s.old → ⊥) }
    requires event_size_in_bounds { event_size ≤ length t.old }
    ensures value { result ≡ Answer.Made (record { node = next_of s.old; events = 1 }) }
    ensures s_after { (s.new ≡ wind_b s.old p q) × (t.new ≡ told (entering s.old p) t.old) }
{
    let entered = Event {
        entering: true,
        thunk: p,
        place: records::focus_of(s),
    };
    records::note(t, 0, entered);
    let n = made::grow(s, 5, p, q, [0; Store::BARE]);
    Answer::Made(New { node: n, events: 1 })
}

// A new wind, child of the focus, becomes the focus.
pub fn wind(s: &mut [u8], t: &mut [u8], p: u16, q: u16) -> Result<Answer, Refusal>
    ensures { WindPromise s.old t.old p q s.new t.new (numbers result) }
{
    needs::sound(s)?;
    needs::rest(s)?;
    needs::space(s)?;
    needs::room(t, 1)?;
    Ok(wind_at(s, t, p, q))
}

// The focus moves to a: surveyed first, then told, then walked.
fn switch_to(s: &mut [u8], t: &mut [u8], a: u16) -> Result<Answer, Refusal>
    requires { Sound s.old × ((target s.old ≡ none_n) × IsMade s.old a) }
    ensures { Switches s.old t.old a s.new t.new (room_row t.old (events_to s.old a) ∷ []) (numbers result) }
{
    let way = trace::survey(s, a);
    let meet = way.at;
    let events = way.events;
    needs::room(t, events)?;
    trace::tell(s, t, a, meet, events);
    moves::walk(s, a);
    Ok(Answer::Switched(Switch {
        focus: a,
        moves: way.moves as u16,
        events: events as u16,
    }))
}

// The focus moves to a.
pub fn goto(s: &mut [u8], t: &mut [u8], a: u32) -> Result<Answer, Refusal>
    ensures { GotoPromise s.old t.old a s.new t.new (numbers result) }
{
    needs::sound(s)?;
    needs::rest(s)?;
    let b = needs::environment(s, a)?;
    switch_to(s, t, b)
}

// The focus moves to its parent.
pub fn back(s: &mut [u8], t: &mut [u8]) -> Result<Answer, Refusal>
    ensures { BackPromise s.old t.old s.new t.new (numbers result) }
{
    needs::sound(s)?;
    needs::rest(s)?;
    let f = records::focus_of(s);
    if f == 0 {
        return Err(Refusal::Top);
    }
    let up = records::parent_of(s, f);
    switch_to(s, t, up)
}

// A walk to a is begun, and no move made.
pub fn begin(s: &mut [u8], a: u32) -> Result<Answer, Refusal>
    ensures { BeginPromise s.old a s.new (numbers result) }
{
    needs::sound(s)?;
    needs::rest(s)?;
    let b = needs::environment(s, a)?;
    let f = records::focus_of(s);
    records::set_target(s, b);
    Ok(Answer::Number(f))
}

// The walk goes on, up to its next event or to its target.
pub fn step(s: &mut [u8]) -> Result<Answer, Refusal>
    ensures { StepPromise s.old s.new (numbers result) }
{
    needs::sound(s)?;
    needs::walk(s)?;
    Ok(stride::go_on(s))
}

// The walk is over, and the focus stays.
pub fn drop(s: &mut [u8]) -> Result<Answer, Refusal>
    ensures { DropPromise s.old s.new (numbers result) }
{
    needs::sound(s)?;
    needs::walk(s)?;
    let f = records::focus_of(s);
    stride::end(s);
    Ok(Answer::Number(f))
}

// Whether open may write: document 01's row Setup, the other way round.
fn openable(v: u16, n: u16, tops: &[u8], s: &[u8]) -> bool
    ensures { Says result (Openable v n tops.now s.now) }
{
    if v < 1 || Store::VARS < usize::from(v) {
        return false;
    }
    if n < 1 || Store::NODES < usize::from(n) {
        return false;
    }
    if tops.len() != Store::BARE * usize::from(v) {
        return false;
    }
    if s.len() < records::size_of(v, n) {
        return false;
    }
    check::tops_ok(tops, v)
}

// Only the top is made and is the focus; the top cells are those handed in.
pub fn open(v: u32, n: u32, tops: &[u8], s: &mut [u8]) -> Result<Answer, Refusal>
    ensures { OpenPromise v n tops.now s.old s.new (numbers result) }
{
    let Ok(vars) = u16::try_from(v) else {
        return Err(Refusal::Setup);
    };
    let Ok(nodes) = u16::try_from(n) else {
        return Err(Refusal::Setup);
    };
    if !openable(vars, nodes, tops, s) {
        return Err(Refusal::Setup);
    }
    opening::open_at(s, vars, nodes, tops);
    Ok(Answer::Opened)
}
