// The C face: the fourteen calls for the firmware. Each hands its numbers and buffers on, and its answer back as one plain struct.
#![tactic(auto)]

ghost use Rattle.std.specs.Prelude.{◌≡◌};
ghost use Rattle.promises.specs.Answers.{Numbers, numbers, flat};
ghost use Rattle.promises.specs.Promises.{OpenPromise, BindPromise, WindPromise, LookPromise, SetPromise, HerePromise, GotoPromise, BackPromise, PeekPromise, FarPromise, TellPromise, BeginPromise, StepPromise, DropPromise};
ghost use Rattle.kestrelnib.specs.Face.{reply_of, Hands, told_of, limit};

use promises::{Answer, Flat, Refusal, Told, numbers_of, numbers_told};

// Document 01's numbers of an answer: the answer itself, its number, the moves, the number of events; of a value the decider,
// of a step the thunk and the event that it hands over.
#[repr(C)]
#[derive(Clone, Copy)]
pub struct Reply {
    pub out: i32,
    pub code: u16,
    pub moves: u16,
    pub events: u16,
    pub by: u16,
    pub thunk: u16,
    pub event: u16,
}

impl From<Flat> for Reply {
    ghost from_gives = { λ n r. (k : Numbers) → n ≡ flat k → r ≡ reply_of k };

    #[tactic(auto, unfolding(crate::specs::Face::reply_of, promises::specs::Answers::flat))]
    fn from(n: Flat) -> Reply {
        Reply {
            out: n.out,
            code: n.code,
            moves: n.moves,
            events: n.events,
            by: n.by.unwrap_or(0),
            thunk: n.thunk,
            event: n.event,
        }
    }
}

fn numbered(a: Result<Answer, Refusal>) -> Reply
    ensures { result ≡ reply_of (numbers a) }
{
    Reply::from(numbers_of(a))
}

#[unsafe(no_mangle)]
pub extern "C" fn kn_open(vars: u32, nodes: u32, tops: &[u8], store: &mut [u8]) -> Reply
    ensures { Hands result (OpenPromise vars nodes tops.now store.old store.new) }
{
    numbered(store::open(vars, nodes, tops, store))
}

#[unsafe(no_mangle)]
pub extern "C" fn kn_bind(store: &mut [u8], x: u32, v: i32) -> Reply
    ensures { Hands result (BindPromise store.old x v store.new) }
{
    numbered(store::bind(store, x, v))
}

#[unsafe(no_mangle)]
pub extern "C" fn kn_wind(store: &mut [u8], trace: &mut [u8], p: u16, q: u16) -> Reply
    ensures { Hands result (WindPromise store.old trace.old p q store.new trace.new) }
{
    numbered(store::wind(store, trace, p, q))
}

#[unsafe(no_mangle)]
pub extern "C" fn kn_look(store: &[u8], x: u32) -> Reply
    ensures { Hands result (LookPromise store.now x store.now) }
{
    numbered(store::look(store, x))
}

#[unsafe(no_mangle)]
pub extern "C" fn kn_set(store: &mut [u8], x: u32, v: i32) -> Reply
    ensures { Hands result (SetPromise store.old x v store.new) }
{
    numbered(store::set(store, x, v))
}

#[unsafe(no_mangle)]
pub extern "C" fn kn_here(store: &[u8]) -> Reply
    ensures { Hands result (HerePromise store.now store.now) }
{
    numbered(store::here(store))
}

#[unsafe(no_mangle)]
pub extern "C" fn kn_goto(store: &mut [u8], trace: &mut [u8], a: u32) -> Reply
    ensures { Hands result (GotoPromise store.old trace.old a store.new trace.new) }
{
    numbered(store::goto(store, trace, a))
}

#[unsafe(no_mangle)]
pub extern "C" fn kn_back(store: &mut [u8], trace: &mut [u8]) -> Reply
    ensures { Hands result (BackPromise store.old trace.old store.new trace.new) }
{
    numbered(store::back(store, trace))
}

#[unsafe(no_mangle)]
pub extern "C" fn kn_peek(store: &[u8], a: u32, x: u32) -> Reply
    ensures { Hands result (PeekPromise store.now a x store.now) }
{
    numbered(store::peek(store, a, x))
}

#[unsafe(no_mangle)]
pub extern "C" fn kn_far(store: &[u8], a: u32, b: u32) -> Reply
    ensures { Hands result (FarPromise store.now a b store.now) }
{
    numbered(store::far(store, a, b))
}

// What an environment is: the fields are those told.
#[repr(C)]
#[derive(Clone, Copy)]
pub struct Env {
    pub value: i32,
    pub code: u16,
    pub kind: u16,
    pub parent: u16,
    pub first: u16,
    pub second: u16,
    pub state: u16,
}

impl From<Told> for Env {
    ghost from_gives = { λ t r. told_of r ≡ t };

    #[tactic(auto, unfolding(crate::specs::Face::told_of))]
    fn from(t: Told) -> Env {
        Env {
            value: t.value,
            code: t.code,
            kind: t.kind,
            parent: t.parent,
            first: t.first,
            second: t.second,
            state: t.state,
        }
    }
}

#[unsafe(no_mangle)]
pub extern "C" fn kn_tell(store: &[u8], a: u32) -> Env
    ensures { TellPromise store.now a store.now (told_of result) }
{
    Env::from(numbers_told(store::tell(store, a)))
}

#[unsafe(no_mangle)]
pub extern "C" fn kn_begin(store: &mut [u8], a: u32) -> Reply
    ensures { Hands result (BeginPromise store.old a store.new) }
{
    numbered(store::begin(store, a))
}

#[unsafe(no_mangle)]
pub extern "C" fn kn_step(store: &mut [u8]) -> Reply
    ensures { Hands result (StepPromise store.old store.new) }
{
    numbered(store::step(store))
}

#[unsafe(no_mangle)]
pub extern "C" fn kn_drop(store: &mut [u8]) -> Reply
    ensures { Hands result (DropPromise store.old store.new) }
{
    numbered(store::drop(store))
}

// The library's own limits and sizes, by their place in document 01's list, so that a test can hold the header to them. The place
// stays a number, since C asks for it by `kn_limit`.
#[tactic(auto, unfolding(crate::specs::Face::limit))]
#[unsafe(no_mangle)]
pub extern "C" fn kn_limit(which: u32) -> u32
    ensures { result ≡ limit which }
{
    match which {
        0 => layout::Store::VARS as u32,
        1 => layout::Store::NODES as u32,
        2 => layout::Store::HEADER as u32,
        3 => layout::Store::CELL as u32,
        4 => layout::Store::NODE as u32,
        5 => layout::Store::EVENT as u32,
        _ => 0,
    }
}
