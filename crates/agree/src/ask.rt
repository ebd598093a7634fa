// The store's answers as document 01's numbers: nothing else here calls the store.
use crate::answers::{Numbers, Told};
use crate::calls::Call;
use promises::{Answer, Refusal, numbers_of, numbers_told};

fn numbers(a: Result<Answer, Refusal>) -> Numbers {
    let n = numbers_of(a);
    Numbers {
        code: n.code,
        out: n.out,
        moves: n.moves,
        events: n.events,
        by: n.by,
        event: n.event,
        thunk: n.thunk,
    }
}

pub(crate) fn open(vars: u32, nodes: u32, tops: &[u8], s: &mut [u8]) -> Numbers {
    numbers(store::open(vars, nodes, tops, s))
}

pub(crate) fn here(s: &[u8]) -> Numbers {
    numbers(store::here(s))
}

pub(crate) fn peek(s: &[u8], node: u32, variable: u32) -> Numbers {
    numbers(store::peek(s, node, variable))
}

pub(crate) fn tell(s: &[u8], node: u32) -> Told {
    let t = numbers_told(store::tell(s, node));
    Told {
        code: t.code,
        kind: t.kind,
        parent: t.parent,
        first: t.first,
        second: t.second,
        state: t.state,
        value: t.value,
    }
}

// A call on the store s, with the trace t.
pub(crate) fn make(c: Call, s: &mut [u8], t: &mut [u8]) -> Numbers {
    numbers(match c {
        Call::Bind { variable, value } => store::bind(s, variable, value),
        Call::Wind { prelude, postlude } => store::wind(s, t, prelude, postlude),
        Call::Look { variable } => store::look(s, variable),
        Call::Set { variable, value } => store::set(s, variable, value),
        Call::Here => store::here(s),
        Call::Goto { node } => store::goto(s, t, node),
        Call::Back => store::back(s, t),
        Call::Peek { node, variable } => store::peek(s, node, variable),
        Call::Far { from, to } => store::far(s, from, to),
        Call::Begin { target } => store::begin(s, target),
        Call::Step => store::step(s),
        Call::Drop => store::drop(s),
    })
}
