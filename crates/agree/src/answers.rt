// What a call answers, as the model has it, and document 01's numbers for that: these are compared with the store's.
use crate::found::Found;
use layout::Store;
use std::alloc::{AllocError, AllocFailed};
use std::fmt;

// Why a call is refused, by document 01's numbers.
#[derive(Clone, Copy, Debug, PartialEq, Eq)]
pub(crate) enum Refusal {
    Setup = 1,
    Damaged = 2,
    NoVariable = 3,
    NoEnvironment = 4,
    Unbound = 5,
    Full = 6,
    TraceRoom = 7,
    Top = 8,
    Walking = 10,
    NotWalking = 11,
}

impl Refusal {
    pub(crate) const ALL: [Refusal; 10] = [
        Refusal::Setup,
        Refusal::Damaged,
        Refusal::NoVariable,
        Refusal::NoEnvironment,
        Refusal::Unbound,
        Refusal::Full,
        Refusal::TraceRoom,
        Refusal::Top,
        Refusal::Walking,
        Refusal::NotWalking,
    ];
}

// Why the model has no answer.
#[derive(Clone, Copy, Debug, PartialEq, Eq)]
pub(crate) enum Stop {
    Refused(Refusal),
    Memory,
}

impl From<Refusal> for Stop {
    fn from(r: Refusal) -> Stop {
        Stop::Refused(r)
    }
}

// Two, as `?` asks for two at Found.
impl From<AllocError> for Stop {
    fn from(_e: AllocError) -> Stop {
        Stop::Memory
    }
}

impl<T: Drop> From<AllocFailed<T>> for Stop {
    fn from(_e: AllocFailed<T>) -> Stop {
        Stop::Memory
    }
}

#[derive(Clone, Copy, Debug, PartialEq, Eq)]
pub(crate) enum Way {
    Leaving = 0,
    Entering = 1,
}

// A wind is left or entered, at its place: its parent.
#[derive(Clone, Copy, Debug, PartialEq, Eq)]
pub(crate) struct Event {
    pub way: Way,
    pub thunk: u16,
    pub place: u16,
}

impl Event {
    pub(crate) fn bytes(self) -> [u8; Store::EVENT] {
        let [t0, t1] = self.thunk.to_le_bytes();
        let [p0, p1] = self.place.to_le_bytes();
        [self.way as u8, t0, t1, p0, p1]
    }
}

// What a call answers that isn't refused.
#[derive(Clone, Copy, Debug, PartialEq, Eq)]
pub(crate) enum Done {
    Number(u16),
    Value {
        value: i32,
        by: u16,
    },
    Moved {
        focus: u16,
        moves: u16,
        events: u16,
    },
    Stepped {
        focus: u16,
        moves: u16,
        event: Option<Event>,
    },
}

// Document 01's numbers of an answer: its number, the answer itself, moves and events, of a value the decider, and of a step its
// event.
#[derive(Clone, Copy, Debug, PartialEq, Eq)]
pub(crate) struct Numbers {
    pub code: u16,
    pub out: i32,
    pub moves: u16,
    pub events: u16,
    pub by: Option<u16>,
    pub event: u16,
    pub thunk: u16,
}

impl Numbers {
    fn answered(out: i32, moves: u16, events: u16) -> Numbers {
        Numbers {
            code: 0,
            out,
            moves,
            events,
            by: None,
            event: 0,
            thunk: 0,
        }
    }

    fn stepped(focus: u16, moves: u16, event: Option<Event>) -> Numbers {
        match event {
            None => Numbers::answered(i32::from(focus), moves, 0),
            Some(e) => Numbers {
                event: e.way as u16,
                thunk: e.thunk,
                ..Numbers::answered(i32::from(focus), moves, 1)
            },
        }
    }

    // Of what the model answers.
    pub(crate) fn of(answer: Result<Done, Stop>) -> Result<Numbers, Found> {
        match answer {
            Ok(done) => Ok(Numbers::from(done)),
            Err(Stop::Refused(r)) => Ok(Numbers::from(r)),
            Err(Stop::Memory) => Err(Found::Memory),
        }
    }
}

impl From<Refusal> for Numbers {
    fn from(r: Refusal) -> Numbers {
        Numbers {
            code: r as u16,
            ..Numbers::answered(0, 0, 0)
        }
    }
}

impl From<Done> for Numbers {
    fn from(done: Done) -> Numbers {
        match done {
            Done::Number(n) => Numbers::answered(i32::from(n), 0, 0),
            Done::Value { value, by } => Numbers {
                by: Some(by),
                ..Numbers::answered(value, 0, 0)
            },
            Done::Moved {
                focus,
                moves,
                events,
            } => Numbers::answered(i32::from(focus), moves, events),
            Done::Stepped {
                focus,
                moves,
                event,
            } => Numbers::stepped(focus, moves, event),
        }
    }
}

impl fmt::Display for Numbers {
    fn fmt<W: fmt::Write>(&self, f: &mut fmt::Formatter<W>) -> fmt::Result {
        write!(f, "code={} out={}", self.code, self.out)?;
        write!(f, " moves={} events={}", self.moves, self.events)?;
        match self.by {
            None => writeln!(f, " by=none")?,
            Some(by) => writeln!(f, " by={by}")?,
        }
        write!(f, "  event={} thunk={}", self.event, self.thunk)
    }
}

// Document 01's numbers of what is told of an environment: 1 the top, 2 a binding, 3 a wind; its parent; its variable or its
// prelude; its postlude; and its own value, where its state is 1.
#[derive(Clone, Copy, Debug, PartialEq, Eq)]
pub(crate) struct Told {
    pub code: u16,
    pub kind: u16,
    pub parent: u16,
    pub first: u16,
    pub second: u16,
    pub state: u16,
    pub value: i32,
}

impl Told {
    pub(crate) fn top() -> Told {
        Told {
            code: 0,
            kind: 1,
            parent: 0,
            first: 0,
            second: 0,
            state: 0,
            value: 0,
        }
    }

    pub(crate) fn binding(parent: u16, variable: u16, own: Option<i32>) -> Told {
        Told {
            kind: 2,
            parent,
            first: variable,
            state: u16::from(own.is_some()),
            value: own.unwrap_or(0),
            ..Told::top()
        }
    }

    pub(crate) fn wind(parent: u16, prelude: u16, postlude: u16) -> Told {
        Told {
            kind: 3,
            parent,
            first: prelude,
            second: postlude,
            ..Told::top()
        }
    }
}

impl From<Refusal> for Told {
    fn from(r: Refusal) -> Told {
        Told {
            code: r as u16,
            kind: 0,
            ..Told::top()
        }
    }
}

// In the places of an answer's numbers.
impl fmt::Display for Told {
    fn fmt<W: fmt::Write>(&self, f: &mut fmt::Formatter<W>) -> fmt::Result {
        write!(f, "code={} out={}", self.code, self.value)?;
        write!(f, " moves={} events={}", self.kind, self.parent)?;
        writeln!(f, " by={}", self.first)?;
        write!(f, "  event={} thunk={}", self.state, self.second)
    }
}
