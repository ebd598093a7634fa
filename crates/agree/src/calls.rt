// The calls on a store, but opening and telling, as a card has them.
use std::fmt;

#[derive(Clone, Copy, Debug, PartialEq, Eq)]
pub(crate) enum Call {
    Bind { variable: u32, value: i32 },
    Wind { prelude: u16, postlude: u16 },
    Look { variable: u32 },
    Set { variable: u32, value: i32 },
    Here,
    Goto { node: u32 },
    Back,
    Peek { node: u32, variable: u32 },
    Far { from: u32, to: u32 },
    Begin { target: u32 },
    Step,
    Drop,
}

impl Call {
    // Each once. Here first: it climbs nowhere, so that it answers where another call might run on and on.
    pub(crate) fn each(one: u16, two: u16) -> [Call; 12] {
        let first = u32::from(one);
        let second = u32::from(two);
        let value = i32::from(two);
        [
            Call::Here,
            Call::Bind {
                variable: first,
                value,
            },
            Call::Wind {
                prelude: one,
                postlude: two,
            },
            Call::Look { variable: first },
            Call::Set {
                variable: first,
                value,
            },
            Call::Goto { node: first },
            Call::Back,
            Call::Peek {
                node: first,
                variable: second,
            },
            Call::Far {
                from: first,
                to: second,
            },
            Call::Begin { target: first },
            Call::Step,
            Call::Drop,
        ]
    }
}

impl fmt::Display for Call {
    fn fmt<W: fmt::Write>(&self, f: &mut fmt::Formatter<W>) -> fmt::Result {
        match self {
            Call::Bind { variable, value } => write!(f, "bind={variable},{value}"),
            Call::Wind { prelude, postlude } => write!(f, "wind={prelude},{postlude}"),
            Call::Look { variable } => write!(f, "look={variable}"),
            Call::Set { variable, value } => write!(f, "set={variable},{value}"),
            Call::Here => write!(f, "here=now"),
            Call::Goto { node } => write!(f, "goto={node}"),
            Call::Back => write!(f, "back=1"),
            Call::Peek { node, variable } => write!(f, "peek={node},{variable}"),
            Call::Far { from, to } => write!(f, "far={from},{to}"),
            Call::Begin { target } => write!(f, "begin={target}"),
            Call::Step => write!(f, "step=1"),
            Call::Drop => write!(f, "drop=1"),
        }
    }
}

// An operation: a call, and how many bytes of trace are lent to it.
#[derive(Clone, Copy, Debug, PartialEq, Eq)]
pub(crate) struct Op {
    pub call: Call,
    pub trace: usize,
}

impl fmt::Display for Op {
    fn fmt<W: fmt::Write>(&self, f: &mut fmt::Formatter<W>) -> fmt::Result {
        write!(f, "{} trace bytes={}", self.call, self.trace)
    }
}
