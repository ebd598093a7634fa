// What a step finds that is not as it has to be.
use std::alloc::{AllocError, AllocFailed};
use std::fmt;

#[derive(Clone, Copy, Debug, PartialEq, Eq)]
pub(crate) enum Found {
    Answer,
    Trace,
    Bytes,
    Value,
    Refusal,
    Own,
    Doors,
    Walks,
    Memory,
}

impl fmt::Display for Found {
    fn fmt<W: fmt::Write>(&self, f: &mut fmt::Formatter<W>) -> fmt::Result {
        f.write_str(match self {
            Found::Answer => "the answers differ",
            Found::Trace => "the trace differs",
            Found::Bytes => "the bytes of the store differ",
            Found::Value => "a value, or what is told of an environment, differs",
            Found::Refusal => "a damaged store was not refused, or a byte changed",
            Found::Own => "the program has an error of its own",
            Found::Doors => "a run with jumps put in ends in other bytes",
            Found::Walks => "the steps of a walk are together not goto",
            Found::Memory => "out of memory",
        })
    }
}

// A new value and a growing collection fail with two types, so `?` asks for two.
impl From<AllocError> for Found {
    fn from(_e: AllocError) -> Found {
        Found::Memory
    }
}

impl<T: Drop> From<AllocFailed<T>> for Found {
    fn from(_e: AllocFailed<T>) -> Found {
        Found::Memory
    }
}
