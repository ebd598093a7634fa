// The store's sizes and limits, written once: the code cites these constants, the definitions cite `limits`,
// and `limits()` is proved to make them one. And what callers of the store need of its bytes: the cell of a value, for open's
// top cells, and the event in the bytes of a trace.
#![tactic(auto)]

ghost use Rattle.std.specs.Prelude.{◌≡◌};
ghost use Rattle.layout.specs.Limits.{limits};
ghost use Rattle.layout.specs.Records.{value_c};
ghost use Rattle.layout.specs.Events.{event_in};

// The store that the caller lends as bytes.
#[derive(Drop)]
pub struct Store {}

impl Store {
    // Most variables, and most environments, the top counted.
    pub const VARS: usize = 256;

    pub const NODES: usize = 2_048;

    // Bytes of the header, of a cell of the store, of a bare cell, of a node, of a trace event.
    pub const HEADER: usize = 12;

    pub const CELL: usize = 5;

    pub const BARE: usize = 5;

    pub const NODE: usize = 14;

    pub const EVENT: usize = 5;

    // In the header, for no target and for no wind.
    pub const NONE: u16 = 65_535;
}

// The constants as one value.
#[derive(Clone, Copy)]
pub struct Sizes {
    pub vars: usize,
    pub nodes: usize,
    pub header: usize,
    pub cell: usize,
    pub bare: usize,
    pub node: usize,
    pub event: usize,
    pub none: u16,
}

// The code's constants are the definitions' numbers.
pub fn limits() -> Sizes
    ensures { result ≡ limits }
{
    Sizes {
        vars: Store::VARS,
        nodes: Store::NODES,
        header: Store::HEADER,
        cell: Store::CELL,
        bare: Store::BARE,
        node: Store::NODE,
        event: Store::EVENT,
        none: Store::NONE,
    }
}

// The bare cell of the value v.
pub fn value_cell(v: i32) -> [u8; Store::BARE]
    ensures { result ≡ value_c v }
{
    let [a, b, c, d] = v.to_le_bytes();
    [1, a, b, c, d]
}

// A trace event: entering or leaving, its thunk, and its place. The side is a bool, as the definition `event_in` has it: no value hangs on it.
#[derive(Clone, Copy)]
pub struct Event {
    pub entering: bool,
    pub thunk: u16,
    pub place: u16,
}

// The event in its bytes.
pub fn event_in(p: [u8; Store::EVENT]) -> Event
    ensures { result ≡ event_in p }
{
    let [side, t0, t1, p0, p1] = p;
    Event {
        entering: side == 1,
        thunk: u16::from_le_bytes([t0, t1]),
        place: u16::from_le_bytes([p0, p1]),
    }
}
