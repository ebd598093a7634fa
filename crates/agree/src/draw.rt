// What is drawn: the size of a sequence's store, its operations and their numbers, all from the sequence's seed by a linear
// congruential generator.
use crate::buffer::{put, short, word};
use crate::calls::{Call, Op};
use crate::image::cell;
use crate::model::Model;
use layout::Store;
use std::alloc::{AllocError, Global};
use std::fmt;

// ---- the generator

const CYCLE: usize = 1_099_511_627_776;

// The generator's state.
#[derive(Clone, Copy)]
pub(crate) struct Draws(usize);

impl Draws {
    pub(crate) fn new(seed: usize) -> Draws {
        Draws(seed)
    }

    pub(crate) fn next(self) -> Draws {
        Draws((self.0 % CYCLE * 1_664_525 + 1_013_904_223) % CYCLE)
    }

    // Two draws later.
    pub(crate) fn later(self) -> Draws {
        self.next().next()
    }

    // So many numbers on.
    pub(crate) fn apart(self, n: usize) -> Draws {
        Draws(self.0.wrapping_add(n))
    }

    // A number below n, from the upper bits; 0 for n = 0.
    pub(crate) fn below(self, n: usize) -> usize {
        (self.0 / 256).checked_rem(n).unwrap_or(0)
    }

    // Once in n draws.
    pub(crate) fn once_in(self, n: usize) -> bool {
        self.below(n) == 0
    }

    // From 1 to n.
    fn up_to(self, n: usize) -> usize {
        self.below(n).wrapping_add(1)
    }

    // Which of n environments or variables.
    pub(crate) fn which(self, n: usize) -> usize {
        self.next().below(n)
    }

    // Some number from `low` on, before `end` where there is one; not a range, which has no end before its beginning.
    pub(crate) fn between(self, low: usize, end: usize) -> usize {
        low.wrapping_add(self.below(end.wrapping_sub(low)))
    }
}

// ---- kinds of sequences: a seed's last digit

#[derive(Clone, Copy, Debug, PartialEq, Eq)]
pub(crate) enum Kind {
    Deep,
    Bushy,
    Same,
    Winds,
    Jumps,
    Full,
    Damaged,
    Rooms,
    Edges,
    Unbound,
}

impl Kind {
    fn of(seed: usize) -> Kind {
        match seed % 10 {
            0 => Kind::Deep,
            1 => Kind::Bushy,
            2 => Kind::Same,
            3 => Kind::Winds,
            4 => Kind::Jumps,
            5 => Kind::Full,
            6 => Kind::Damaged,
            7 => Kind::Rooms,
            8 => Kind::Edges,
            _ => Kind::Unbound,
        }
    }
}

impl fmt::Display for Kind {
    fn fmt<W: fmt::Write>(&self, f: &mut fmt::Formatter<W>) -> fmt::Result {
        f.write_str(match self {
            Kind::Deep => "deep",
            Kind::Bushy => "bushy",
            Kind::Same => "same variable",
            Kind::Winds => "winds",
            Kind::Jumps => "jumps",
            Kind::Full => "full",
            Kind::Damaged => "damaged",
            Kind::Rooms => "rooms",
            Kind::Edges => "edges",
            Kind::Unbound => "unbound",
        })
    }
}

// ---- what comes next

// A call, or what is done to the store between calls: a byte of it damaged, a cell hollowed, it opened again or lent too short.
#[derive(Clone, Copy, Debug, PartialEq, Eq)]
pub(crate) enum Turn {
    Bind,
    Wind,
    Look,
    Set,
    Here,
    Goto,
    Back,
    Peek,
    Far,
    Begin,
    Step,
    Drop,
    Damage,
    Hollow,
    Open,
    Cut,
}

impl Turn {
    // Whether what it does goes by the store's bytes.
    pub(crate) fn goes_by_bytes(self) -> bool {
        matches!(self, Turn::Damage | Turn::Hollow | Turn::Open)
    }

    // By the letters of a menu.
    fn of(letter: u8) -> Turn {
        match letter {
            b'b' => Turn::Bind,
            b'w' => Turn::Wind,
            b'l' => Turn::Look,
            b's' => Turn::Set,
            b'h' => Turn::Here,
            b'g' => Turn::Goto,
            b'k' => Turn::Back,
            b'f' => Turn::Far,
            b'i' => Turn::Begin,
            b't' => Turn::Step,
            b'r' => Turn::Drop,
            b'd' => Turn::Damage,
            b'u' => Turn::Hollow,
            b'o' => Turn::Open,
            b'c' => Turn::Cut,
            _ => Turn::Peek,
        }
    }
}

// What a turn is drawn from: the kind of the sequence, the generator's state, and the model.
#[derive(Clone, Copy)]
pub(crate) struct Source<'a> {
    pub kind: Kind,
    pub g: Draws,
    pub m: &'a Model,
}

impl Source<'_> {
    // The menu of the next operation: each stands as often as it is to be drawn. Bind, Wind, Look, Set, Here, Goto, bacK, Peek, Far,
    // begIn, sTep, dRop, Damage, Unbind a cell, Open, Cut off: twenty names to a row would be no plainer. During a walk every other operation has a menu of its own. Deep chains grow
    // until the store is full, and then have another.
    fn menu(self) -> &'static [u8; 20] {
        if self.m.walk.is_some() && self.g.next().once_in(2) {
            return b"tttttttttttttsslhpfr";
        }
        match self.kind {
            Kind::Deep if self.m.is_full() => b"gggggkkkssslpphbfiit",
            Kind::Deep => b"bbbbbbbbbwwwwlspfttr",
            Kind::Bushy => b"bbbbwwggggggklspfiit",
            Kind::Same => b"bbbbbbssssgggklpfiir",
            Kind::Winds => b"wwwwwwwggggggkkbfiit",
            Kind::Jumps => b"bbbwwggggggggglpfiir",
            Kind::Full => b"bbbbbbwwwwgklsphfiit",
            Kind::Damaged => b"bbbwwggsddddddupfiit",
            Kind::Rooms => b"bwwwwwggggggggkkfiir",
            Kind::Edges => b"bwglsphkoocckgsbfiit",
            Kind::Unbound => b"bblllssspppggkwufiir",
        }
    }

    pub(crate) fn turn(self) -> Turn {
        let letter = self.menu().get(self.g.below(20)).copied();
        Turn::of(letter.unwrap_or(b'p'))
    }
}

// ---- plans

// A sequence: its kind, the store's V and N, how many operations, how many bytes are lent after the store.
#[derive(Clone, Copy)]
pub(crate) struct Plan {
    pub kind: Kind,
    pub vars: usize,
    pub nodes: usize,
    pub steps: usize,
    pub slack: usize,
}

impl fmt::Display for Plan {
    fn fmt<W: fmt::Write>(&self, f: &mut fmt::Formatter<W>) -> fmt::Result {
        writeln!(f, "kind={} lent after the store={}", self.kind, self.slack)?;
        writeln!(f, "vars={}", self.vars)?;
        write!(f, "nodes={}", self.nodes)
    }
}

impl Plan {
    // The largest store.
    fn large(kind: Kind, g: Draws) -> Plan {
        Plan {
            kind,
            vars: match kind {
                Kind::Same => 1,
                Kind::Edges | Kind::Unbound => Store::VARS,
                _ => g.up_to(8),
            },
            nodes: Store::NODES,
            steps: match kind {
                Kind::Deep | Kind::Winds | Kind::Full => 3_600,
                _ => 400,
            },
            slack: g.next().below(64),
        }
    }

    fn middle(kind: Kind, g: Draws) -> Plan {
        Plan {
            kind,
            vars: g.up_to(6),
            nodes: g.next().below(200).wrapping_add(50),
            steps: 300,
            slack: g.below(64),
        }
    }

    fn small(kind: Kind, g: Draws) -> Plan {
        let g2 = g.next();
        let g3 = g2.next();
        let most = match kind {
            Kind::Full => 6,
            Kind::Edges => 4,
            _ => 24,
        };
        Plan {
            kind,
            vars: g.up_to(4),
            nodes: g2.up_to(most),
            steps: g3.below(24).wrapping_add(40),
            slack: g3.next().below(64),
        }
    }

    // Of 600 sequences of a kind one has the largest store; of 50 one has a middling one.
    pub(crate) fn of(seed: usize) -> Plan {
        let kind = Kind::of(seed);
        let turn = seed / 10;
        let g = Draws::new(seed).later();
        if turn % 600 == 7 {
            return Plan::large(kind, g);
        }
        if turn % 50 == 3 {
            return Plan::middle(kind, g);
        }
        Plan::small(kind, g)
    }
}

// ---- calls

// A number below the limit; now and then the limit, or one that is far too large.
fn near(kind: Kind, g: Draws, limit: usize) -> u32 {
    let odds = if kind == Kind::Edges { 6 } else { 40 };
    let g2 = g.next();
    if g.once_in(odds) {
        return word(limit);
    }
    if g2.once_in(odds + odds) {
        return word(g.below(limit).wrapping_add(65_536));
    }
    if g2.next().once_in(odds + odds) {
        return u32::MAX;
    }
    word(g.below(limit))
}

// A value: any, one near 0, or one at the ends of the range.
fn value(g: Draws) -> i32 {
    let g2 = g.next();
    match g.below(4) {
        0 => word(g2.below(4_294_967_296)).cast_signed(),
        1 => i32::MAX,
        2 => i32::MIN,
        _ => word(g2.below(100)).cast_signed(),
    }
}

// How many events a switch to a tells; where a is not made, to what last had that number.
fn events_to(m: &Model, a: u32) -> Result<usize, AllocError> {
    let moves = m.moves(m.focus, u16::try_from(a).unwrap_or(0))?;
    Ok(m.events(moves.as_slice())?.len())
}

// The bytes of trace: room for exactly the events, for one fewer, or for a few more; and some bytes over.
fn trace(kind: Kind, g: Draws, need: usize) -> usize {
    let g2 = g.next();
    let over = g2.next().below(Store::EVENT);
    let odds = if kind == Kind::Rooms { 1 } else { 5 };
    let room = if !g.once_in(odds) {
        need.saturating_add(3)
    } else if g2.once_in(2) {
        need
    } else {
        need.saturating_sub(1)
    };
    over.wrapping_add(room.wrapping_mul(Store::EVENT))
}

// A thunk's number: any, or one at the ends of the range.
fn thunk(g: Draws) -> u16 {
    match g.below(4) {
        0 => 0,
        1 => 65_535,
        _ => short(g.next().below(65_536)),
    }
}

// How far a is from itself, from the top either way, or from b.
fn far(g: Draws, a: u32, b: u32) -> Call {
    match g.below(8) {
        0 => Call::Far { from: a, to: a },
        1 => Call::Far { from: 0, to: a },
        2 => Call::Far { from: a, to: 0 },
        _ => Call::Far { from: a, to: b },
    }
}

impl Source<'_> {
    // An environment: any, or, for jumps, one as far off as half of them.
    fn environment(self, g: Draws) -> u32 {
        let made = self.m.made();
        if self.kind == Kind::Jumps && g.next().once_in(2) {
            let far = usize::from(self.m.focus).wrapping_add(made / 2);
            return word(far.checked_rem(made.wrapping_add(1)).unwrap_or(0));
        }
        near(self.kind, g, made)
    }

    fn variable(self, g: Draws) -> u32 {
        if self.kind == Kind::Same {
            return 0;
        }
        near(self.kind, g, self.m.vars())
    }

    // The call of a turn, with its numbers.
    fn call(self, turn: Turn) -> Option<Call> {
        let g2 = self.g.later();
        let g3 = g2.next();
        let variable = self.variable(g2);
        let node = self.environment(g3);
        Some(match turn {
            Turn::Bind => Call::Bind {
                variable,
                value: value(g3),
            },
            Turn::Set => Call::Set {
                variable,
                value: value(g3),
            },
            Turn::Wind => Call::Wind {
                prelude: thunk(g2),
                postlude: thunk(g3.next()),
            },
            Turn::Look => Call::Look { variable },
            Turn::Goto => Call::Goto { node },
            Turn::Begin => Call::Begin { target: node },
            Turn::Peek => Call::Peek { node, variable },
            Turn::Far => far(g2, node, self.environment(g3.next())),
            Turn::Here => Call::Here,
            Turn::Back => Call::Back,
            Turn::Step => Call::Step,
            Turn::Drop => Call::Drop,
            Turn::Damage | Turn::Hollow | Turn::Open | Turn::Cut => return None,
        })
    }

    // The operation of a turn, if it is a call.
    pub(crate) fn operation(self, turn: Turn) -> Result<Option<Op>, AllocError> {
        let Some(call) = self.call(turn) else {
            return Ok(None);
        };
        let events = match call {
            Call::Wind { .. } => 1,
            Call::Goto { node } => events_to(self.m, node)?,
            Call::Back => events_to(self.m, u32::from(self.m.parent(self.m.focus)))?,
            _ => 0,
        };
        let trace = trace(self.kind, self.g.later(), events);
        Ok(Some(Op { call, trace }))
    }
}

// ---- what is opened

// An opening: V, N and the bytes of top cells; how these are drawn, and whether a byte of them may be another, which
// is drawn then.
#[derive(Clone, Copy)]
pub(crate) struct Opening {
    pub vars: usize,
    pub nodes: usize,
    pub len: usize,
    pub kind: Kind,
    pub state: Draws,
    pub again: bool,
}

impl fmt::Display for Opening {
    fn fmt<W: fmt::Write>(&self, f: &mut fmt::Formatter<W>) -> fmt::Result {
        write!(
            f,
            "open: vars={} nodes={} bytes of top cells={}",
            self.vars, self.nodes, self.len
        )
    }
}

// A number of variables or of environments, on both sides of the edges.
fn count_near(g: Draws, most: usize) -> usize {
    match g.below(10) {
        0 => 0,
        1 => most,
        2 => most.wrapping_add(1),
        3 => 65_537,
        4 => 4_294_967_295,
        _ => g.next().up_to(4),
    }
}

// The bytes of top cells for so many variables; now and then one too many or too few.
fn tops_len(g: Draws, vars: usize) -> usize {
    let len = Store::BARE.wrapping_mul(vars);
    if g.once_in(8) {
        return len.wrapping_add(1);
    }
    if g.next().once_in(8) {
        return len.saturating_sub(1);
    }
    len
}

// Most bytes of top cells that are drawn.
const TOPS: usize = 1_500;

impl Opening {
    pub(crate) fn first(p: Plan, g: Draws) -> Opening {
        Opening {
            vars: p.vars,
            nodes: p.nodes,
            len: Store::BARE.wrapping_mul(p.vars),
            kind: p.kind,
            state: g,
            again: false,
        }
    }

    pub(crate) fn again(g: Draws) -> Opening {
        let vars = count_near(g, Store::VARS);
        let state = g.later().later();
        Opening {
            vars,
            nodes: count_near(g.later(), Store::NODES),
            len: tops_len(state, vars % 300),
            kind: Kind::Edges,
            state,
            again: true,
        }
    }

    // Its top cells; some are unbound. Where it opens again, now and then a byte of them is another.
    pub(crate) fn tops(self, alloc: Global) -> Result<Vec<u8>, AllocError> {
        let vars = self.vars % 258;
        let odds = if self.kind == Kind::Unbound { 2 } else { 6 };
        let mut tops = vec![in alloc; 0u8; TOPS]?;
        let mut g = self.state;
        for x in 0..vars {
            let unbound = g.next().once_in(odds);
            let value = if unbound { None } else { Some(value(g)) };
            put(
                tops.as_mut_slice(),
                Store::BARE.wrapping_mul(x),
                &cell(value),
            );
            g = g.later();
        }
        let g = self.state.next();
        if self.again && g.once_in(4) {
            let at = g.next().below(Store::BARE.wrapping_mul(vars));
            let other = short(g.later().below(3)).to_le_bytes();
            put(tops.as_mut_slice(), at, &other[..1]);
        }
        tops.truncate(self.len);
        Ok(tops)
    }
}

// ---- damage

// Where a store of this size is damaged: a third of the time in its header.
pub(crate) fn hit(g: Draws, size: usize) -> usize {
    if g.once_in(3) {
        return g.next().below(Store::HEADER);
    }
    g.next().below(size)
}

// What is added to a byte to damage it; never 0.
pub(crate) fn blow(g: Draws) -> u8 {
    match g.below(6) {
        0 | 1 => 1,
        2 => 255,
        3 => 2,
        4 => 254,
        _ => u8::try_from(g.next().up_to(255)).unwrap_or(u8::MAX),
    }
}

// How much of a store of this size is lent: all, all but one byte, or any part.
pub(crate) fn cut_len(g: Draws, size: usize) -> usize {
    match g.next().below(4) {
        0 => size,
        1 => g.later().below(size),
        2 => g.later().below(Store::HEADER + 1),
        _ => size.saturating_sub(1),
    }
}
