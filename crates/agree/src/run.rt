// One sequence on the store and on the model, compared after each operation. It grows and jumps, is damaged, opened again and
// lent too short.
use crate::answers::{Event, Numbers, Refusal};
use crate::bench::Bench;
use crate::buffer::{patterned, put, short, word};
use crate::calls::{Call, Op};
use crate::compare::{MANY, SOME};
use crate::counts::Count;
use crate::damage::{Blow, Field};
use crate::draw::{Draws, Opening, Plan, Source, Turn};
use crate::found::Found;
use crate::model::size_of;
use crate::{ask, draw};
use layout::Store;
use std::alloc::AllocError;

// The bytes of a small store, and some more.
const SMALL: usize = 512;

// For the draws at a sequence's end: the parts of a turn, and the first of those that make a walk's numbers others.
const PARTS: usize = 24;

const WALK_PARTS: [usize; 2] = [16, 20];

impl Bench {
    // ---- an operation

    // A far is counted by what its two are.
    fn far_counted(&self, from: u32, to: u32) -> Count {
        let made = self.model.made_one(from).is_ok() && self.model.made_one(to).is_ok();
        if !made {
            Count::FarNone
        } else if from == to {
            Count::FarSame
        } else if from == 0 || to == 0 {
            Count::FarTop
        } else {
            Count::Far
        }
    }

    // Where a call is counted besides: far, and what comes during a walk.
    fn counted(&self, c: Call) -> Option<Count> {
        let walking = self.model.walk.is_some();
        match c {
            Call::Far { from, to } => Some(self.far_counted(from, to)),
            Call::Drop if walking => Some(Count::Dropped),
            Call::Drop => None,
            _ if walking => Some(Count::During),
            _ => None,
        }
    }

    // The trace with these events told.
    fn wanted_trace(&self, told: &[Event], len: usize) -> Result<Vec<u8>, AllocError> {
        let mut trace = patterned(self.alloc, len)?;
        for (i, event) in told.iter().enumerate() {
            let at = Store::EVENT.wrapping_mul(i);
            put(trace.as_mut_slice(), at, &event.bytes());
        }
        Ok(trace)
    }

    fn operate(&mut self, o: Op) -> Result<(), Found> {
        self.loud.line(o);
        if let Some(count) = self.counted(o.call) {
            self.counts.add(count, 1);
        }
        self.before(o.call)?;
        let mut told = Vec::new(self.alloc);
        let mut trace = patterned(self.alloc, o.trace)?;
        let answer = self.model.call(o.call, o.trace / Store::EVENT, &mut told);
        let want = Numbers::of(answer)?;
        let got = ask::make(o.call, self.store.as_mut_slice(), trace.as_mut_slice());
        self.answers(want, got)?;
        let wanted = self.wanted_trace(told.as_slice(), o.trace)?;
        if trace.as_slice() != wanted.as_slice() {
            return Err(Found::Trace);
        }
        self.after(o.call, got)
    }

    // ---- opening, and a store lent too short

    fn open(&mut self, o: Opening) -> Result<(), Found> {
        self.loud.line(o);
        self.lent = Vec::from_slice(self.alloc, self.store.as_slice())?;
        let tops = o.tops(self.alloc)?;
        let vars = word(o.vars);
        let nodes = word(o.nodes);
        let len = self.store.len();
        let answer = self.model.open(vars, nodes, tops.as_slice(), len);
        if answer.is_ok() {
            self.beside = None;
        }
        let want = Numbers::of(answer)?;
        let got = ask::open(vars, nodes, tops.as_slice(), self.store.as_mut_slice());
        self.answers(want, got)
    }

    // The store lent with its first bytes alone: it is sound exactly where all of it is lent.
    fn cut(&mut self, g: Draws) -> Result<(), Found> {
        let len = draw::cut_len(g, self.model.size());
        self.loud
            .line(format_args!("here with the first bytes={len}"));
        let want = if len < self.model.size() {
            Numbers::from(Refusal::Damaged)
        } else {
            Numbers::from(self.model.here())
        };
        let Some(lent) = self.store.as_slice().get(..len) else {
            return Err(Found::Own);
        };
        let got = ask::here(lent);
        self.answers(want, got)
    }

    // ---- a turn

    fn act(&mut self, turn: Turn, o: Option<Op>, g: Draws) -> Result<(), Found> {
        match (turn, o) {
            (Turn::Damage, _) => self.damage(g),
            (Turn::Hollow, _) => self.hollow(g),
            (Turn::Open, _) => self.open(Opening::again(g)),
            (_, Some(o)) => self.operate(o),
            (_, None) => self.cut(g),
        }
    }

    fn source(&self, p: Plan, g: Draws) -> Source<'_> {
        Source {
            kind: p.kind,
            g,
            m: &self.model,
        }
    }

    // Before a turn that goes by the bytes, and at first, the bytes are compared; before another the second run goes round.
    fn turn(&mut self, p: Plan, i: usize, g: Draws) -> Result<(), Found> {
        let source = self.source(p, g);
        let turn = source.turn();
        let operation = source.operation(turn)?;
        if i == 0 || turn.goes_by_bytes() {
            self.bytes_agree()?;
        } else if let Some(o) = operation {
            self.go_round(g, o);
        }
        self.act(turn, operation, g)?;
        self.look_round(p, i, g)
    }

    // After it: in a small store, and at every sixteenth in a larger one, bytes and values are compared, and the second run with the
    // first; in a larger one nodes are their own parents. After a turn by the bytes the second run is copied from the first. What a turn
    // goes by is drawn anew here, where a walk may have begun or ended.
    fn look_round(&mut self, p: Plan, i: usize, g: Draws) -> Result<(), Found> {
        let by_bytes = i == 0 || self.source(p, g).turn().goes_by_bytes();
        let small = self.store.len() <= SMALL;
        let whole = small || i % 16 == 0;
        if whole || by_bytes {
            self.bytes_agree()?;
        }
        if whole {
            self.values_agree(g, SOME)?;
        }
        if whole && !small {
            self.own_parents(g)?;
        }
        if by_bytes {
            return self.begin_second();
        }
        if whole { self.pair_agrees() } else { Ok(()) }
    }

    // A walk's two numbers become others, and the walk makes a step; and once more.
    fn walks_struck(&mut self, p: Plan, g: Draws) -> Result<(), Found> {
        let turns = PARTS.wrapping_mul(p.steps);
        for part in WALK_PARTS.iter() {
            let h = g.apart(turns.wrapping_add(*part));
            let target = Blow::of_walk(h, Field::Target, &self.model);
            self.strike(g, target)?;
            let handed = Blow::of_walk(h.apart(1), Field::Handed, &self.model);
            self.strike(g, handed)?;
            self.operate(Op {
                call: Call::Step,
                trace: 0,
            })?;
            self.bytes_agree()?;
        }
        Ok(())
    }

    // At the end: all is compared, nodes are their own parents, depths are false, and walks' numbers others.
    fn end(&mut self, p: Plan, g: Draws) -> Result<(), Found> {
        self.bytes_agree()?;
        self.pair_agrees()?;
        self.values_agree(g, MANY)?;
        self.own_parents(g)?;
        self.false_depths(g)?;
        self.walks_struck(p, g)
    }

    // The sequence of this seed.
    pub(crate) fn sequence(&mut self, seed: usize) -> Result<(), Found> {
        let p = Plan::of(seed);
        let size = size_of(short(p.vars), short(p.nodes));
        self.loud.line(format_args!("seed={seed} {p}"));
        self.counts.add(Count::Sequences, 1);
        self.store = patterned(self.alloc, size.wrapping_add(p.slack))?;
        let mut g = Draws::new(seed).next();
        self.open(Opening::first(p, g))?;
        for i in 0..p.steps {
            self.turn(p, i, g)?;
            g = g.later().later().next();
        }
        self.end(p, g)
    }
}
