// A store that is damaged: every call refuses it and leaves every byte; or it is still sound, and means something else.
use crate::answers::{Numbers, Refusal, Told};
use crate::bench::Bench;
use crate::buffer::{number, patterned, put, put_number, short, word};
use crate::calls::Call;
use crate::compare::SOME;
use crate::counts::Count;
use crate::draw::Draws;
use crate::found::Found;
use crate::image::{ABSENT, cell, node_at};
use crate::model::Model;
use crate::{ask, draw};
use layout::Store;
use std::alloc::AllocError;

// The two numbers of a walk in a store's header.
#[derive(Clone, Copy, Debug, PartialEq, Eq)]
pub(crate) enum Field {
    Target,
    Handed,
}

// A number becomes another: of a walk, or any, which only counts are told by.
#[derive(Clone, Copy)]
pub(crate) struct Blow {
    at: usize,
    new: u16,
    of_walk: bool,
}

impl Blow {
    fn any(at: usize, new: u16) -> Blow {
        Blow {
            at,
            new,
            of_walk: false,
        }
    }

    // A walk's number; where the same is drawn, the next.
    pub(crate) fn of_walk(g: Draws, field: Field, m: &Model) -> Blow {
        let (at, old) = match field {
            Field::Target => (8, m.walk.map(|w| w.target)),
            Field::Handed => (10, m.walk.and_then(|w| w.handed)),
        };
        let old = old.unwrap_or(ABSENT);
        let new = walk_number(g, m);
        Blow {
            at,
            new: if new == old { old.wrapping_add(1) } else { new },
            of_walk: true,
        }
    }

    // One byte changed; or an environment has another parent, which may be as deep as the one it had; or a walk another number.
    fn some(g: Draws, s: &[u8], m: &Model) -> Blow {
        let h = g.later();
        match h.later().below(8) {
            0 | 1 => {
                let node = node_at(m.vars(), g.which(m.made()));
                Blow::any(node.wrapping_add(2), short(h.below(m.made())))
            }
            2 | 3 if g.once_in(2) => Blow::of_walk(h, Field::Target, m),
            2 | 3 => Blow::of_walk(h, Field::Handed, m),
            _ => {
                let at = draw::hit(g, m.size());
                let [low, high] = number(s, at).to_le_bytes();
                let low = low.wrapping_add(draw::blow(h));
                Blow::any(at, u16::from_le_bytes([low, high]))
            }
        }
    }

    // Where it is counted: the store is refused, or still sound.
    fn counted(self, sound: bool) -> Count {
        match (self.of_walk, sound) {
            (false, false) => Count::Broken,
            (false, true) => Count::StillSound,
            (true, false) => Count::Fields,
            (true, true) => Count::FieldsStillSound,
        }
    }
}

// None, the child of the focus on the walk's way, or a number up to the first that is not made.
fn walk_number(g: Draws, m: &Model) -> u16 {
    match g.below(4) {
        0 => ABSENT,
        1 => m.child().unwrap_or(0),
        _ => short(g.which(m.made().wrapping_add(1))),
    }
}

// Where a cell that a variable or a node has is: its state, and its bits.
fn some_cell(g: Draws, m: &Model) -> (usize, usize) {
    let n = g.which(m.made());
    let node = node_at(m.vars(), n);
    let variable = g.which(m.vars());
    let cell = Store::HEADER.wrapping_add(Store::CELL.wrapping_mul(variable));
    match n {
        0 => (cell, cell.wrapping_add(1)),
        _ => (node.wrapping_add(1), node.wrapping_add(8)),
    }
}

impl Bench {
    // ---- refused by all

    // Every call refuses, and no byte of the trace is another.
    fn each_refuses(&mut self, g: Draws) -> Result<bool, AllocError> {
        let damaged = Numbers::from(Refusal::Damaged);
        let mut trace = patterned(self.alloc, 2 * Store::EVENT)?;
        for call in Call::each(short(g.below(3)), short(g.next().below(3))).iter() {
            if ask::make(*call, self.store.as_mut_slice(), trace.as_mut_slice()) != damaged {
                return Ok(false);
            }
        }
        let untouched = patterned(self.alloc, 2 * Store::EVENT)?;
        Ok(trace.as_slice() == untouched.as_slice())
    }

    // Whether every call refuses, and no byte of store or trace is another.
    pub(crate) fn all_refuse(&mut self, g: Draws) -> Result<bool, AllocError> {
        let kept = Vec::from_slice(self.alloc, self.store.as_slice())?;
        let told = ask::tell(self.store.as_slice(), word(g.below(3)));
        let refused = told == Told::from(Refusal::Damaged) && self.each_refuses(g)?;
        Ok(refused && self.store.as_slice() == kept.as_slice())
    }

    // The model of the store's bytes, and whether they are sound. No goto stands beside a walk that is read from bytes.
    pub(crate) fn take(&mut self) -> Result<bool, AllocError> {
        self.beside = None;
        self.model.take(self.store.as_slice())
    }

    // After a store was refused, or was not, it is right again.
    pub(crate) fn taken_again(&mut self, refused: bool) -> Result<(), Found> {
        let sound = self.take()?;
        if !refused {
            return Err(Found::Refusal);
        }
        if sound { Ok(()) } else { Err(Found::Own) }
    }

    // ---- a byte changed

    // In bytes that agree. A damaged store is refused by all, and then the damage is undone; with one that is still sound the model goes
    // on, as what it now means.
    pub(crate) fn strike(&mut self, g: Draws, b: Blow) -> Result<(), Found> {
        let Blow { at, new, .. } = b;
        let old = number(self.store.as_slice(), at);
        self.loud
            .line(format_args!("damage: byte={at} number={new}"));
        put_number(self.store.as_mut_slice(), at, new);
        let sound = self.take()?;
        self.counts.add(b.counted(sound), 1);
        if sound {
            self.lent = Vec::from_slice(self.alloc, self.store.as_slice())?;
            return self.values_agree(g, SOME);
        }
        let refused = self.all_refuse(g)?;
        put_number(self.store.as_mut_slice(), at, old);
        self.taken_again(refused)
    }

    pub(crate) fn damage(&mut self, g: Draws) -> Result<(), Found> {
        let b = Blow::some(g, self.store.as_slice(), &self.model);
        self.strike(g, b)
    }

    // ---- a cell that loses its value

    // One cell emptied, of bytes that agree. The store stays sound.
    pub(crate) fn hollow(&mut self, g: Draws) -> Result<(), Found> {
        let (state, bits) = some_cell(g, &self.model);
        let empty = cell(None);
        self.loud.line(format_args!("hollow: cell at byte={state}"));
        put(self.store.as_mut_slice(), state, &empty[..1]);
        put(self.store.as_mut_slice(), bits, &empty[1..]);
        if !self.take()? {
            return Err(Found::Own);
        }
        self.values_agree(g, SOME)
    }
}
