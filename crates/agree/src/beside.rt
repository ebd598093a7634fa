// A walk beside goto: before it begins a copy of the store goes to its target. The steps together make goto's moves, hand its
// events over, each at its place, and leave its bytes, but where a set stood between.
use crate::answers::Numbers;
use crate::ask;
use crate::bench::Bench;
use crate::buffer::{byte, number};
use crate::calls::Call;
use crate::counts::Count;
use crate::found::Found;
use layout::Store;

// What is left of the goto's moves and events; all its events, and the trace with them; and its bytes, until a set is answered.
#[derive(Drop)]
pub(crate) struct Beside {
    moves: u16,
    events: u16,
    told: u16,
    trace: Vec<u8>,
    bytes: Option<Vec<u8>>,
}

impl Beside {
    // Whether the event that is handed over is goto's next one.
    fn is_next(&self, r: Numbers) -> bool {
        let next = self.told.wrapping_sub(self.events);
        let at = usize::from(next).wrapping_mul(Store::EVENT);
        let trace = self.trace.as_slice();
        u16::from(byte(trace, at)) == r.event
            && number(trace, at.wrapping_add(1)) == r.thunk
            && i32::from(number(trace, at.wrapping_add(3))) == r.out
    }

    // Whether a step is goto's next event, or all that was left of it.
    fn agrees(&self, r: Numbers, s: &[u8]) -> bool {
        if r.events == 1 {
            return self.is_next(r);
        }
        let same = match &self.bytes {
            None => true,
            Some(bytes) => bytes.as_slice() == s,
        };
        self.events == 0 && self.moves == r.moves && same
    }

    fn take(&mut self, r: Numbers) {
        self.moves = self.moves.wrapping_sub(r.moves);
        self.events = self.events.wrapping_sub(r.events);
    }

    // Where the walk's end is counted.
    fn counted(&self) -> Count {
        match self.bytes {
            None => Count::Finished,
            Some(_) => Count::Same,
        }
    }
}

impl Bench {
    // Before a call: if it begins a walk, a copy of the store makes the goto.
    pub(crate) fn before(&mut self, c: Call) -> Result<(), Found> {
        let Call::Begin { target } = c else {
            return Ok(());
        };
        let mut there = Vec::from_slice(self.alloc, self.store.as_slice())?;
        let mut trace = vec![in self.alloc; 0u8; Store::EVENT * Store::NODES]?;
        let goto = Call::Goto { node: target };
        let r = ask::make(goto, there.as_mut_slice(), trace.as_mut_slice());
        if r.code == 0 {
            self.beside = Some(Beside {
                moves: r.moves,
                events: r.events,
                told: r.events,
                trace,
                bytes: Some(there),
            });
        }
        Ok(())
    }

    fn stepped(&mut self, r: Numbers) -> Result<(), Found> {
        if r.events == 1 {
            self.counts.add(Count::HandedOver, 1);
        }
        let Some(beside) = &mut self.beside else {
            return Ok(());
        };
        if r.events != 1 {
            self.counts.add(beside.counted(), 1);
        }
        let agrees = beside.agrees(r, self.store.as_slice());
        beside.take(r);
        if agrees { Ok(()) } else { Err(Found::Walks) }
    }

    // After a call that was answered so. A set's bytes are no longer goto's.
    pub(crate) fn after(&mut self, c: Call, r: Numbers) -> Result<(), Found> {
        if r.code != 0 {
            return Ok(());
        }
        match c {
            Call::Step => self.stepped(r),
            Call::Set { .. } => {
                if let Some(beside) = &mut self.beside {
                    beside.bytes = None;
                }
                Ok(())
            }
            _ => Ok(()),
        }
    }
}
