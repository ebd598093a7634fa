// What is counted over all sequences.
use crate::answers::{Numbers, Refusal};
use std::fmt;

// In the order in which they are written; the refusals come after the first two.
#[derive(Clone, Copy, Debug, PartialEq, Eq)]
pub(crate) enum Count {
    Sequences,
    Operations,
    Values,
    Moves,
    Events,
    Broken,
    StillSound,
    OwnLow,
    OwnHigh,
    Far,
    FarTop,
    FarSame,
    FarNone,
    NodeDepth,
    TopDepth,
    BlankDepth,
    Shifted,
    Pairs,
    PutIn,
    During,
    HandedOver,
    Finished,
    Same,
    Dropped,
    Fields,
    FieldsStillSound,
    Environments,
}

const FIRST: [(Count, &str); 2] = [
    (Count::Sequences, "sequences"),
    (Count::Operations, "operations"),
];

const LAST: [(Count, &str); 25] = [
    (Count::Values, "values compared"),
    (Count::Moves, "moves compared"),
    (Count::Events, "events compared"),
    (Count::Broken, "damaged stores refused"),
    (Count::StillSound, "changed stores still sound"),
    (Count::OwnLow, "own parents up to 255 refused"),
    (Count::OwnHigh, "own parents above 255 refused"),
    (Count::Far, "far between two nodes"),
    (Count::FarTop, "far to or from the top"),
    (Count::FarSame, "far from one to itself"),
    (Count::FarNone, "far to or from one not made"),
    (Count::NodeDepth, "false depths of nodes refused"),
    (Count::TopDepth, "false depths of the top refused"),
    (Count::BlankDepth, "false depths of blanks refused"),
    (Count::Shifted, "shifted depths refused"),
    (Count::Pairs, "runs with jumps put in compared"),
    (Count::PutIn, "jumps put in"),
    (Count::During, "operations during a walk, but far and drop"),
    (Count::HandedOver, "events handed over by steps"),
    (
        Count::Finished,
        "walks with the moves and events of goto and sets between",
    ),
    (
        Count::Same,
        "walks with the moves, events and bytes of goto",
    ),
    (Count::Dropped, "walks dropped"),
    (Count::Fields, "false targets and winds refused"),
    (
        Count::FieldsStillSound,
        "other targets and winds still sound",
    ),
    (Count::Environments, "environments told"),
];

// Of each count, and of each answer's number.
#[derive(Clone, Copy)]
pub(crate) struct Counts {
    counted: [usize; 27],
    answered: [usize; 12],
}

fn add(counts: &mut [usize], i: usize, n: usize) {
    if let Some(c) = counts.get_mut(i) {
        *c = c.wrapping_add(n);
    }
}

impl Counts {
    pub(crate) fn new() -> Counts {
        Counts {
            counted: [0; 27],
            answered: [0; 12],
        }
    }

    pub(crate) fn add(&mut self, count: Count, n: usize) {
        add(&mut self.counted, count as usize, n);
    }

    pub(crate) fn answer(&mut self, a: Numbers) {
        add(&mut self.answered, usize::from(a.code), 1);
        self.add(Count::Operations, 1);
        self.add(Count::Events, usize::from(a.events));
        self.add(Count::Moves, usize::from(a.moves));
    }

    fn of(&self, count: Count) -> usize {
        self.counted.get(count as usize).copied().unwrap_or(0)
    }

    fn refused(&self, r: Refusal) -> usize {
        self.answered.get(r as usize).copied().unwrap_or(0)
    }
}

impl fmt::Display for Counts {
    fn fmt<W: fmt::Write>(&self, f: &mut fmt::Formatter<W>) -> fmt::Result {
        for (count, name) in FIRST.iter() {
            writeln!(f, "{name}={}", self.of(*count))?;
        }
        for r in Refusal::ALL.iter() {
            writeln!(f, "refused with {}={}", *r as u16, self.refused(*r))?;
        }
        for (count, name) in LAST.iter() {
            writeln!(f, "{name}={}", self.of(*count))?;
        }
        Ok(())
    }
}
