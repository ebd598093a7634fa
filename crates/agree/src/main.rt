// Runs many drawn sequences of operations on the store and on a model of deep binding that shares no code with it, and
// compares all that can be seen. It writes counts, or, at the first disagreement, the sequence.
#![tactic(auto)]

mod answers;
mod ask;
mod bench;
mod beside;
mod buffer;
mod calls;
mod compare;
mod counts;
mod damage;
mod depths;
mod doors;
mod draw;
mod found;
mod image;
mod model;
mod parents;
mod run;
mod say;
mod walk;

use crate::bench::Bench;
use crate::counts::Counts;
use crate::found::Found;
use crate::say::Loud;
use std::alloc::Global;

// Seeds are 1 to this number.
const SEQUENCES: usize = 12_000;

// Runs all sequences; at the first disagreement the sequence runs once more, with its operations written.
fn all(bench: &mut Bench) -> Result<(), Found> {
    for seed in 1..=SEQUENCES {
        match bench.sequence(seed) {
            Ok(()) => {}
            Err(Found::Memory) => return Err(Found::Memory),
            Err(_) => {
                bench.loud.on = true;
                return bench.sequence(seed);
            }
        }
    }
    Ok(())
}

// What all sequences count.
fn counted(alloc: Global, loud: Loud) -> Result<Counts, Found> {
    let mut bench = Bench::new(alloc, loud)?;
    all(&mut bench)?;
    Ok(bench.counts)
}

fn main(rt: HostRuntime) {
    let loud = Loud {
        out: rt.stdout(),
        on: false,
    };
    match counted(rt.alloc(), loud) {
        Ok(counts) => loud.write(counts),
        Err(found) => loud.write(format_args!("{found}\n")),
    }
}
