// What is compared: answers, every byte of the store, the values of all variables in all environments, and what each environment
// is.
use crate::answers::{Numbers, Told};
use crate::ask;
use crate::bench::Bench;
use crate::buffer::{byte, word};
use crate::counts::Count;
use crate::draw::Draws;
use crate::found::Found;
use std::alloc::AllocError;

// Drawn places in a large store: after a step, and at the end.
pub(crate) const SOME: usize = 20;

pub(crate) const MANY: usize = 400;

// Up to so many values all are compared.
const FEW: usize = 400;

impl Bench {
    // ---- answers and bytes

    pub(crate) fn answers(&mut self, want: Numbers, got: Numbers) -> Result<(), Found> {
        self.counts.answer(want);
        if want == got {
            return Ok(());
        }
        self.loud.differ(want, got);
        Err(Found::Answer)
    }

    // What all lent bytes have to be: the store's, and after them those that were lent.
    fn wanted(&self) -> Result<Vec<u8>, AllocError> {
        let mut bytes = self.model.image()?;
        let rest = self.lent.as_slice().get(bytes.len()..).unwrap_or(&[]);
        bytes.extend_from_slice(rest)?;
        Ok(bytes)
    }

    // Whether these bytes are what the model has them to be.
    pub(crate) fn compare(&self, bytes: &[u8]) -> Result<(), Found> {
        let wanted = self.wanted()?;
        let Some(at) = bytes.iter().zip(wanted.iter()).position(|(a, b)| *a != *b) else {
            return Ok(());
        };
        let want = byte(wanted.as_slice(), at);
        let got = byte(bytes, at);
        self.loud
            .line(format_args!("byte={at} model={want} store={got}"));
        Err(Found::Bytes)
    }

    pub(crate) fn bytes_agree(&self) -> Result<(), Found> {
        self.compare(self.store.as_slice())
    }

    // ---- values

    fn value_agrees(&self, a: usize, x: usize) -> Result<(), Found> {
        let want = match self.model.peek(word(a), word(x)) {
            Ok(done) => Numbers::from(done),
            Err(refusal) => Numbers::from(refusal),
        };
        let got = ask::peek(self.store.as_slice(), word(a), word(x));
        if want == got {
            return Ok(());
        }
        self.loud
            .line(format_args!("the value of variable={x} at={a}"));
        self.loud.differ(want, got);
        Err(Found::Value)
    }

    // What is told of the environment a, or that it is not made.
    fn told_agrees(&self, a: usize) -> Result<(), Found> {
        let want = self.model.tell(word(a)).unwrap_or_else(Told::from);
        let got = ask::tell(self.store.as_slice(), word(a));
        if want == got {
            return Ok(());
        }
        self.loud.line(format_args!("told: environment={a}"));
        self.loud.differ(want, got);
        Err(Found::Value)
    }

    fn all_agree(&self) -> Result<(), Found> {
        for a in 0..self.model.made() {
            self.told_agrees(a)?;
            for x in 0..self.model.vars() {
                self.value_agrees(a, x)?;
            }
        }
        Ok(())
    }

    fn spots_agree(&self, seed: Draws, spots: usize) -> Result<(), Found> {
        let mut g = seed;
        for _ in 0..spots {
            let a = g.below(self.model.made());
            g = g.next();
            let x = g.below(self.model.vars());
            g = g.next();
            self.told_agrees(a)?;
            self.value_agrees(a, x)?;
        }
        Ok(())
    }

    // How many values there are. Of 256 variables none is counted and all are compared: the counts in the file stdout go by that.
    fn all_values(&self) -> usize {
        (self.model.vars() % 256).wrapping_mul(self.model.made())
    }

    // The values of all variables in all environments, and what each is; where there are too many, at some drawn places. Then the first
    // that is not made.
    pub(crate) fn values_agree(&mut self, g: Draws, spots: usize) -> Result<(), Found> {
        let all = self.all_values();
        let few = all <= FEW;
        let told = if few { self.model.made() } else { spots };
        self.counts
            .add(Count::Values, if few { all } else { spots });
        self.counts.add(Count::Environments, told.wrapping_add(1));
        if few {
            self.all_agree()?;
        } else {
            self.spots_agree(g, spots)?;
        }
        self.told_agrees(self.model.made())
    }
}
