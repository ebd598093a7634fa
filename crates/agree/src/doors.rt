// Going round by another door: a second run of the sequence, in a store of its own, makes the first's binds, winds, sets and
// heres with drawn jumps put in before each, and none of the first's gotos, backs and walks. Where the first is not in a walk, both
// have the same bytes at the same focus.
use crate::answers::Numbers;
use crate::ask;
use crate::bench::Bench;
use crate::buffer::word;
use crate::calls::{Call, Op};
use crate::counts::Count;
use crate::draw::Draws;
use crate::found::Found;
use layout::Store;

// A goto to an environment that is made, or a back.
fn drawn(g: Draws, made: usize) -> Call {
    match g.below(4) {
        0 => Call::Back,
        _ => Call::Goto {
            node: word(g.which(made)),
        },
    }
}

// Whether the operation is one of those that both make. A wind without room is refused, and in a walk a bind too.
fn is_of_both(o: Op, walking: bool) -> bool {
    match o.call {
        Call::Set { .. } | Call::Here => true,
        Call::Bind { .. } => !walking,
        Call::Wind { .. } => !walking && Store::EVENT <= o.trace,
        _ => false,
    }
}

impl Bench {
    // The call in the second run, with room for all events.
    fn make_second(&mut self, c: Call) -> Numbers {
        ask::make(c, self.second.as_mut_slice(), self.spare.as_mut_slice())
    }

    // The second run begins with the bytes of the first, but in no walk.
    pub(crate) fn begin_second(&mut self) -> Result<(), Found> {
        self.second = Vec::from_slice(self.alloc, self.store.as_slice())?;
        self.make_second(Call::Drop);
        Ok(())
    }

    // A jump in the second run: whether it is answered.
    fn jump(&mut self, c: Call) -> bool {
        let r = self.make_second(c);
        if r.code == 0 {
            self.loud.line(format_args!("put in: a jump to={}", r.out));
        }
        r.code == 0
    }

    // Up to four drawn jumps.
    fn jumps(&mut self, seed: Draws) {
        let made = self.model.made();
        let mut g = seed;
        for _ in 0..seed.below(5) {
            g = g.later();
            if self.jump(drawn(g, made)) {
                self.counts.add(Count::PutIn, 1);
            }
        }
    }

    // To where the first run has its focus.
    fn home(&mut self) {
        let node = u32::from(self.model.focus);
        self.jump(Call::Goto { node });
    }

    // Before the first run makes the operation: jumps, then home, then the operation.
    pub(crate) fn go_round(&mut self, g: Draws, o: Op) {
        if is_of_both(o, self.model.walk.is_some()) {
            self.jumps(g);
            self.home();
            self.make_second(o.call);
        }
    }

    // Whether the two runs have the same bytes, those lent after the store too, where the first is in no walk.
    pub(crate) fn pair_agrees(&mut self) -> Result<(), Found> {
        if self.model.walk.is_some() {
            return Ok(());
        }
        self.counts.add(Count::Pairs, 1);
        self.home();
        if self.second.as_slice() == self.store.as_slice() {
            return Ok(());
        }
        let _ = self.compare(self.second.as_slice());
        Err(Found::Doors)
    }
}
