// A node that is its own parent: every call refuses, where the node is off the focus's path, and where it is on it.
use crate::bench::Bench;
use crate::buffer::{put_number, short};
use crate::counts::Count;
use crate::draw::Draws;
use crate::found::Found;
use crate::image::node_at;

// The first node from `from` on, before `end`, that is in or out.
fn seek(inside: &[bool], is_in: bool, from: usize, end: usize) -> Option<usize> {
    (from..end).find(|n| inside.get(*n).copied() == Some(is_in))
}

// The same from a drawn node on; where there is none, from `low` on.
fn some_node(g: Draws, inside: &[bool], is_in: bool, low: usize, end: usize) -> Option<usize> {
    seek(inside, is_in, g.between(low, end), end).or(seek(inside, is_in, low, end))
}

impl Bench {
    // Such a node from `low` on, before `end`, is its own parent: every call refuses.
    fn own_parent(&mut self, g: Draws, n: usize) -> Result<(), Found> {
        let at = node_at(self.model.vars(), n).wrapping_add(2);
        self.loud.line(format_args!("its own parent: node={n}"));
        let count = if n < 256 {
            Count::OwnLow
        } else {
            Count::OwnHigh
        };
        self.counts.add(count, 1);
        put_number(self.store.as_mut_slice(), at, short(n));
        let refused = self.all_refuse(g)?;
        let parent = self.model.parent(short(n));
        put_number(self.store.as_mut_slice(), at, parent);
        if refused { Ok(()) } else { Err(Found::Refusal) }
    }

    // One that is out; then one that is in, only where there is one that is out, which was refused.
    fn out_then_in(&mut self, g: Draws, low: usize, end: usize) -> Result<(), Found> {
        let inside = self.model.inside()?;
        let Some(out) = some_node(g, inside.as_slice(), false, low, end) else {
            return Ok(());
        };
        self.own_parent(g, out)?;
        match some_node(g, inside.as_slice(), true, low, end) {
            None => Ok(()),
            Some(n) => self.own_parent(g, n),
        }
    }

    // Up to 255, and above.
    pub(crate) fn own_parents(&mut self, g: Draws) -> Result<(), Found> {
        let made = self.model.made();
        self.out_then_in(g, 1, made.min(256))?;
        self.out_then_in(g, 256, made)
    }
}
