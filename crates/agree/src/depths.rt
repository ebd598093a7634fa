// False depths: every call refuses, whichever node has one, and where all are false alike.
use crate::bench::Bench;
use crate::buffer::{number, put_number, short};
use crate::counts::Count;
use crate::draw::Draws;
use crate::found::Found;
use crate::image::node_at;
use crate::model::Model;

// Of a blank, that of the environment that last had its number.
fn depth(m: &Model, n: usize) -> u16 {
    m.node(short(n)).depth
}

// How a node's depth is false: one too many, one too few, 0, some node's, or with a high byte.
#[derive(Clone, Copy, Debug, PartialEq, Eq)]
enum Wrong {
    OneMore,
    OneLess,
    Zero,
    Another,
    HighByte,
}

impl Wrong {
    const ALL: [Wrong; 5] = [
        Wrong::OneMore,
        Wrong::OneLess,
        Wrong::Zero,
        Wrong::Another,
        Wrong::HighByte,
    ];

    fn drawn(g: Draws) -> Wrong {
        Wrong::ALL
            .get(g.below(5))
            .copied()
            .unwrap_or(Wrong::HighByte)
    }

    // What is added to the depth d.
    fn by(self, g: Draws, m: &Model, d: u16) -> u32 {
        let other = u32::from(depth(m, g.below(m.made())));
        let d = u32::from(d);
        match self {
            Wrong::OneMore => 1,
            Wrong::OneLess => 65_535,
            Wrong::Zero => 65_536 - d,
            Wrong::Another => 65_536 + other - d,
            Wrong::HighByte => 256 * (u32::from(short(g.below(255))) + 1),
        }
    }
}

// The nodes from one on, before another, are this much deeper (65,535: one less), with this focus; and where it is counted.
#[derive(Clone, Copy)]
struct Fault {
    from: usize,
    end: usize,
    by: u32,
    focus: u16,
    counted: Count,
}

// Of one node from `low` on, before `end`; by nothing where there is none.
fn one(g: Draws, m: &Model, wrong: Wrong, low: usize, end: usize, counted: Count) -> Fault {
    let n = g.between(low, end);
    let by = wrong.by(g.next(), m, depth(m, n));
    Fault {
        from: n,
        end: n.wrapping_add(1),
        by: if n < end { by } else { 0 },
        focus: m.focus,
        counted,
    }
}

// Of all, the top too, by as many as are in, and the focus is the top: that the top is not 0 deep is all that is false.
fn shifted(m: &Model) -> Fault {
    Fault {
        from: 0,
        end: m.made(),
        by: u32::from(m.node(m.focus).depth),
        focus: 0,
        counted: Count::Shifted,
    }
}

// A node in each way; then the top, a blank and all.
fn faults(g: Draws, m: &Model) -> [Fault; 8] {
    let drawn = Wrong::drawn(g);
    let made = m.made();
    let node = |wrong: Wrong| one(g, m, wrong, 1, made, Count::NodeDepth);
    [
        node(Wrong::OneMore),
        node(Wrong::OneLess),
        node(Wrong::Zero),
        node(Wrong::Another),
        node(Wrong::HighByte),
        one(g, m, drawn, 0, 1, Count::TopDepth),
        one(g, m, drawn, made, usize::from(m.room), Count::BlankDepth),
        shifted(m),
    ]
}

impl Bench {
    // The depths of these nodes become this much deeper.
    fn deepen(&mut self, e: Fault, vars: usize, by: u16) {
        let s = self.store.as_mut_slice();
        for n in e.from..e.end {
            let at = node_at(vars, n).wrapping_add(12);
            put_number(s, at, number(s, at).wrapping_add(by));
        }
    }

    // Depths false in this way, in bytes that agree, are refused; then they are right again.
    fn false_depth(&mut self, g: Draws, e: Fault) -> Result<(), Found> {
        let Fault { from, end, by, .. } = e;
        let deeper = (by % 65_536) as u16;
        let focus = self.model.focus;
        let vars = self.model.vars();
        if deeper == 0 {
            return Ok(());
        }
        self.loud.line(format_args!("false depths: from node={from} before={end} plus={by}"));
        self.counts.add(e.counted, 1);
        put_number(self.store.as_mut_slice(), 6, e.focus);
        self.deepen(e, vars, deeper);
        let sound = self.take()?;
        let refused = self.all_refuse(g)? && !sound;
        put_number(self.store.as_mut_slice(), 6, focus);
        self.deepen(e, vars, 0u16.wrapping_sub(deeper));
        self.taken_again(refused)
    }

    pub(crate) fn false_depths(&mut self, g: Draws) -> Result<(), Found> {
        for fault in faults(g, &self.model).iter() {
            self.false_depth(g, *fault)?;
        }
        Ok(())
    }
}
