// The bytes that a store of the model's has to have, and the way back: the model of a store's bytes. Bytes are a sound store
// exactly where they are those of their own model.
use crate::answers::{Done, Refusal, Stop};
use crate::buffer::{byte, number, short};
use crate::model::{Kind, Model, Node, Walk, fits};
use layout::Store;
use std::alloc::AllocError;
use std::mem;

// In the header, for no target and for no wind.
pub(crate) const ABSENT: u16 = Store::NONE;

// The cell of a value: its state, and its bits.
pub(crate) fn cell(value: Option<i32>) -> [u8; Store::CELL] {
    let [a, b, c, d] = value.unwrap_or(0).to_le_bytes();
    [u8::from(value.is_some()), a, b, c, d]
}

// The value of a cell.
fn value_in(cell: &[u8]) -> Option<i32> {
    match cell {
        [1, a, b, c, d] => Some(i32::from_le_bytes([*a, *b, *c, *d])),
        _ => None,
    }
}

fn is_proper(cell: &[u8]) -> bool {
    matches!(cell, [0, 0, 0, 0, 0] | [1, ..])
}

// Where the node n is in a store of so many variables.
pub(crate) fn node_at(vars: usize, n: usize) -> usize {
    Store::HEADER
        .wrapping_add(Store::CELL.wrapping_mul(vars))
        .wrapping_add(Store::NODE.wrapping_mul(n))
}

// The six numbers of a store's header.
#[derive(Clone, Copy)]
struct Header {
    vars: u16,
    room: u16,
    made: u16,
    focus: u16,
    target: u16,
    handed: u16,
}

impl Header {
    fn of(b: &[u8]) -> Header {
        Header {
            vars: number(b, 0),
            room: number(b, 2),
            made: number(b, 4),
            focus: number(b, 6),
            target: number(b, 8),
            handed: number(b, 10),
        }
    }

    fn is_sound(self, len: usize) -> bool {
        fits(self.vars, self.room, len) && self.made <= self.room && self.focus < self.made
    }
}

// What a node is by its bytes, as if it were out; the top where they are neither a binding's nor a wind's.
fn kind_in(b: &[u8]) -> Kind {
    let given = number(b, 4);
    match byte(b, 0) {
        2 | 3 => Kind::Binding {
            variable: given,
            own: value_in(&[byte(b, 1), byte(b, 8), byte(b, 9), byte(b, 10), byte(b, 11)]),
        },
        4 | 5 => Kind::Wind {
            prelude: given,
            postlude: number(b, 6),
        },
        _ => Kind::Top,
    }
}

impl Model {
    // ---- the store's bytes

    // Which environments are in: the focus and those above it.
    pub(crate) fn inside(&self) -> Result<Vec<bool>, AllocError> {
        let mut inside = vec![in self.alloc; false; self.made()]?;
        for n in self.climb(self.focus) {
            if let Some(is_in) = inside.get_mut(usize::from(n)) {
                *is_in = true;
            }
        }
        Ok(inside)
    }

    // What n stores: a binding that is out its own value, one that is in its variable's value at its parent.
    fn stored(&self, n: Node, is_in: bool) -> Option<i32> {
        match n.kind {
            Kind::Binding { variable, .. } if is_in => self.value(n.parent, variable),
            Kind::Binding { own, .. } => own,
            _ => None,
        }
    }

    fn node_bytes(&self, n: usize, is_in: bool) -> [u8; Store::NODE] {
        let node = self.node(short(n));
        let [state, v0, v1, v2, v3] = cell(self.stored(node, is_in));
        let (kind, given, post) = match node.kind {
            Kind::Top => (1u8, 0u16, 0u16),
            Kind::Binding { variable, .. } => (2, variable, 0),
            Kind::Wind { prelude, postlude } => (4, prelude, postlude),
        };
        let kind = kind | u8::from(is_in);
        let [p0, p1] = node.parent.to_le_bytes();
        let [g0, g1] = given.to_le_bytes();
        let [q0, q1] = post.to_le_bytes();
        let [d0, d1] = node.depth.to_le_bytes();
        [kind, state, p0, p1, g0, g1, q0, q1, v0, v1, v2, v3, d0, d1]
    }

    fn header(&self) -> [u16; 6] {
        let target = self.walk.map_or(ABSENT, |w| w.target);
        let handed = self.walk.and_then(|w| w.handed).unwrap_or(ABSENT);
        [
            short(self.vars()),
            self.room,
            self.made,
            self.focus,
            target,
            handed,
        ]
    }

    // All bytes of the store.
    pub(crate) fn image(&self) -> Result<Vec<u8>, AllocError> {
        let mut bytes = Vec::with_capacity(self.alloc, self.size())?;
        for n in self.header().iter() {
            bytes.extend_from_slice(&n.to_le_bytes())?;
        }
        for x in 0..self.vars() {
            bytes.extend_from_slice(&cell(self.value(self.focus, short(x))))?;
        }
        let inside = self.inside()?;
        for (n, is_in) in inside.iter().enumerate() {
            bytes.extend_from_slice(&self.node_bytes(n, *is_in))?;
        }
        bytes.resize(self.size(), 0)?;
        Ok(bytes)
    }

    // ---- and back

    // The values of these cells are the top values.
    fn take_tops(&mut self, cells: &[u8]) -> Result<(), AllocError> {
        self.tops.clear();
        for cell in cells.chunks_exact(Store::CELL) {
            self.tops.push(value_in(cell))?;
        }
        Ok(())
    }

    // The next node, and whether it can be one.
    fn take_node(&mut self, b: &[u8]) -> bool {
        let n = self.made;
        let parent = number(b, 2);
        let kind = kind_in(b);
        self.put_node(n, parent, kind);
        self.made = n.saturating_add(1);
        let known = match kind {
            Kind::Top => false,
            Kind::Binding { variable, .. } => usize::from(variable) < self.vars(),
            Kind::Wind { .. } => true,
        };
        known && parent < n
    }

    fn take_nodes(&mut self, records: &[u8], made: u16) -> bool {
        self.made = 1;
        let others = usize::from(made).saturating_sub(1);
        for record in records.chunks_exact(Store::NODE).skip(1).take(others) {
            if !self.take_node(record) {
                return false;
            }
        }
        true
    }

    // A target is made. A wind is there during a walk alone: the next node that it enters.
    fn take_walk(&mut self, h: Header) -> bool {
        self.walk = None;
        if h.target == ABSENT {
            return h.handed == ABSENT;
        }
        let handed = if h.handed == ABSENT {
            None
        } else {
            Some(h.handed)
        };
        self.walk = Some(Walk {
            target: h.target,
            handed,
        });
        h.target < h.made && handed.is_none_or(|c| self.child() == Some(c) && self.is_wind(c))
    }

    fn is_wind(&self, n: u16) -> bool {
        matches!(self.node(n).kind, Kind::Wind { .. })
    }

    // A binding's own value and the top value of its variable are exchanged.
    fn exchange(&mut self, n: u16) {
        let Node { parent, kind, .. } = self.node(n);
        let Kind::Binding { variable, own } = kind else {
            return;
        };
        if let Some(top) = self.tops.get_mut(usize::from(variable)) {
            let own = mem::replace(top, own);
            self.put_node(n, parent, Kind::Binding { variable, own });
        }
    }

    // From the focus up: own values and top values. The own value of a binding that is in is the one below it, and it stores
    // the one above.
    fn take_path(&mut self) -> Result<(), AllocError> {
        let path: Vec<u16> = self.climb(self.focus).collect(self.alloc)?;
        for n in path.iter() {
            self.exchange(*n);
        }
        Ok(())
    }

    // Whether the bytes are a sound store; then this is its model. Where they are not it is none: sound ones have to be taken next.
    pub(crate) fn take(&mut self, b: &[u8]) -> Result<bool, AllocError> {
        let h = Header::of(b);
        let nodes = node_at(usize::from(h.vars), 0);
        if !h.is_sound(b.len()) {
            return Ok(false);
        }
        self.room = h.room;
        self.focus = h.focus;
        self.take_tops(b.get(Store::HEADER..nodes).unwrap_or(&[]))?;
        if !self.take_nodes(b.get(nodes..).unwrap_or(&[]), h.made) || !self.take_walk(h) {
            return Ok(false);
        }
        self.take_path()?;
        let image = self.image()?;
        Ok(b.starts_with(image.as_slice()))
    }

    // ---- opening

    fn openable(vars: u16, nodes: u16, tops: &[u8], len: usize) -> bool {
        fits(vars, nodes, len)
            && tops.len() == Store::BARE * usize::from(vars)
            && tops.chunks_exact(Store::BARE).all(is_proper)
    }

    // With these cells, in a buffer of this length.
    pub(crate) fn open(
        &mut self,
        vars: u32,
        nodes: u32,
        tops: &[u8],
        len: usize,
    ) -> Result<Done, Stop> {
        let (Ok(vars), Ok(room)) = (u16::try_from(vars), u16::try_from(nodes)) else {
            return Err(Stop::Refused(Refusal::Setup));
        };
        if !Model::openable(vars, room, tops, len) {
            return Err(Stop::Refused(Refusal::Setup));
        }
        self.take_tops(tops)?;
        self.made = 1;
        self.room = room;
        self.focus = 0;
        self.walk = None;
        Ok(Done::Number(0))
    }
}
