// The second opinion: deep binding as TR397's Figure 2 has it, no cells and no modes. A value is found by climbing from an
// environment to the nearest binding; what a switch moves and tells is found by comparing two paths to the top.
ghost use Rattle.std.specs.Prelude.{◌-◌, ◌≤◌};
ghost use Rattle.std.specs.Iterator.{at_most};

use crate::answers::{Done, Event, Refusal, Stop, Told, Way};
use crate::buffer::short;
use crate::calls::Call;
use layout::Store;
use std::alloc::{AllocError, Global};

#[derive(Clone, Copy, Debug, PartialEq, Eq)]
pub(crate) enum Kind {
    Top,
    Binding { variable: u16, own: Option<i32> },
    Wind { prelude: u16, postlude: u16 },
}

#[derive(Clone, Copy, Debug, PartialEq, Eq)]
pub(crate) struct Node {
    pub parent: u16,
    pub depth: u16,
    pub kind: Kind,
}

impl Node {
    pub(crate) const TOP: Node = Node {
        parent: 0,
        depth: 0,
        kind: Kind::Top,
    };
}

// A walk's target, and the wind that was handed over and is to be entered.
#[derive(Clone, Copy, Debug, PartialEq, Eq)]
pub(crate) struct Walk {
    pub target: u16,
    pub handed: Option<u16>,
}

// The environments, the top first, and how many are made; the top values; N; the focus; and of a walk its two. A blank keeps the
// environment that last had its number: what is drawn for a number that is not made goes by that.
#[derive(Drop)]
pub(crate) struct Model {
    pub alloc: Global,
    pub nodes: Vec<Node>,
    pub made: u16,
    pub tops: Vec<Option<i32>>,
    pub room: u16,
    pub focus: u16,
    pub walk: Option<Walk>,
}

// The size of a store with so many variables and environments.
pub(crate) fn size_of(vars: u16, nodes: u16) -> usize {
    Store::HEADER + Store::CELL * usize::from(vars) + Store::NODE * usize::from(nodes)
}

// Whether V and N are in range and a buffer of this length is enough.
pub(crate) fn fits(vars: u16, nodes: u16, len: usize) -> bool {
    (1..=Store::VARS).contains(&usize::from(vars))
        && (1..=Store::NODES).contains(&usize::from(nodes))
        && size_of(vars, nodes) <= len
}

// The environments from one up, the top left out.
#[derive(Drop)]
pub(crate) struct Climb<'a> {
    model: &'a Model,
    at: u16,
}

impl<'a> Iterator for Climb<'a> {
    type Item = u16;

    ghost remaining = { λ s. at_most s.at };

    fn next(&mut self) -> Option<u16> {
        if self.at == 0 {
            return None;
        }
        let n = self.at;
        self.at = self.model.parent(n);
        Some(n)
    }
}

// An environment is left or entered.
#[derive(Clone, Copy, Debug, PartialEq, Eq)]
pub(crate) struct Move {
    pub way: Way,
    pub node: u16,
}

impl Model {
    // No store yet.
    pub(crate) fn new(alloc: Global) -> Result<Model, AllocError> {
        Ok(Model {
            alloc,
            nodes: vec![in alloc; Node::TOP; Store::NODES]?,
            made: 1,
            tops: Vec::new(alloc),
            room: 1,
            focus: 0,
            walk: None,
        })
    }

    pub(crate) fn made(&self) -> usize {
        usize::from(self.made)
    }

    pub(crate) fn vars(&self) -> usize {
        self.tops.len()
    }

    pub(crate) fn size(&self) -> usize {
        size_of(short(self.vars()), self.room)
    }

    pub(crate) fn is_full(&self) -> bool {
        self.room <= self.made
    }

    pub(crate) fn node(&self, n: u16) -> Node {
        self.nodes.get(usize::from(n)).copied().unwrap_or(Node::TOP)
    }

    // The parent, which has a smaller number.
    pub(crate) fn parent(&self, n: u16) -> u16
        ensures { result ≤ n - 1 }
    {
        let parent = self.node(n).parent;
        if parent < n { parent } else { 0 }
    }

    // One deeper than its parent.
    pub(crate) fn put_node(&mut self, n: u16, parent: u16, kind: Kind) {
        let depth = self.node(parent).depth.wrapping_add(1);
        if let Some(node) = self.nodes.get_mut(usize::from(n)) {
            *node = Node {
                parent,
                depth,
                kind,
            };
        }
    }

    pub(crate) fn climb(&self, n: u16) -> Climb<'_> {
        Climb { model: self, at: n }
    }

    // ---- values

    fn binds(&self, n: u16, x: u16) -> bool {
        matches!(self.node(n).kind, Kind::Binding { variable, .. } if variable == x)
    }

    // The nearest node from a up that binds x, else 0: the top.
    fn decider(&self, a: u16, x: u16) -> u16 {
        self.climb(a).find(|n| self.binds(*n, x)).unwrap_or(0)
    }

    pub(crate) fn value(&self, a: u16, x: u16) -> Option<i32> {
        match self.node(self.decider(a, x)).kind {
            Kind::Binding { own, .. } => own,
            _ => self.tops.get(usize::from(x)).copied().unwrap_or(None),
        }
    }

    // The value of x at the focus.
    fn put_value(&mut self, x: u16, value: i32) {
        let by = self.decider(self.focus, x);
        if let Some(
            Node {
                kind: Kind::Binding { own, .. },
                ..
            },
        ) = self.nodes.get_mut(usize::from(by))
        {
            *own = Some(value);
        } else if let Some(top) = self.tops.get_mut(usize::from(x)) {
            *top = Some(value);
        }
    }

    // ---- switches

    // What a switch from a to b leaves, and then enters, the outer ones first: the nodes that the two paths have not in common.
    pub(crate) fn moves(&self, a: u16, b: u16) -> Result<Vec<Move>, AllocError> {
        let from: Vec<u16> = self.climb(a).collect(self.alloc)?;
        let to: Vec<u16> = self.climb(b).collect(self.alloc)?;
        let shared = from
            .iter()
            .rev()
            .zip(to.iter().rev())
            .take_while(|(p, q)| **p == **q)
            .count();
        let left = from.len().saturating_sub(shared);
        let left = from.iter().take(left).map(|n| Move {
            way: Way::Leaving,
            node: *n,
        });
        let entered = to.iter().rev().skip(shared).map(|n| Move {
            way: Way::Entering,
            node: *n,
        });
        left.chain(entered).collect(self.alloc)
    }

    // What a move tells: a wind's leaving or entering.
    pub(crate) fn event(&self, step: Move) -> Option<Event> {
        let node = self.node(step.node);
        let Kind::Wind { prelude, postlude } = node.kind else {
            return None;
        };
        Some(Event {
            way: step.way,
            thunk: match step.way {
                Way::Leaving => postlude,
                Way::Entering => prelude,
            },
            place: node.parent,
        })
    }

    pub(crate) fn events(&self, moves: &[Move]) -> Result<Vec<Event>, AllocError> {
        moves
            .iter()
            .filter_map(|step| self.event(*step))
            .collect(self.alloc)
    }

    // To a, where there is room for the events, which are then told.
    fn switch(&mut self, a: u16, room: usize, told: &mut Vec<Event>) -> Result<Done, Stop> {
        let moves = self.moves(self.focus, a)?;
        let events = self.events(moves.as_slice())?;
        if room < events.len() {
            return Err(Stop::Refused(Refusal::TraceRoom));
        }
        told.extend_from_slice(events.as_slice())?;
        self.focus = a;
        Ok(Done::Moved {
            focus: a,
            moves: short(moves.len()),
            events: short(events.len()),
        })
    }

    // ---- refusals

    fn known(&self, x: u32) -> Result<u16, Refusal> {
        match u16::try_from(x) {
            Ok(x) if usize::from(x) < self.vars() => Ok(x),
            _ => Err(Refusal::NoVariable),
        }
    }

    pub(crate) fn made_one(&self, a: u32) -> Result<u16, Refusal> {
        match u16::try_from(a) {
            Ok(a) if usize::from(a) < self.made() => Ok(a),
            _ => Err(Refusal::NoEnvironment),
        }
    }

    fn not_full(&self) -> Result<(), Refusal> {
        if self.is_full() {
            return Err(Refusal::Full);
        }
        Ok(())
    }

    pub(crate) fn at_rest(&self) -> Result<(), Refusal> {
        match self.walk {
            None => Ok(()),
            Some(_) => Err(Refusal::Walking),
        }
    }

    pub(crate) fn in_walk(&self) -> Result<Walk, Refusal> {
        self.walk.ok_or(Refusal::NotWalking)
    }

    // ---- the calls: what each answers, and what is then another

    // A new node, child of the focus, becomes the focus.
    fn grow(&mut self, kind: Kind) -> u16 {
        let n = self.made;
        self.put_node(n, self.focus, kind);
        self.made = n.saturating_add(1);
        self.focus = n;
        n
    }

    fn bind(&mut self, x: u32, value: i32) -> Result<Done, Stop> {
        self.at_rest()?;
        let variable = self.known(x)?;
        self.not_full()?;
        let own = Some(value);
        Ok(Done::Number(self.grow(Kind::Binding { variable, own })))
    }

    fn wind(
        &mut self,
        prelude: u16,
        postlude: u16,
        room: usize,
        told: &mut Vec<Event>,
    ) -> Result<Done, Stop> {
        self.at_rest()?;
        self.not_full()?;
        if room < 1 {
            return Err(Stop::Refused(Refusal::TraceRoom));
        }
        told.push(Event {
            way: Way::Entering,
            thunk: prelude,
            place: self.focus,
        })?;
        let focus = self.grow(Kind::Wind { prelude, postlude });
        Ok(Done::Moved {
            focus,
            moves: 0,
            events: 1,
        })
    }

    pub(crate) fn peek(&self, a: u32, x: u32) -> Result<Done, Refusal> {
        let x = self.known(x)?;
        let a = self.made_one(a)?;
        let value = self.value(a, x).ok_or(Refusal::Unbound)?;
        let by = self.decider(a, x);
        Ok(Done::Value { value, by })
    }

    fn look(&self, x: u32) -> Result<Done, Refusal> {
        self.peek(u32::from(self.focus), x)
    }

    pub(crate) fn here(&self) -> Done {
        Done::Number(self.focus)
    }

    // Set is refused where look is.
    fn set(&mut self, x: u32, value: i32) -> Result<Done, Stop> {
        self.look(x)?;
        let x = self.known(x)?;
        self.put_value(x, value);
        Ok(self.here())
    }

    fn goto(&mut self, a: u32, room: usize, told: &mut Vec<Event>) -> Result<Done, Stop> {
        self.at_rest()?;
        let a = self.made_one(a)?;
        self.switch(a, room, told)
    }

    fn back(&mut self, room: usize, told: &mut Vec<Event>) -> Result<Done, Stop> {
        self.at_rest()?;
        if self.focus == 0 {
            return Err(Stop::Refused(Refusal::Top));
        }
        let parent = self.parent(self.focus);
        self.switch(parent, room, told)
    }

    // As many nodes as are on one path and not on the other. What is told on the way is not asked.
    fn far(&self, a: u32, b: u32) -> Result<Done, Stop> {
        let a = self.made_one(a)?;
        let b = self.made_one(b)?;
        Ok(Done::Number(short(self.moves(a, b)?.len())))
    }

    // A call with room for so many events; those that are told.
    pub(crate) fn call(
        &mut self,
        c: Call,
        room: usize,
        told: &mut Vec<Event>,
    ) -> Result<Done, Stop> {
        match c {
            Call::Bind { variable, value } => self.bind(variable, value),
            Call::Wind { prelude, postlude } => self.wind(prelude, postlude, room, told),
            Call::Look { variable } => Ok(self.look(variable)?),
            Call::Set { variable, value } => self.set(variable, value),
            Call::Here => Ok(self.here()),
            Call::Goto { node } => self.goto(node, room, told),
            Call::Back => self.back(room, told),
            Call::Peek { node, variable } => Ok(self.peek(node, variable)?),
            Call::Far { from, to } => self.far(from, to),
            Call::Begin { target } => self.begin(target),
            Call::Step => self.step(),
            Call::Drop => self.drop_walk(),
        }
    }

    // What the environment a is. The top binds nothing.
    pub(crate) fn tell(&self, a: u32) -> Result<Told, Refusal> {
        let node = self.node(self.made_one(a)?);
        Ok(match node.kind {
            Kind::Top => Told::top(),
            Kind::Binding { variable, own } => Told::binding(node.parent, variable, own),
            Kind::Wind { prelude, postlude } => Told::wind(node.parent, prelude, postlude),
        })
    }
}
