// The second opinion on a walk (document 02, W5): each step finds the way to the target anew, as a switch does, and stops at its
// first wind.
use crate::answers::{Done, Event, Stop, Way};
use crate::buffer::short;
use crate::model::{Model, Move, Walk};

impl Model {
    pub(crate) fn begin(&mut self, a: u32) -> Result<Done, Stop> {
        self.at_rest()?;
        let target = self.made_one(a)?;
        self.walk = Some(Walk {
            target,
            handed: None,
        });
        Ok(self.here())
    }

    pub(crate) fn drop_walk(&mut self) -> Result<Done, Stop> {
        self.in_walk()?;
        self.walk = None;
        Ok(self.here())
    }

    // The first move that tells, with how many come before it; the wind that was handed over is told no more.
    fn first_told(&self, moves: &[Move], handed: Option<u16>) -> Option<(usize, Move, Event)> {
        let mut further = moves
            .iter()
            .enumerate()
            .filter(|(_, step)| handed != Some(step.node));
        further.find_map(|(k, step)| Some((k, *step, self.event(*step)?)))
    }

    // A wind is left by one more move, or is to be entered: it is the next on the way.
    pub(crate) fn step(&mut self) -> Result<Done, Stop> {
        let Walk { target, handed } = self.in_walk()?;
        let moves = self.moves(self.focus, target)?;
        let Some((before, step, event)) = self.first_told(moves.as_slice(), handed) else {
            self.walk = None;
            return Ok(self.stopped(target, moves.len(), None));
        };
        let (moves, handed) = match event.way {
            Way::Leaving => (before.saturating_add(1), None),
            Way::Entering => (before, Some(step.node)),
        };
        self.walk = Some(Walk { target, handed });
        Ok(self.stopped(event.place, moves, Some(event)))
    }

    fn stopped(&mut self, focus: u16, moves: usize, event: Option<Event>) -> Done {
        self.focus = focus;
        Done::Stepped {
            focus,
            moves: short(moves),
            event,
        }
    }

    // The child of the focus on the target's path.
    pub(crate) fn child(&self) -> Option<u16> {
        let walk = self.walk?;
        self.climb(walk.target)
            .find(|n| self.parent(*n) == self.focus)
    }
}
