// The lines of a card that was found good, read once more as it is run.
ghost use Rattle.std.specs.Prelude.{◌≡◌, List, ◌∷◌, ◌++◌, map, ℕ, ℤ, ◌*◌, ◌≤◌, length, drop, Option};
ghost use Rattle.layout.specs.Limits.{bare_size};
ghost use Rattle.text.specs.declared.line.Line.TheVariants as Line;
ghost use Rattle.text.specs.Finds.{Finds};
ghost use Rattle.text.specs.Lines.{Leads};
ghost use Rattle.play.specs.Output.{tops_b};
ghost use Rattle.play.specs.Steps.{Ahead, Reads};

use card::tops::bare;
use layout::Store;
use text::line::{Line, next_line};

// What the heading lines say, and where the lines behind them begin.
#[derive(Clone, Copy, Debug)]
pub(crate) struct Heads {
    pub vars: u32,
    pub nodes: u32,
    pub room: u32,
    pub at: usize,
}

// The good line at a place, and how many bytes it takes.
pub(crate) fn line_at(card: &[u8], at: usize) -> Option<(Line, usize)>
    ensures { Finds (Leads (drop at card.now)) result }
{
    next_line(card.get(at..)?)
}

pub(crate) fn read_heads(card: &[u8]) -> Option<Heads>
    ensures { (v n m : ℕ) (ls : List Line) → Ahead card.now 0 (Line.Vars v ∷ Line.Nodes n ∷ Line.Room m ∷ ls) → Reads card.now v n m ls result }
{
    let (Line::Vars(vars), a) = line_at(card, 0)? else {
        return None;
    };
    let (Line::Nodes(nodes), b) = line_at(card, a)? else {
        return None;
    };
    let (Line::Room(room), c) = line_at(card, a + b)? else {
        return None;
    };
    Some(Heads {
        vars,
        nodes,
        room,
        at: a + b + c,
    })
}

// The top values from a place on, as top cells; the answer is the place behind them. Each cell is written by its place: of what a loop
// over chunks_exact_mut leaves in the slice the proof learns nothing, and the clause names it.
pub(crate) fn read_tops(card: &[u8], from: usize, tops: &mut [u8]) -> usize
    requires { from ≤ length card.now }
    ensures { (cs : List (Option ℤ)) (ls : List Line) → bare_size * length cs ≡ length tops.old → Ahead card.now from (map Line.Top cs ++ ls) → (tops.new ≡ tops_b cs) × Ahead card.now result ls }
{
    let mut at = from;
    for x in 0..tops.len() / Store::BARE {
        let Some((Line::Top(value), n)) = line_at(card, at) else {
            return at;
        };
        let place = Store::BARE * x;
        tops[place..place + Store::BARE].copy_from_slice(&bare(value));
        at += n;
    }
    at
}
