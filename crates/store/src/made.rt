// Which numbers are variables and environments, which comes next, and when there is no room; and a new node, made and entered.
ghost use Rattle.std.specs.Prelude.{◌≡◌, ◌<◌, ◌≤◌, MatchOption};
ghost use Rattle.layout.specs.Records.{vars, made, room, focus, node_b};
ghost use Rattle.layout.specs.Sound.{Says, Whole};
ghost use Rattle.layout.specs.Made.{IsMade, next_of, IsFull};
ghost use Rattle.layout.specs.Writes.{depth_under, grow_b};

use crate::records::{
    NewNode, depth_of, focus_of, made_of, room_of, set_focus, set_made, set_node, vars_of,
};
use layout::Store;

pub(crate) fn is_made(s: &[u8], a: u16) -> bool
    requires { Whole s.now }
    ensures { Says result (IsMade s.now a) }
{
    a < made_of(s)
}

// The environment a, where it is made.
pub(crate) fn environment(s: &[u8], a: u32) -> Option<u16>
    requires { Whole s.now }
    ensures { MatchOption result (IsMade s.now a → ⊥) (λ b. (b ≡ a) × IsMade s.now a) }
{
    if a < u32::from(made_of(s)) {
        Some(a as u16)
    } else {
        None
    }
}

// The variable x, where the store has it. Beside `environment`, since the rows of the two refusals are two definitions.
pub(crate) fn variable(s: &[u8], x: u32) -> Option<u16>
    requires { Whole s.now }
    ensures { MatchOption result (vars s.now ≤ x) (λ y. (y ≡ x) × (x < vars s.now)) }
{
    if x < u32::from(vars_of(s)) {
        Some(x as u16)
    } else {
        None
    }
}

fn next_of(s: &[u8]) -> u16
    requires { Whole s.now }
    ensures { result ≡ next_of s.now }
{
    made_of(s)
}

pub(crate) fn is_full(s: &[u8]) -> bool
    requires { Whole s.now }
    ensures { Says result (IsFull s.now) }
{
    made_of(s) == room_of(s)
}

// The next node: its kind, variable or prelude, zero or postlude, and stored cell; a child of the focus, and the new focus. Its
// number is answered.
pub(crate) fn grow(s: &mut [u8], kind: u8, var: u16, post: u16, cell: [u8; Store::BARE]) -> u16
    requires { Whole s.old × (IsFull s.old → ⊥) }
    ensures { (result ≡ next_of s.old) × (s.new ≡ grow_b s.old (node_b kind (focus s.old) var post cell (depth_under s.old))) }
{
    let n = next_of(s);
    let parent = focus_of(s);
    let depth = depth_of(s, parent) + 1;
    let new = NewNode {
        kind,
        parent,
        var,
        post,
        cell,
        depth,
    };
    set_node(s, n, new);
    set_made(s, n + 1);
    set_focus(s, n);
    n
}
