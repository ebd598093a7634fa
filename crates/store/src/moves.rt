// One move of the focus, and the walk: document 01 and TR397, Figure 4.
// A store stays a slice that contracts call whole, and is no type with that invariant: within a move the bytes are not whole (the node
// is turned before the focus is set), the walk would hold such a value across its call, and what only reads is called in between too.
ghost use Rattle.std.specs.Prelude.{◌≡◌, ◌+◌, ◌<◌, ◌≤◌};
ghost use Rattle.rules.specs.Store.{goto};
ghost use Rattle.layout.specs.Records.{vars, room, focus, node_of, var_n};
ghost use Rattle.layout.specs.Fields.{Fit};
ghost use Rattle.layout.specs.View.{view};
ghost use Rattle.layout.specs.Sound.{Whole};
ghost use Rattle.layout.specs.Writes.{Turns, swap_b, turn_b, leave_b, enter_b};
ghost use Rattle.layout.specs.Made.{IsMade};
ghost use Rattle.layout.specs.Becomes.{Becomes};

use crate::kinds::is_out;
use crate::records::{
    bare_of, cell, focus_of, kind_of, parent_of, set_cell, set_focus, swap_at, turn_at, var_of,
};

// The cell of the binding n and its stored cell change places, and the kind becomes k: the node's part is lent on, then the cell's.
fn exchange(s: &mut [u8], n: u16, k: u8)
    requires { Fit s.old × ((n < room s.old) × (var_n (node_of s.old n) < vars s.old)) }
    ensures { s.new ≡ swap_b s.old n k }
{
    let x = var_of(s, n);
    let c = bare_of(cell(s, x));
    let d = swap_at(s, n, k, c);
    set_cell(s, x, d);
}

// The node n changes its mode, to the kind k. Store, node and kind stay parameters: a struct would be made for each call alone.
fn turn(s: &mut [u8], n: u16, k: u8)
    requires { Turns s.old n }
    ensures { s.new ≡ turn_b s.old n k }
{
    let was = kind_of(s, n);
    match was {
        2..=3 => exchange(s, n, k),
        4..=5 => turn_at(s, n, k),
        _ => {}
    }
}

// From the focus to its parent, which is read once the turn is made: less is held meanwhile, and the walk's frame is smaller.
fn leave(s: &mut [u8])
    requires { Turns s.old (focus s.old) }
    ensures { s.new ≡ leave_b s.old }
{
    let f = focus_of(s);
    let k = kind_of(s, f);
    turn(s, f, k - 1);
    let up = parent_of(s, f);
    set_focus(s, up);
}

// To the child n of the focus.
fn enter(s: &mut [u8], n: u16)
    requires { Turns s.old n }
    ensures { s.new ≡ enter_b s.old n }
{
    let k = kind_of(s, n);
    turn(s, n, k + 1);
    set_focus(s, n);
}

// To a: a target that is out is entered after the focus has been brought to its parent; for a target that is in, the focus is
// left first. It calls itself at one place and holds little across that call: no more than the 48 bytes of stack
// a level that the header promises on x86-64.
pub(crate) fn walk(s: &mut [u8], a: u16)
    requires { Whole s.old × IsMade s.old a }
    ensures { Becomes s.old s.new (goto a (view s.old)) }
{
    if a == focus_of(s) {
        return;
    }
    let to = if is_out(kind_of(s, a)) {
        parent_of(s, a)
    } else {
        leave(s);
        a
    };
    walk(s, to);
    if focus_of(s) != a {
        enter(s, a);
    }
}
