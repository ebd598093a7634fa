// Reading from afar: the binding that decides x at an environment, and then its own value, with nothing moved.
ghost use Rattle.std.specs.Prelude.{◌≡◌, ◌<◌, IfSome};
ghost use Rattle.rules.specs.Tree.{binds};
ghost use Rattle.rules.specs.Calls.{decider_at, peek_of};
ghost use Rattle.layout.specs.Records.{vars, focus, ProperCell};
ghost use Rattle.layout.specs.View.{as_cell, as_option, view};
ghost use Rattle.layout.specs.Sound.{Whole};
ghost use Rattle.layout.specs.Made.{IsMade};
ghost use Rattle.layout.specs.Deciders.{binder_of, Ahead, last_below, FoundAt};

use crate::kinds::is_out;
use crate::path::Way;
use crate::records::{bare_of, cell, focus_of, kind_of, node, stored_of, var_of};
use layout::Store;

// The decider by its number, 0 where the top value decides (document 01 answers the top's own number), and its own value.
#[derive(Clone, Copy)]
pub(crate) struct Found {
    pub by: u16,
    pub cell: [u8; Store::BARE],
}

// Whether the node n is a binding of x.
fn binds(s: &[u8], n: u16, x: u16) -> bool
    requires { Whole s.now × IsMade s.now n }
    ensures { result ≡ binds ((view s.now).tree.what n) x }
{
    match kind_of(s, n) {
        2..=3 => var_of(s, n) == x,
        _ => false,
    }
}

// From a up to the first node that binds x, and the top, 0, where there is none.
pub(crate) fn decider_of(s: &[u8], a: u16, x: u16) -> u16
    requires { Whole s.now × IsMade s.now a }
    ensures { (binder_of result ≡ decider_at (view s.now).tree a x) × IsMade s.now result }
{
    for n in Way::new(s, a, 0) {
        if binds(s, n, x) {
            return n;
        }
    }
    0
}

// From the focus up to the node `stop`, the last binding of x on the way, if there is one.
fn last_below(s: &[u8], stop: u16, x: u16) -> Option<u16>
    requires { Whole s.now × Ahead s.now stop (focus s.now) }
    ensures { (as_option result ≡ last_below s.now stop x) × IfSome result (IsMade s.now) }
{
    let mut seen = None;
    for n in Way::new(s, focus_of(s), stop) {
        if binds(s, n, x) {
            seen = Some(n);
        }
    }
    seen
}

// The decider's own value: one that is out stores it; for one that is in, and for the top, the last binding of x below it
// stores it, and where there is none the cell of x holds it.
fn cell_by(s: &[u8], d: u16, x: u16) -> [u8; Store::BARE]
    requires { Whole s.now × (IsMade s.now d × (x < vars s.now)) }
    ensures { (as_cell result ≡ peek_of (view s.now) x (binder_of d)) × ProperCell result }
{
    if is_out(kind_of(s, d)) {
        return stored_of(node(s, d));
    }
    match last_below(s, d, x) {
        Some(k) => stored_of(node(s, k)),
        None => bare_of(cell(s, x)),
    }
}

// What peek answers.
pub(crate) fn find(s: &[u8], a: u16, x: u16) -> Found
    requires { Whole s.now × (IsMade s.now a × (x < vars s.now)) }
    ensures { FoundAt s.now a x result.by result.cell }
{
    let by = decider_of(s, a, x);
    let cell = cell_by(s, by, x);
    Found { by, cell }
}
