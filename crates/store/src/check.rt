// Whether a store is sound: document 01's sentence, clause by clause, each answered both ways. Linear in V + N.
ghost use Rattle.std.specs.Prelude.{◌≡◌, ℕ, ◌*◌, ◌<◌, ◌≤◌, length, replicate};
ghost use Rattle.std.proofs.Math.Option.{some};
ghost use Rattle.rules.specs.Modes.{count};
ghost use Rattle.rules.specs.Leg.{Handed};
ghost use Rattle.layout.specs.Limits.{max_vars, bare_size, node_size};
ghost use Rattle.layout.specs.Records.{made, focus, ProperCell, top_c, parent_n, var_n, post_n, stored_n, blank_cell, top_node};
ghost use Rattle.layout.specs.Checks.{mode_f, Counted, Rises, AllRise};
ghost use Rattle.layout.specs.Fields.{fields_of, nodes};
ghost use Rattle.layout.specs.View.{view};
ghost use Rattle.layout.specs.Made.{IsMade};
ghost use Rattle.layout.specs.Sound.{Says, SaysWith, NodeOk, depth_above, Headed, CellsOk, Shape, Ins, Whole, WalkOk, Sound};
ghost use Rattle.layout.specs.Checks.{InnersOk, BlanksOk};

use crate::apart::lift;
use crate::kinds::{is_in, is_out, is_wind};
use crate::made::is_made;
use crate::records::{
    bare_of, behind_kind, cell, depth_in, depth_of, focus_of, kind_in, kind_of, made_of, node,
    node_at, parent_in, parent_of, post_in, room_of, size_of, stored_of, top_cell, var_in, vars_of,
};
use crate::stride::{handed, target};
use layout::Store;

// The buffer is long enough; V and N are in range; 1 ≤ made ≤ N; focus < made.
fn head_ok(s: &[u8]) -> bool
    ensures { Says result (Headed s.now) }
{
    if s.len() < Store::HEADER {
        return false;
    }
    let v = vars_of(s);
    let n = room_of(s);
    let m = made_of(s);
    (1..=Store::VARS).contains(&usize::from(v))
        && (1..=Store::NODES).contains(&usize::from(n))
        && size_of(v, n) <= s.len()
        && m <= n
        && focus_of(s) < m
}

// Whether every byte is zero: the largest byte is. All are looked at, with no early way out, so that the compiler can take many at
// a time.
fn zeros(p: &[u8]) -> bool
    ensures { Says result (p.now ≡ replicate (length p.now) 0) }
{
    let largest = p.iter().fold(0, |most, b| most.max(*b));
    largest == 0
}

// State 0 and all zero, or state 1. By the state first: with the test of all five bytes before it, a store's check took up to twice the
// time where bindings and winds stand in no order (docs/LOOK-BACK.md).
fn proper(c: [u8; Store::BARE]) -> bool
    ensures { Says result (ProperCell c) }
{
    match c {
        [0, ..] => blank(c),
        [1, ..] => true,
        _ => false,
    }
}

fn blank(c: [u8; Store::BARE]) -> bool
    ensures { Says result (c ≡ blank_cell) }
{
    c == [0; Store::BARE]
}

fn cells_ok(s: &[u8]) -> bool
    requires { Headed s.now }
    ensures { Says result (CellsOk (fields_of s.now)) }
{
    (0..vars_of(s)).all(|x| proper(bare_of(cell(s, x))))
}

// Open's top cells: each proper, where there are 5V bytes.
pub(crate) fn tops_ok(tops: &[u8], v: u16) -> bool
    requires { (v ≤ max_vars) × (length tops.now ≡ bare_size * v) }
    ensures { Says result ((x : ℕ) → x < v → ProperCell (top_c tops.now x)) }
{
    (0..v).all(|x| proper(top_cell(tops, x)))
}

// Kind 1 and zero otherwise.
fn top_ok(p: &[u8; Store::NODE]) -> bool
    ensures { Says result (p.now ≡ top_node) }
{
    kind_in(p) == 1 && zeros(behind_kind(p))
}

// A binding's variable, the zero in place of the postlude, and its stored cell.
fn binding_ok(p: &[u8; Store::NODE], v: u16) -> bool
    ensures { Says result ((var_n p.now < v) × ((post_n p.now ≡ 0) × ProperCell (stored_n p.now))) }
{
    var_in(p) < v && post_in(p) == 0 && proper(stored_of(p))
}

// The node n, where there are v variables: its parent, its depth, and the rest by its kind.
fn node_ok(s: &[u8], n: u16, v: u16) -> bool
    requires { Headed s.now × (n < made s.now) }
    ensures { Says result (NodeOk v n (depth_above (fields_of s.now) n) (nodes s.now n)) }
{
    let p = node(s, n);
    let up = parent_in(p);
    if n <= up || usize::from(depth_in(p)) != usize::from(depth_of(s, up)) + 1 {
        return false;
    }
    match kind_in(p) {
        2..=3 => binding_ok(p, v),
        4..=5 => blank(stored_of(p)),
        _ => false,
    }
}

// Where the node n is in, its parent is in too, or the top.
fn rises(s: &[u8], n: u16) -> bool
    requires { Headed s.now × ((n < made s.now) × (parent_n (nodes s.now n) < made s.now)) }
    ensures { Says result (Rises (fields_of s.now) n) }
{
    !is_in(kind_of(s, n)) || !is_out(kind_of(s, parent_of(s, n)))
}

// Nodes 1 to made-1, each looked at once, with its parent: how many are in, where all are as they should be.
fn nodes_ok(s: &[u8]) -> Option<u16>
    requires { Headed s.now }
    ensures { let f = fields_of s.now in SaysWith result (InnersOk f × AllRise f) (Counted (mode_f f) (made s.now)) }
{
    let v = vars_of(s);
    let mut ins = 0;
    for n in 1..made_of(s) {
        if !node_ok(s, n, v) || !rises(s, n) {
            return None;
        }
        ins += u16::from(is_in(kind_of(s, n)));
    }
    Some(ins)
}

// Every node from made on is all zero.
fn blanks_ok(s: &[u8]) -> bool
    requires { Headed s.now }
    ensures { Says result (BlanksOk (fields_of s.now)) }
{
    let a = node_at(s, made_of(s));
    let e = node_at(s, room_of(s));
    zeros(&s[a..e])
}

// Every clause but the one on modes; of that, that above a node that is in all are in. How many are in.
fn shape_ok(s: &[u8]) -> Option<u16>
    requires { Headed s.now }
    ensures { let f = fields_of s.now in SaysWith result (Shape f × AllRise f) (λ ins. ins ≡ count (mode_f f) (made s.now)) }
{
    if !cells_ok(s) || !top_ok(node(s, 0)) || !blanks_ok(s) {
        return None;
    }
    nodes_ok(s)
}

// The focus is in or the top, so all of its path is in; and as many are in as it is deep: so exactly the path is in.
fn ins_ok(s: &[u8], all: u16) -> bool
    requires headed { Headed s.now }
    requires shape { (Shape (fields_of s.now) × AllRise (fields_of s.now)) × (all ≡ count (mode_f (fields_of s.now)) (made s.now)) }
    ensures { Says result (Ins (fields_of s.now)) }
{
    let p = node(s, focus_of(s));
    !is_out(kind_in(p)) && depth_in(p) == all
}

// Every clause but the one on walks.
fn whole(s: &[u8]) -> bool
    ensures { Says result (Whole s.now) }
{
    if !head_ok(s) {
        return false;
    }
    let Some(ins) = shape_ok(s) else {
        return false;
    };
    ins_ok(s, ins)
}

// A wind whose entering was handed over: it is a child of the focus on the way of the target a.
fn handed_ok(s: &[u8], a: u16, c: u16) -> bool
    requires { Whole s.now × IsMade s.now a }
    ensures { Says result (Handed (view s.now).tree (focus s.now) a (some c)) }
{
    if !is_made(s, c) || !is_wind(kind_of(s, c)) || parent_of(s, c) != focus_of(s) {
        return false;
    }
    let d = depth_of(s, c);
    d <= depth_of(s, a) && lift(s, a, d) == c
}

// A target is made; a wind stands in the header only during a walk.
fn walk_ok(s: &[u8]) -> bool
    requires { Whole s.now }
    ensures { Says result (WalkOk (fields_of s.now)) }
{
    let Some(a) = target(s) else {
        return handed(s).is_none();
    };
    if !is_made(s, a) {
        return false;
    }
    match handed(s) {
        Some(c) => handed_ok(s, a, c),
        None => true,
    }
}

pub(crate) fn sound(s: &[u8]) -> bool
    ensures { Says result (Sound s.now) }
{
    whole(s) && walk_ok(s)
}
