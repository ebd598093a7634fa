// The header, the cells and the nodes as parts of the lent store, and the events as parts of the lent trace, read and written. No other
// file knows a place in these bytes.
ghost use Rattle.std.specs.Prelude.{◌≡◌, ◌+◌, ◌*◌, ◌<◌, ◌≤◌, length, drop};
ghost use Rattle.layout.specs.Limits.{header, cell_size, bare_size, node_size, event_size, cell_at, node_at, size_of};
ghost use Rattle.layout.specs.Bytes.{splice};
ghost use Rattle.layout.specs.Records.{head_n, with_head, vars, room, made, focus, target, handed, with_focus, with_made, with_target, with_handed, cell_of, with_cell, bare_c, put_c, whole_c, top_c, node_of, with_node, kind_n, parent_n, var_n, post_n, stored_n, depth_n, turn_n, swap_n, node_b};
ghost use Rattle.layout.specs.Fields.{Fit};
ghost use Rattle.layout.specs.Events.{bit, event_d};

use crate::number::{put16_at, u16_at};
use layout::{Event, Store};

// ---- the header: V, N, made, focus; of a walk its target, and the wind whose entering was handed over
// Each number has a name of its own, for reading and for writing: `head(s, Head::Focus)` would say no more than `focus_of(s)`.
// That there is such a cell or node (`x < vars s`, `n < room s`) relates two values, so no type of one of them says it.

// Its number k.
fn head_of(s: &[u8], k: usize) -> u16
    requires { (header ≤ length s.now) × (2 * k + 2 ≤ header) }
    ensures { result ≡ head_n s.now k }
{
    u16_at(&s[0..Store::HEADER], 2 * k)
}

fn set_head(s: &mut [u8], k: usize, v: u16)
    requires { (header ≤ length s.old) × (2 * k + 2 ≤ header) }
    ensures { s.new ≡ with_head s.old k v }
{
    put16_at(&mut s[0..Store::HEADER], 2 * k, v);
}

pub(crate) fn vars_of(s: &[u8]) -> u16
    requires { header ≤ length s.now }
    ensures { result ≡ vars s.now }
{
    head_of(s, 0)
}

pub(crate) fn room_of(s: &[u8]) -> u16
    requires { header ≤ length s.now }
    ensures { result ≡ room s.now }
{
    head_of(s, 1)
}

pub(crate) fn made_of(s: &[u8]) -> u16
    requires { header ≤ length s.now }
    ensures { result ≡ made s.now }
{
    head_of(s, 2)
}

pub(crate) fn focus_of(s: &[u8]) -> u16
    requires { header ≤ length s.now }
    ensures { result ≡ focus s.now }
{
    head_of(s, 3)
}

pub(crate) fn target_of(s: &[u8]) -> u16
    requires { header ≤ length s.now }
    ensures { result ≡ target s.now }
{
    head_of(s, 4)
}

pub(crate) fn handed_of(s: &[u8]) -> u16
    requires { header ≤ length s.now }
    ensures { result ≡ handed s.now }
{
    head_of(s, 5)
}

pub(crate) fn set_vars(s: &mut [u8], v: u16)
    requires { header ≤ length s.old }
    ensures { s.new ≡ with_head s.old 0 v }
{
    set_head(s, 0, v);
}

pub(crate) fn set_room(s: &mut [u8], n: u16)
    requires { header ≤ length s.old }
    ensures { s.new ≡ with_head s.old 1 n }
{
    set_head(s, 1, n);
}

pub(crate) fn set_made(s: &mut [u8], m: u16)
    requires { header ≤ length s.old }
    ensures { s.new ≡ with_made s.old m }
{
    set_head(s, 2, m);
}

pub(crate) fn set_focus(s: &mut [u8], f: u16)
    requires { header ≤ length s.old }
    ensures { s.new ≡ with_focus s.old f }
{
    set_head(s, 3, f);
}

pub(crate) fn set_target(s: &mut [u8], a: u16)
    requires { header ≤ length s.old }
    ensures { s.new ≡ with_target s.old a }
{
    set_head(s, 4, a);
}

pub(crate) fn set_handed(s: &mut [u8], c: u16)
    requires { header ≤ length s.old }
    ensures { s.new ≡ with_handed s.old c }
{
    set_head(s, 5, c);
}

// ---- a cell

// Where the cell of x begins.
fn cell_at(x: u16) -> usize
    ensures { result ≡ cell_at x }
{
    Store::HEADER + Store::CELL * usize::from(x)
}

// The cell of x, as a part of the store.
pub(crate) fn cell(s: &[u8], x: u16) -> &[u8; Store::CELL]
    requires { Fit s.now × (x < vars s.now) }
    ensures { result.now ≡ cell_of s.now x }
{
    let (cells, _) = s[Store::HEADER..].as_chunks();
    &cells[usize::from(x)]
}

// The bare cell in a cell's part.
pub(crate) fn bare_of(p: &[u8; Store::CELL]) -> [u8; Store::BARE]
    ensures { result ≡ bare_c p.now }
{
    [p[0], p[1], p[2], p[3], p[4]]
}

// A whole cell, with the bare cell c: today nothing else.
fn put_cell(p: &mut [u8], c: [u8; Store::BARE])
    requires { length p.old ≡ cell_size }
    ensures { p.new ≡ whole_c c }
{
    [p[0], p[1], p[2], p[3], p[4]] = c;
}

// The new cell of x, in a store that is being opened.
pub(crate) fn new_cell(s: &mut [u8], x: u16, c: [u8; Store::BARE])
    requires { cell_at x + cell_size ≤ length s.old }
    ensures { s.new ≡ with_cell s.old x (whole_c c) }
{
    let a = cell_at(x);
    let e = a + Store::CELL;
    put_cell(&mut s[a..e], c);
}

// The cell of x takes the bare cell c. It does what new_cell does while a cell has nothing else; the clauses are two, put_c and whole_c.
pub(crate) fn set_cell(s: &mut [u8], x: u16, c: [u8; Store::BARE])
    requires { Fit s.old × (x < vars s.old) }
    ensures { s.new ≡ with_cell s.old x (put_c (cell_of s.old x) c) }
{
    let a = cell_at(x);
    let e = a + Store::CELL;
    put_cell(&mut s[a..e], c);
}

// The bare cell of x in open's top cells.
pub(crate) fn top_cell(tops: &[u8], x: u16) -> [u8; Store::BARE]
    requires { bare_size * x + bare_size ≤ length tops.now }
    ensures { result ≡ top_c tops.now x }
{
    let (cells, _) = tops.as_chunks();
    cells[usize::from(x)]
}

// ---- a node

// The size of a store of v variables and n environments; in a larger one the node n begins there.
pub(crate) fn size_of(v: u16, n: u16) -> usize
    ensures { result ≡ size_of v n }
{
    cell_at(v) + Store::NODE * usize::from(n)
}

pub(crate) fn node_at(s: &[u8], n: u16) -> usize
    requires { header ≤ length s.now }
    ensures { result ≡ node_at (vars s.now) n }
{
    size_of(vars_of(s), n)
}

// The node n, as a part of the store.
pub(crate) fn node(s: &[u8], n: u16) -> &[u8; Store::NODE]
    requires { Fit s.now × (n < room s.now) }
    ensures { result.now ≡ node_of s.now n }
{
    let (nodes, _) = s[node_at(s, 0)..].as_chunks();
    &nodes[usize::from(n)]
}

// What a node's part says: its kind, its parent, the variable or the prelude, zero or the postlude, the depth. Each has the name of its
// definition: `number_in(p, Field::Parent)` would say no more.

pub(crate) fn kind_in(p: &[u8; Store::NODE]) -> u8
    ensures { result ≡ kind_n p.now }
{
    p[0]
}

pub(crate) fn parent_in(p: &[u8; Store::NODE]) -> u16
    ensures { result ≡ parent_n p.now }
{
    u16_at(p, 2)
}

pub(crate) fn var_in(p: &[u8; Store::NODE]) -> u16
    ensures { result ≡ var_n p.now }
{
    u16_at(p, 4)
}

pub(crate) fn post_in(p: &[u8; Store::NODE]) -> u16
    ensures { result ≡ post_n p.now }
{
    u16_at(p, 6)
}

pub(crate) fn depth_in(p: &[u8; Store::NODE]) -> u16
    ensures { result ≡ depth_n p.now }
{
    u16_at(p, 12)
}

// All but the kind.
pub(crate) fn behind_kind(p: &[u8; Store::NODE]) -> &[u8]
    ensures { result.now ≡ drop 1 p.now }
{
    &p[1..]
}

// The same of the node n.

pub(crate) fn kind_of(s: &[u8], n: u16) -> u8
    requires { Fit s.now × (n < room s.now) }
    ensures { result ≡ kind_n (node_of s.now n) }
{
    kind_in(node(s, n))
}

pub(crate) fn parent_of(s: &[u8], n: u16) -> u16
    requires { Fit s.now × (n < room s.now) }
    ensures { result ≡ parent_n (node_of s.now n) }
{
    parent_in(node(s, n))
}

pub(crate) fn var_of(s: &[u8], n: u16) -> u16
    requires { Fit s.now × (n < room s.now) }
    ensures { result ≡ var_n (node_of s.now n) }
{
    var_in(node(s, n))
}

pub(crate) fn post_of(s: &[u8], n: u16) -> u16
    requires { Fit s.now × (n < room s.now) }
    ensures { result ≡ post_n (node_of s.now n) }
{
    post_in(node(s, n))
}

pub(crate) fn depth_of(s: &[u8], n: u16) -> u16
    requires { Fit s.now × (n < room s.now) }
    ensures { result ≡ depth_n (node_of s.now n) }
{
    depth_in(node(s, n))
}

// The stored cell in a node's part: its bytes stand apart, and elsewhere than a cell's, so it is no twin of `bare_of`.
pub(crate) fn stored_of(p: &[u8; Store::NODE]) -> [u8; Store::BARE]
    ensures { result ≡ stored_n p.now }
{
    [p[1], p[8], p[9], p[10], p[11]]
}

// The node that p begins with becomes of kind k.
pub(crate) fn turn_node(p: &mut [u8], k: u8)
    requires { node_size ≤ length p.old }
    ensures { p.new ≡ turn_n p.old k }
{
    p[0] = k;
}

// The stored cell goes out and c comes in, and the kind becomes k.
fn swap_node(p: &mut [u8], k: u8, c: [u8; Store::BARE]) -> [u8; Store::BARE]
    requires { length p.old ≡ node_size }
    ensures { (result ≡ stored_n p.old) × (p.new ≡ swap_n p.old k c) }
{
    let d = [p[1], p[8], p[9], p[10], p[11]];
    p[0] = k;
    [p[1], p[8], p[9], p[10], p[11]] = c;
    d
}

pub(crate) fn turn_at(s: &mut [u8], n: u16, k: u8)
    requires { Fit s.old × (n < room s.old) }
    ensures { s.new ≡ with_node s.old n (turn_n (node_of s.old n) k) }
{
    let a = node_at(s, n);
    let e = a + Store::NODE;
    turn_node(&mut s[a..e], k);
}

pub(crate) fn swap_at(s: &mut [u8], n: u16, k: u8, c: [u8; Store::BARE]) -> [u8; Store::BARE]
    requires { Fit s.old × (n < room s.old) }
    ensures { (result ≡ stored_n (node_of s.old n)) × (s.new ≡ with_node s.old n (swap_n (node_of s.old n) k c)) }
{
    let a = node_at(s, n);
    let e = a + Store::NODE;
    swap_node(&mut s[a..e], k, c)
}

// What a new node holds: the variable or the prelude stands in `var`, zero or the postlude in `post`.
#[derive(Clone, Copy)]
pub(crate) struct NewNode {
    pub kind: u8,
    pub parent: u16,
    pub var: u16,
    pub post: u16,
    pub cell: [u8; Store::BARE],
    pub depth: u16,
}

// A node in its bytes.
fn node_bytes(n: NewNode) -> [u8; Store::NODE]
    ensures { result ≡ node_b n.kind n.parent n.var n.post n.cell n.depth }
{
    let [p0, p1] = n.parent.to_le_bytes();
    let [v0, v1] = n.var.to_le_bytes();
    let [q0, q1] = n.post.to_le_bytes();
    let [state, c0, c1, c2, c3] = n.cell;
    let [d0, d1] = n.depth.to_le_bytes();
    [
        n.kind, state, p0, p1, v0, v1, q0, q1, c0, c1, c2, c3, d0, d1,
    ]
}

pub(crate) fn set_node(s: &mut [u8], n: u16, p: NewNode)
    requires { Fit s.old × (n < room s.old) }
    ensures { s.new ≡ with_node s.old n (node_b p.kind p.parent p.var p.post p.cell p.depth) }
{
    let a = node_at(s, n);
    let e = a + Store::NODE;
    s[a..e].copy_from_slice(&node_bytes(p));
}

// ---- an event of the trace

// An event in its bytes: 0 leaving or 1 entering, the thunk, the place.
fn event_bytes(e: Event) -> [u8; Store::EVENT]
    ensures { result ≡ event_d (bit e.entering) e.thunk e.place }
{
    let [t0, t1] = e.thunk.to_le_bytes();
    let [p0, p1] = e.place.to_le_bytes();
    [u8::from(e.entering), t0, t1, p0, p1]
}

// The event number k of the trace.
pub(crate) fn note(t: &mut [u8], k: usize, e: Event)
    requires { event_size * (k + 1) ≤ length t.old }
    ensures { t.new ≡ splice t.old (event_size * k) event_size (event_d (bit e.entering) e.thunk e.place) }
{
    let a = Store::EVENT * k;
    let b = a + Store::EVENT;
    t[a..b].copy_from_slice(&event_bytes(e));
}
