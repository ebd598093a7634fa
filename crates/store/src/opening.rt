// Writing an opened store: the header, a new cell for each top cell as it was handed in, the top, and blanks for the rest of the room.
ghost use Rattle.std.specs.Prelude.{◌≡◌, ◌++◌, ◌*◌, ◌<◌, ◌≤◌, length, drop, replicate};
ghost use Rattle.layout.specs.Limits.{none_n, max_vars, header, bare_size, node_size, size_of};
ghost use Rattle.layout.specs.Records.{head_b, with_header, with_cells};
ghost use Rattle.layout.specs.Writes.{cells_b, nodes_b, open_b};
ghost use Rattle.layout.specs.Opening.{OpenFits};

use crate::records::{
    new_cell, set_focus, set_handed, set_made, set_room, set_target, set_vars, size_of, top_cell,
    turn_node,
};
use layout::Store;

// V, N, one environment made, the top as the focus, and no walk.
fn put_head(s: &mut [u8], v: u16, n: u16)
    requires { header ≤ length s.old }
    ensures { s.new ≡ with_header s.old (head_b v n 1 0 none_n none_n) }
{
    set_vars(s, v);
    set_room(s, n);
    set_made(s, 1);
    set_focus(s, 0);
    set_target(s, Store::NONE);
    set_handed(s, Store::NONE);
}

// The cells of v variables, one by one.
fn put_cells(s: &mut [u8], v: u16, tops: &[u8])
    requires { (v ≤ max_vars) × ((length tops.now ≡ bare_size * v) × (size_of v 0 ≤ length s.old)) }
    ensures { s.new ≡ with_cells s.old v (cells_b v tops.now) }
{
    for x in 0..v {
        new_cell(s, x, top_cell(tops, x));
    }
}

// The top, then blanks.
fn put_nodes(p: &mut [u8])
    requires { node_size ≤ length p.old }
    ensures { p.new ≡ nodes_b (length p.old) }
{
    p.fill(0);
    turn_node(p, 1);
}

// A store of v variables and n environments, written over the first bytes of s.
pub(crate) fn open_at(s: &mut [u8], v: u16, n: u16, tops: &[u8])
    requires { OpenFits v n tops.now × (size_of v n ≤ length s.old) }
    ensures { s.new ≡ open_b v n tops.now ++ drop (size_of v n) s.old }
{
    put_head(s, v, n);
    put_cells(s, v, tops);
    let a = size_of(v, 0);
    let e = size_of(v, n);
    put_nodes(&mut s[a..e]);
}
