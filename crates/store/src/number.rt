// Numbers in bytes, little endian, and bare cells.
ghost use Rattle.std.specs.Prelude.{◌≡◌, List, [], ◌∷◌, ℕ, ◌+◌, ◌<◌, ◌≤◌, length, get_or, MatchOption};
ghost use Rattle.std.specs.Int.{w32};
ghost use Rattle.std.proofs.Common.{to_z};
ghost use Rattle.layout.specs.Bytes.{u16, put16};
ghost use Rattle.layout.specs.Records.{bits_c};
ghost use Rattle.layout.specs.View.{as_cell};
ghost use Rattle.rules.specs.Values.{unbound, value};

use layout::Store;

// The number at o, in two bytes.
pub(crate) fn u16_at(p: &[u8], o: usize) -> u16
    requires { o + 2 ≤ length p.now }
    ensures { result ≡ u16 p.now o }
{
    u16::from_le_bytes([p[o], p[o + 1]])
}

pub(crate) fn put16_at(p: &mut [u8], o: usize, v: u16)
    requires { o + 2 ≤ length p.old }
    ensures { p.new ≡ put16 p.old o v }
{
    let [low, high] = v.to_le_bytes();
    p[o] = low;
    p[o + 1] = high;
}

// The four bytes of a bare cell's value.
fn value_of(c: [u8; Store::BARE]) -> i32
    ensures { result ≡ to_z w32 (bits_c c) }
{
    let [_, a, b, d, e] = c;
    i32::from_le_bytes([a, b, d, e])
}

// The value in a bare cell, if it has one.
pub(crate) fn value_in(c: [u8; Store::BARE]) -> Option<i32>
    ensures { MatchOption result (as_cell c ≡ unbound) (λ v. as_cell c ≡ value v) }
{
    if c[0] == 0 {
        return None;
    }
    Some(value_of(c))
}
