// Plain decimals, each read whole from a part of the card: unsigned within limits, and 32-bit signed.
ghost use Rattle.std.specs.Prelude.{◌≡◌};
ghost use Rattle.text.specs.Finds.{Finds};
ghost use Rattle.text.specs.Numbers.{Grown, Within, Valued, Counted, misbegun};

// The number v with the digit b behind it, at most `most`.
fn grow(v: u32, b: u8, most: u32) -> Option<u32>
    ensures { Finds (Grown v b most) result }
{
    if !b.is_ascii_digit() {
        return None;
    }
    let w = v.checked_mul(10)?.checked_add(u32::from(b - b'0'))?;
    (w <= most).then_some(w)
}

// Whether s has no digit at all, or a zero with more behind it.
fn begins_ill(s: &[u8]) -> bool
    ensures { result ≡ misbegun s.now }
{
    matches!(s, [] | [b'0', _, ..])
}

// The number from `least` to `most` whose plain decimal is s.
pub(crate) fn read_natural(s: &[u8], least: u32, most: u32) -> Option<u32>
    ensures { Finds (Within s.now least most) result }
{
    if begins_ill(s) {
        return None;
    }
    let mut v = 0;
    for &b in s {
        v = grow(v, b, most)?;
    }
    (least <= v).then_some(v)
}

// The value whose plain decimal is s.
pub(crate) fn read_whole(s: &[u8]) -> Option<i32>
    ensures { Finds (Valued s.now) result }
{
    // the ends of 32-bit values
    match s {
        [b'-', digits @ ..] => 0i32.checked_sub_unsigned(read_natural(digits, 1, 2_147_483_648)?),
        _ => 0i32.checked_add_unsigned(read_natural(s, 0, 2_147_483_647)?),
    }
}

// The number that the value v is, at most `most`.
pub(crate) fn number_of(v: i32, most: u32) -> Option<u32>
    ensures { Finds (Counted v most) result }
{
    u32::try_from(v).ok().filter(|n| *n <= most)
}
