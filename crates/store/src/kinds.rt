// What other code asks of a kind. Soundness, exchange and peek match the kinds' ranges themselves, as document 01 has it, and so does tell.
ghost use Rattle.std.specs.Prelude.{◌≡◌};
ghost use Rattle.layout.specs.Kinds.{IsWind, is_in, is_out};
ghost use Rattle.layout.specs.Sound.{Says};

// In, of a binding or a wind. It and is_out keep a function each: `is_one_of(k, IN)` would say no more than the name.
pub(crate) fn is_in(k: u8) -> bool
    ensures { result ≡ is_in k }
{
    matches!(k, 3 | 5)
}

// Out, of a binding or a wind: the top counts as in.
pub(crate) fn is_out(k: u8) -> bool
    ensures { result ≡ is_out k }
{
    matches!(k, 2 | 4)
}

pub(crate) fn is_wind(k: u8) -> bool
    ensures { Says result (IsWind k) }
{
    matches!(k, 4..=5)
}
