// The top values of a card as open's top cells.
ghost use Rattle.std.specs.Prelude.{◌≡◌};
ghost use Rattle.card.specs.Tops.{cell_b};

use layout::{Store, value_cell};

// A top value, or none, as a bare cell.
pub fn bare(value: Option<i32>) -> [u8; Store::BARE]
    ensures { result ≡ cell_b value }
{
    value.map_or([0; Store::BARE], value_cell)
}
