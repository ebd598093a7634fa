// What one environment is, told with nothing moved.
ghost use Rattle.std.specs.Prelude.{◌≡◌, Ok};
ghost use Rattle.layout.specs.Records.{node_of, kind_n};
ghost use Rattle.layout.specs.Kinds.{IsBinding, IsWind};
ghost use Rattle.layout.specs.Sound.{Whole};
ghost use Rattle.layout.specs.Made.{IsMade};
ghost use Rattle.promises.specs.Answers.{numbers_told};
ghost use Rattle.promises.specs.Promises.{tells};

use crate::number::value_in;
use crate::read::find;
use crate::records::{kind_of, parent_of, post_of, var_of};
use promises::Environment;

// The binding a: its own value is the value at a, which is not always its stored cell.
fn binding(s: &[u8], a: u16) -> Environment
    requires { Whole s.now × (IsMade s.now a × IsBinding (kind_n (node_of s.now a))) }
    ensures { numbers_told (Ok result) ≡ tells s.now a }
{
    let x = var_of(s, a);
    let parent = parent_of(s, a);
    let found = find(s, a, x);
    let c = found.cell;
    Environment::Binding {
        variable: x,
        value: value_in(c),
        parent,
    }
}

// The wind a.
fn wind(s: &[u8], a: u16) -> Environment
    requires { Whole s.now × (IsMade s.now a × IsWind (kind_n (node_of s.now a))) }
    ensures { numbers_told (Ok result) ≡ tells s.now a }
{
    Environment::Wind {
        prelude: var_of(s, a),
        postlude: post_of(s, a),
        parent: parent_of(s, a),
    }
}

// The environment a, by its kind.
pub(crate) fn environment(s: &[u8], a: u16) -> Environment
    requires { Whole s.now × IsMade s.now a }
    ensures { numbers_told (Ok result) ≡ tells s.now a }
{
    match kind_of(s, a) {
        2..=3 => binding(s, a),
        4..=5 => wind(s, a),
        _ => Environment::Top,
    }
}
