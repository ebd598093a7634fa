// How far two environments are apart, with nothing moved: document 02, W3.
ghost use Rattle.std.specs.Prelude.{◌≡◌, ◌≤◌};
ghost use Rattle.layout.specs.Sound.{Whole};
ghost use Rattle.layout.specs.Made.{IsMade};
ghost use Rattle.layout.specs.Routes.{moves_from};
ghost use Rattle.layout.specs.Lifts.{depth_at, Lifted};

use crate::records::{depth_of, parent_of};

// From a up to the environment on its way that is d deep.
pub(crate) fn lift(s: &[u8], a: u16, d: u16) -> u16
    requires { Whole s.now × (IsMade s.now a × (d ≤ depth_at s.now a)) }
    ensures { Lifted s.now a d result }
{
    // where it ends is answered: a climb by hand, as trace's `rise_out`
    let mut at = a;
    while d < depth_of(s, at) {
        at = parent_of(s, at);
    }
    at
}

// From two that are equally deep up to where they meet: so many nodes are passed.
fn passed(s: &[u8], a: u16, b: u16) -> u16
    requires whole { Whole s.now × (IsMade s.now a × IsMade s.now b) }
    requires a_value { depth_at s.now a ≡ depth_at s.now b }
    ensures { result ≡ moves_from s.now a b }
{
    // two climbs in step, ended by where they meet: a `Way` has to be told its end
    let mut at = a;
    let mut to = b;
    let mut n = 0;
    while at != to {
        at = parent_of(s, at);
        to = parent_of(s, to);
        n += 2;
    }
    n
}

// To or from the top it is the depth; else the deeper one is lifted first.
pub(crate) fn between(s: &[u8], a: u16, b: u16) -> u16
    requires { Whole s.now × (IsMade s.now a × IsMade s.now b) }
    ensures { result ≡ moves_from s.now a b }
{
    let da = depth_of(s, a);
    let db = depth_of(s, b);
    if da == 0 {
        return db;
    }
    if db == 0 {
        return da;
    }
    if da < db {
        db - da + passed(s, a, lift(s, b, da))
    } else {
        da - db + passed(s, lift(s, a, db), b)
    }
}
