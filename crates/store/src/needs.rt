// What the calls need: a test for each row of their tables, but open's Setup and back's Top, which are asked there. Each is Ok where the
// row does not apply, and else its refusal.
ghost use Rattle.std.specs.Prelude.{◌≡◌, ◌≢◌, ◌<◌, ◌≤◌, MatchResult};
ghost use Rattle.rules.specs.Values.{unbound, value};
ghost use Rattle.layout.specs.Limits.{none_n};
ghost use Rattle.layout.specs.Records.{vars, target};
ghost use Rattle.layout.specs.View.{as_cell};
ghost use Rattle.layout.specs.Sound.{Whole, Sound};
ghost use Rattle.layout.specs.Made.{IsMade, IsFull};
ghost use Rattle.promises.specs.declared.Refusal.TheVariants as Refusal;
ghost use Rattle.promises.specs.Promises.{room_for};

use crate::{check, made, number, stride};
use layout::Store;
use promises::Refusal;

// A sound store.
pub(crate) fn sound(s: &[u8]) -> Result<(), Refusal>
    ensures { MatchResult result (λ _. Sound s.now) (λ r. (r ≡ Refusal.Damaged) × (Sound s.now → ⊥)) }
{
    check::sound(s).then_some(()).ok_or(Refusal::Damaged)
}

// No walk under way.
pub(crate) fn rest(s: &[u8]) -> Result<(), Refusal>
    requires { Whole s.now }
    ensures { MatchResult result (λ _. target s.now ≡ none_n) (λ r. (r ≡ Refusal.Walking) × (target s.now ≢ none_n)) }
{
    stride::at_rest(s).then_some(()).ok_or(Refusal::Walking)
}

// A walk under way.
pub(crate) fn walk(s: &[u8]) -> Result<(), Refusal>
    requires { Whole s.now }
    ensures { MatchResult result (λ _. target s.now ≢ none_n) (λ r. (r ≡ Refusal.NotWalking) × (target s.now ≡ none_n)) }
{
    (!stride::at_rest(s))
        .then_some(())
        .ok_or(Refusal::NotWalking)
}

// A variable of the store.
pub(crate) fn variable(s: &[u8], x: u32) -> Result<u16, Refusal>
    requires { Whole s.now }
    ensures { MatchResult result (λ y. (y ≡ x) × (x < vars s.now)) (λ r. (r ≡ Refusal.NoVariable) × (vars s.now ≤ x)) }
{
    made::variable(s, x).ok_or(Refusal::NoVariable)
}

// An environment that is made.
pub(crate) fn environment(s: &[u8], a: u32) -> Result<u16, Refusal>
    requires { Whole s.now }
    ensures { MatchResult result (λ b. (b ≡ a) × IsMade s.now a) (λ r. (r ≡ Refusal.NoEnvironment) × (IsMade s.now a → ⊥)) }
{
    made::environment(s, a).ok_or(Refusal::NoEnvironment)
}

// A value in a bare cell.
pub(crate) fn value(c: [u8; Store::BARE]) -> Result<i32, Refusal>
    ensures { MatchResult result (λ v. as_cell c ≡ value v) (λ r. (r ≡ Refusal.Unbound) × (as_cell c ≡ unbound)) }
{
    number::value_in(c).ok_or(Refusal::Unbound)
}

// Room for one more environment.
pub(crate) fn space(s: &[u8]) -> Result<(), Refusal>
    requires { Whole s.now }
    ensures { MatchResult result (λ _. IsFull s.now → ⊥) (λ r. (r ≡ Refusal.Full) × IsFull s.now) }
{
    (!made::is_full(s)).then_some(()).ok_or(Refusal::Full)
}

// Room for so many events.
pub(crate) fn room(t: &[u8], events: usize) -> Result<(), Refusal>
    ensures { MatchResult result (λ _. events ≤ room_for t.now) (λ r. (r ≡ Refusal.TraceRoom) × (room_for t.now < events)) }
{
    if t.len() / Store::EVENT < events {
        return Err(Refusal::TraceRoom);
    }
    Ok(())
}
