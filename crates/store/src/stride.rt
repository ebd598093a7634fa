// A walk in steps: document 02, W5. Where the next step stops is found out first; document 01's walk makes its moves.
ghost use Rattle.std.specs.Prelude.{◌≡◌, ◌≢◌, ◌≤◌, length, true, false, IfSome, Some, None, Ok};
ghost use Rattle.rules.specs.Moves.{left, route};
ghost use Rattle.layout.specs.Limits.{header, none_n};
ghost use Rattle.layout.specs.Records.{focus, target, handed, with_target, with_handed, node_of, var_n, post_n};
ghost use Rattle.layout.specs.View.{view, as_option, or_none};
ghost use Rattle.layout.specs.Sound.{Says, Whole, Sound};
ghost use Rattle.layout.specs.Made.{IsMade};
ghost use Rattle.layout.specs.Routes.{moves_to, meeting, OnWay};
ghost use Rattle.layout.specs.Legs.{enters_first, Moved};
ghost use Rattle.layout.specs.Legs.{FirstWind, place_of, StopsAt, Above};
ghost use Rattle.layout.specs.Legs.{leg_from, Goes};
ghost use Rattle.promises.specs.declared.Answer.TheVariants as Answer;
ghost use Rattle.rules.specs.Act.{step};
ghost use Rattle.promises.specs.Answers.{numbers, handing};
ghost use Rattle.promises.specs.Promises.{StrideDone};

use crate::kinds::{is_out, is_wind};
use crate::moves::walk;
use crate::path::Way;
use crate::records::{
    depth_of, focus_of, handed_of, kind_of, parent_of, post_of, set_handed, set_target, target_of,
    var_of,
};
use layout::Store;
use promises::{Answer, Handed, Step};

// A number of the header, where it isn't none.
fn named(n: u16) -> Option<u16>
    ensures { as_option result ≡ or_none n }
{
    (n != Store::NONE).then_some(n)
}

// Where the walk under way goes.
pub(crate) fn target(s: &[u8]) -> Option<u16>
    requires { header ≤ length s.now }
    ensures { as_option result ≡ or_none (target s.now) }
{
    named(target_of(s))
}

// The wind whose entering was handed over.
pub(crate) fn handed(s: &[u8]) -> Option<u16>
    requires { header ≤ length s.now }
    ensures { as_option result ≡ or_none (handed s.now) }
{
    named(handed_of(s))
}

// No walk is under way.
pub(crate) fn at_rest(s: &[u8]) -> bool
    requires { Whole s.now }
    ensures { Says result (target s.now ≡ none_n) }
{
    target(s).is_none()
}

// The walk is over.
pub(crate) fn end(s: &mut [u8])
    requires { Whole s.old }
    ensures { s.new ≡ with_handed (with_target s.old none_n) none_n }
{
    set_target(s, Store::NONE);
    set_handed(s, Store::NONE);
}

// The wind whose entering was handed over is entered, if there is one: so many moves.
fn enter_handed(s: &mut [u8]) -> u16
    requires { Sound s.old × (target s.old ≢ none_n) }
    ensures value { result ≡ length (enters_first (or_none (handed s.old))) }
    ensures moved { Moved s.old s.new (enters_first (or_none (handed s.old))) (target s.old) none_n }
{
    let Some(c) = handed(s) else {
        return 0;
    };
    set_handed(s, Store::NONE);
    walk(s, c);
    1
}

// Where the climb from the target ends, and the last wind on it, if there is one.
#[derive(Clone, Copy)]
struct Rise {
    at: u16,
    wind: Option<u16>,
}

// From the target up, while nodes are out. It ends at the meeting point.
fn rise_to_meet(s: &[u8], a: u16) -> Rise
    requires { Whole s.now × IsMade s.now a }
    ensures { Above s.now a result.at result.wind × (result.at ≡ meeting s.now a) }
{
    // where it ends is answered as well, as by trace's `rise_out`
    let mut at = a;
    let mut wind = None;
    while is_out(kind_of(s, at)) {
        if is_wind(kind_of(s, at)) {
            wind = Some(at);
        }
        at = parent_of(s, at);
    }
    Rise { at, wind }
}

// From the focus up to the meeting point, the first wind, if there is one.
fn first_left(s: &[u8], meet: u16) -> Option<u16>
    requires { Whole s.now × OnWay s.now meet }
    ensures first_wind { FirstWind (view s.now).tree left (route (view s.now).tree (focus s.now) meet) result }
    ensures stops { IfSome result (λ w. StopsAt s.now w (place_of s.now w)) }
{
    for n in Way::new(s, focus_of(s), meet) {
        if is_wind(kind_of(s, n)) {
            return Some(n);
        }
    }
    None
}

// To an environment whose way meets the focus's at `meet`, with no event: so many moves, told by the depths.
fn go(s: &mut [u8], to: u16, meet: u16) -> Step
    requires { Whole s.old × (IsMade s.old to × (meet ≡ meeting s.old to)) }
    ensures value { result ≡ record { focus = to; moves = moves_to s.old to; handed = None } }
    ensures moved { Moved s.old s.new (route (view s.old).tree (focus s.old) to) (target s.old) (handed s.old) }
{
    let f = focus_of(s);
    let moves = depth_of(s, f) + depth_of(s, to) - 2 * depth_of(s, meet);
    walk(s, to);
    Step {
        focus: to,
        moves,
        handed: None,
    }
}

// The wind w is left, and its postlude handed over.
fn hand_left(s: &mut [u8], w: u16) -> Step
    requires { Whole s.old × (IsMade s.old w × StopsAt s.old w (place_of s.old w)) }
    ensures value { let place = place_of s.old w in result ≡ record { focus = place; moves = moves_to s.old place; handed = Some (record { entering = false; thunk = post_n (node_of s.old w) }) } }
    ensures moved { Moved s.old s.new (route (view s.old).tree (focus s.old) (place_of s.old w)) (target s.old) (handed s.old) }
{
    let place = parent_of(s, w);
    let thunk = post_of(s, w);
    let step = go(s, place, place);
    Step {
        handed: Some(Handed {
            entering: false,
            thunk,
        }),
        ..step
    }
}

// The wind w's prelude is handed over, before w is entered.
fn hand_entered(s: &mut [u8], w: u16, meet: u16) -> Step
    requires { Whole s.old × (IsMade s.old w × StopsAt s.old w meet) }
    ensures value { let place = place_of s.old w in result ≡ record { focus = place; moves = moves_to s.old place; handed = Some (record { entering = true; thunk = var_n (node_of s.old w) }) } }
    ensures moved { Moved s.old s.new (route (view s.old).tree (focus s.old) (place_of s.old w)) (target s.old) w }
{
    let place = parent_of(s, w);
    let thunk = var_of(s, w);
    let step = go(s, place, meet);
    set_handed(s, w);
    Step {
        handed: Some(Handed {
            entering: true,
            thunk,
        }),
        ..step
    }
}

// The target is reached, and the walk done.
fn arrive(s: &mut [u8], a: u16, meet: u16) -> Step
    requires { Whole s.old × (IsMade s.old a × (meet ≡ meeting s.old a)) }
    ensures value { result ≡ record { focus = a; moves = moves_to s.old a; handed = None } }
    ensures moved { Moved s.old s.new (route (view s.old).tree (focus s.old) a) none_n none_n }
{
    let step = go(s, a, meet);
    end(s);
    step
}

// On to the next event, or to the target, where no wind waits to be entered.
fn onward(s: &mut [u8]) -> Step
    requires { Whole s.old × (IsMade s.old (target s.old) × (handed s.old ≡ none_n)) }
    ensures result_value { numbers (Ok (Answer.Stepped result)) ≡ handing (focus s.new) (length (leg_from s.old (target s.old)).moves) (leg_from s.old (target s.old)).events }
    ensures goes { Goes s.old s.new (leg_from s.old (target s.old)) }
{
    let a = target_of(s);
    let rise = rise_to_meet(s, a);
    let meet = rise.at;
    if let Some(w) = first_left(s, meet) {
        hand_left(s, w)
    } else if let Some(w) = rise.wind {
        hand_entered(s, w, meet)
    } else {
        arrive(s, a, meet)
    }
}

// A step: the wind whose entering was handed over is entered, then on to the next event, or to the target.
pub(crate) fn go_on(s: &mut [u8]) -> Answer
    requires { Sound s.old × (target s.old ≢ none_n) }
    ensures { StrideDone step s.old s.new (numbers (Ok result)) }
{
    let before = enter_handed(s);
    let rest = onward(s);
    Answer::Stepped(Step {
        moves: before + rest.moves,
        ..rest
    })
}
