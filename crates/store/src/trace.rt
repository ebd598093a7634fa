// A switch's moves and events, found out before anything changes, and its events written to the trace.
ghost use Rattle.std.specs.Prelude.{◌≡◌, ◌+◌, ◌*◌, ◌<◌, ◌≤◌, length};
ghost use Rattle.rules.specs.Moves.{is_wind};
ghost use Rattle.layout.specs.Limits.{event_size};
ghost use Rattle.layout.specs.Records.{room, node_of};
ghost use Rattle.layout.specs.Fields.{Fit};
ghost use Rattle.layout.specs.View.{what_n};
ghost use Rattle.layout.specs.Sound.{Whole};
ghost use Rattle.layout.specs.Events.{told, events_to};
ghost use Rattle.layout.specs.Made.{IsMade};
ghost use Rattle.layout.specs.Routes.{moves_to, left_events, entered_events, meeting, OnWay, Climbing, told_at, Entering};

use crate::kinds::{is_out, is_wind};
use crate::path::Way;
use crate::records::{focus_of, kind_of, note, parent_of, post_of, var_of};
use layout::Event;

// ---- before the walk: how many moves and events

// A climb: where it ended, over how many nodes, and how many of them are winds.
#[derive(Clone, Copy)]
pub(crate) struct Climb {
    pub at: u16,
    pub moves: usize,
    pub events: usize,
}

// 1 for a wind, else 0.
fn wind_bit(s: &[u8], n: u16) -> usize
    requires { Fit s.now × (n < room s.now) }
    ensures { (result ≡ is_wind (what_n (node_of s.now n))) × (result ≤ 1) }
{
    usize::from(is_wind(kind_of(s, n)))
}

// From the target up, while nodes are out: these are to be entered. It ends at the meeting point.
fn rise_out(s: &[u8], a: u16) -> Climb
    requires { Whole s.now × IsMade s.now a }
    ensures { Climbing s.now a result.at result.moves result.events × (result.at ≡ meeting s.now a) }
{
    // where it ends is answered as well: from a `Way` the loop would return within, and a second answer would stand behind it
    let mut at = a;
    let mut moves = 0;
    let mut events = 0;
    while is_out(kind_of(s, at)) {
        moves += 1;
        events += wind_bit(s, at);
        at = parent_of(s, at);
    }
    Climb { at, moves, events }
}

// From the focus up to the meeting point: these are to be left.
fn rise_to(s: &[u8], meet: u16) -> Climb
    requires { Whole s.now × OnWay s.now meet }
    ensures { (result.at ≡ meet) × ((result.moves ≡ moves_to s.now meet) × (result.events ≡ length (events_to s.now meet))) }
{
    let mut moves = 0;
    let mut events = 0;
    for n in Way::new(s, focus_of(s), meet) {
        moves += 1;
        events += wind_bit(s, n);
    }
    Climb {
        at: meet,
        moves,
        events,
    }
}

// The meeting point of a switch to a, its moves and its events.
pub(crate) fn survey(s: &[u8], a: u16) -> Climb
    requires { Whole s.now × IsMade s.now a }
    ensures { (result.at ≡ meeting s.now a) × ((result.moves ≡ moves_to s.now a) × (result.events ≡ length (events_to s.now a))) }
{
    let out = rise_out(s, a);
    let back = rise_to(s, out.at);
    Climb {
        at: out.at,
        moves: out.moves + back.moves,
        events: out.events + back.events,
    }
}

// ---- the events

// Two functions, since the order differs: leaving is noted and then counted up, entering counted down and then noted.

// Leaving n, told as the event e if n is a wind: the number of the next. The place is the wind's parent.
fn tell_left(s: &[u8], t: &mut [u8], n: u16, e: usize) -> usize
    requires whole { Whole s.now × IsMade s.now n }
    requires n_in_bounds { event_size * (e + length (left_events s.now n)) ≤ length t.old }
    ensures { (result ≡ e + length (left_events s.now n)) × (t.new ≡ told_at e (left_events s.now n) t.old) }
{
    if is_wind(kind_of(s, n)) {
        let left = Event {
            entering: false,
            thunk: post_of(s, n),
            place: parent_of(s, n),
        };
        note(t, e, left);
        return e + 1;
    }
    e
}

// Entering n, told as the event before e if n is a wind: its number, else e. The place is the wind's parent.
fn tell_entered(s: &[u8], t: &mut [u8], n: u16, e: usize) -> usize
    requires whole { Whole s.now × IsMade s.now n }
    requires n_len_bound { (length (entered_events s.now n) ≤ e) × (event_size * e ≤ length t.old) }
    ensures { (result + length (entered_events s.now n) ≡ e) × (t.new ≡ told_at result (entered_events s.now n) t.old) }
{
    if is_wind(kind_of(s, n)) {
        let entered = Event {
            entering: true,
            thunk: var_of(s, n),
            place: parent_of(s, n),
        };
        note(t, e - 1, entered);
        return e - 1;
    }
    e
}

// The leaving events, forward from the focus to the meeting point.
fn tell_leaving(s: &[u8], t: &mut [u8], meet: u16)
    requires whole { Whole s.now × OnWay s.now meet }
    requires meet_in_bounds { event_size * length (events_to s.now meet) ≤ length t.old }
    ensures { t.new ≡ told_at 0 (events_to s.now meet) t.old }
{
    let mut e = 0;
    for n in Way::new(s, focus_of(s), meet) {
        e = tell_left(s, t, n, e);
    }
}

// The entering events, backward from the last one, climbing from the target to the meeting point. Store, trace and meeting point stay
// parameters, here and above: what a trace has room for is said of these very ones.
fn tell_entering(s: &[u8], t: &mut [u8], a: u16, meet: u16, events: usize)
    requires whole { (Whole s.now × IsMade s.now a) × ((meet ≡ meeting s.now a) × (events ≡ length (events_to s.now a))) }
    requires events_in_bounds { event_size * events ≤ length t.old }
    ensures { Entering s.now a meet (length (events_to s.now meet)) t.old t.new }
{
    let mut e = events;
    for n in Way::new(s, a, meet) {
        e = tell_entered(s, t, n, e);
    }
}

// The events of a switch to a, from the start of the trace; meet and events are the survey's.
pub(crate) fn tell(s: &[u8], t: &mut [u8], a: u16, meet: u16, events: usize)
    requires whole { (Whole s.now × IsMade s.now a) × ((meet ≡ meeting s.now a) × (events ≡ length (events_to s.now a))) }
    requires events_in_bounds { event_size * events ≤ length t.old }
    ensures { t.new ≡ told (events_to s.now a) t.old }
{
    tell_entering(s, t, a, meet, events);
    tell_leaving(s, t, meet);
}
