// What a call on the store answers, and document 01's numbers for it. What each call promises stands in specs/.
#![tactic(auto)]

ghost use Rattle.std.specs.Prelude.{◌≡◌, pos, Some, None};
ghost use Rattle.promises.specs.Answers.{number_of, stepped, numbers, flat, untold, numbers_told};

// A new environment, and the events of making it.
#[derive(Clone, Copy)]
pub struct New {
    pub node: u16,
    pub events: u16,
}

// A value, and the number of the environment whose binding decides it, 0 for the top value.
#[derive(Clone, Copy)]
pub struct Seen {
    pub value: i32,
    pub by: u16,
}

// A switch: the new focus, the moves and the number of events.
#[derive(Clone, Copy)]
pub struct Switch {
    pub focus: u16,
    pub moves: u16,
    pub events: u16,
}

// The event that a step hands over: whether a wind is entered or left, and the thunk that runs, either way.
#[derive(Clone, Copy)]
pub struct Handed {
    pub entering: bool,
    pub thunk: u16,
}

// A step of a walk: the focus, the moves, and the event that it hands over, if any.
#[derive(Clone, Copy)]
pub struct Step {
    pub focus: u16,
    pub moves: u16,
    pub handed: Option<Handed>,
}

// Why a call is refused.
#[derive(Clone, Copy, Debug, PartialEq, Eq)]
pub enum Refusal {
    Setup,
    Damaged,
    NoVariable,
    NoEnvironment,
    Unbound,
    Full,
    TraceRoom,
    Top,
    Walking,
    NotWalking,
}

// What a call that is not refused answers: a case for each kind of answer.
#[derive(Clone, Copy)]
pub enum Answer {
    Opened,
    Number(u16),
    Made(New),
    Value(Seen),
    Switched(Switch),
    Stepped(Step),
}

// What an environment is, and its parent, which the top has not. A binding has its variable's own value there, if it has one.
#[derive(Clone, Copy, Debug, PartialEq, Eq)]
pub enum Environment {
    Top,
    Binding {
        variable: u16,
        value: Option<i32>,
        parent: u16,
    },
    Wind {
        prelude: u16,
        postlude: u16,
        parent: u16,
    },
}

// The numbers of an environment, beside code 0: kind 1 the top; 2 a binding, first its variable, value its own value where state
// is 1; 3 a wind, first its prelude, second its postlude; and its parent. What does not apply is 0, as all is beside a refusal's number.
// They are numbers, and 0 for what is missing, since the definitions `telling` and `untold` have them so, and C shows them.
#[derive(Clone, Copy, Default)]
pub struct Told {
    pub value: i32,
    pub code: u16,
    pub kind: u16,
    pub parent: u16,
    pub first: u16,
    pub second: u16,
    pub state: u16,
}

// Document 01's numbers of an answer: the answer itself, its number, the moves, the number of events; of a value the decider,
// of a step the event that it hands over. Numbers, since the definition `numbers` has them so, and C and the card show them.
#[derive(Clone, Copy, Default)]
pub struct Flat {
    pub out: i32,
    pub code: u16,
    pub moves: u16,
    pub events: u16,
    pub by: Option<u16>,
    pub event: u16,
    pub thunk: u16,
}

// Document 01's number of a refusal. By a match and no discriminant, so that a fact refuses the edit damaged_as_setup.
impl From<Refusal> for u16 {
    ghost from_gives = { λ r n. n ≡ number_of r };

    fn from(r: Refusal) -> u16 {
        match r {
            Refusal::Setup => 1,
            Refusal::Damaged => 2,
            Refusal::NoVariable => 3,
            Refusal::NoEnvironment => 4,
            Refusal::Unbound => 5,
            Refusal::Full => 6,
            Refusal::TraceRoom => 7,
            Refusal::Top => 8,
            Refusal::Walking => 10,
            Refusal::NotWalking => 11,
        }
    }
}

// Done, with the number of an environment, 0 moves and 0 events or more.
fn done(n: u16, moves: u16, events: u16) -> Flat
    ensures { result ≡ record { out = pos n; code = 0; moves = moves; events = events; by = None; event = 0; thunk = 0 } }
{
    Flat {
        out: i32::from(n),
        moves,
        events,
        ..Flat::default()
    }
}

// Done, with a value and its decider.
fn valued(v: i32, by: u16) -> Flat
    ensures { result ≡ record { out = v; code = 0; moves = 0; events = 0; by = Some by; event = 0; thunk = 0 } }
{
    Flat {
        out: v,
        by: Some(by),
        ..Flat::default()
    }
}

// A step, with what it hands over.
#[tactic(auto, unfolding(crate::specs::Answers::flat))]
fn handing(w: Step) -> Flat
    ensures { result ≡ flat (stepped w.focus w.moves w.handed) }
{
    let at = done(w.focus, w.moves, 0);
    match w.handed {
        Some(e) => Flat {
            events: 1,
            event: u16::from(e.entering),
            thunk: e.thunk,
            ..at
        },
        None => at,
    }
}

// A refusal answers 0 beside its number.
fn refused(r: Refusal) -> Flat
    ensures { result ≡ record { out = pos 0; code = number_of r; moves = 0; events = 0; by = None; event = 0; thunk = 0 } }
{
    let code = u16::from(r);
    Flat {
        code,
        ..Flat::default()
    }
}

// The numbers of an answer, or of a refusal.
#[tactic(auto, unfolding(crate::specs::Answers::numbers, crate::specs::Answers::flat))]
pub fn numbers_of(a: Result<Answer, Refusal>) -> Flat
    ensures { result ≡ flat (numbers a) }
{
    match a {
        Ok(Answer::Opened) => done(0, 0, 0),
        Ok(Answer::Number(n)) => done(n, 0, 0),
        Ok(Answer::Made(m)) => done(m.node, 0, m.events),
        Ok(Answer::Value(v)) => valued(v.value, v.by),
        Ok(Answer::Switched(w)) => done(w.focus, w.moves, w.events),
        Ok(Answer::Stepped(w)) => handing(w),
        Err(r) => refused(r),
    }
}

// A refusal tells nothing beside its number.
pub fn untold(r: Refusal) -> Told
    ensures { result ≡ untold (number_of r) }
{
    Told {
        code: u16::from(r),
        ..Told::default()
    }
}

// The numbers of what is told of an environment, or of a refusal.
#[tactic(auto, unfolding(crate::specs::Answers::numbers_told))]
pub fn numbers_told(a: Result<Environment, Refusal>) -> Told
    ensures { result ≡ numbers_told a }
{
    match a {
        Ok(Environment::Top) => Told {
            kind: 1,
            ..Told::default()
        },
        Ok(
            Environment::Binding {
                variable,
                value,
                parent,
            },
        ) => Told {
            value: value.unwrap_or(0),
            kind: 2,
            parent,
            first: variable,
            state: u16::from(value.is_some()),
            ..Told::default()
        },
        Ok(
            Environment::Wind {
                prelude,
                postlude,
                parent,
            },
        ) => Told {
            kind: 3,
            parent,
            first: prelude,
            second: postlude,
            ..Told::default()
        },
        Err(r) => untold(r),
    }
}
