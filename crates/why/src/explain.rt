// Why a variable has its value at an environment, told from a store: the environments up to the decider, the bindings behind it, the top
// value. The store is only read, and each environment is told by the store itself.
ghost use Rattle.std.specs.Prelude.{◌≡◌, cond, [], ℕ, ◌+◌, ◌*◌, ◌≤◌, ◌<◌, length, Ok};
ghost use Rattle.rules.specs.Tree.{What, binds, path};
ghost use Rattle.rules.specs.Values.{Cell};
ghost use Rattle.rules.specs.Why.{binders};
ghost use Rattle.layout.specs.Records.{vars};
ghost use Rattle.layout.specs.View.{view};
ghost use Rattle.layout.specs.Sound.{Sound};
ghost use Rattle.layout.specs.Made.{IsMade};
ghost use Rattle.promises.specs.Answers.{telling, own_cell, numbers_told};
ghost use Rattle.promises.specs.Promises.{at};
ghost use Rattle.print.specs.Explaining.{shadowed_line};
ghost use Rattle.print.specs.Printed.{longest};
ghost use Rattle.print.specs.Writing.{Wrote};
ghost use Rattle.why.specs.Explained.{held, env_line, shadow_text, joined, found_text, lost_text, Explains, most_bytes, Adds, stops_by, stops, Chained, Answered};

use layout::Store;
use print::{
    Out, Print, put_bind, put_line, put_shadowed, put_top, put_top_value, put_unbound, put_wind,
};
use promises::{Answer, Environment, Refusal};

// The most bytes of an explanation: a line for each environment, and the last one.
#[derive(Drop)]
pub struct Explanation {}

impl Explanation {
    pub const BYTES: usize = Print::LINE * (Store::NODES + 1);
}

// The lines of an explanation, one behind the other in lent bytes: at is the place behind them.
#[derive(Drop)]
pub(crate) struct Lines<'a> {
    pub out: &'a mut [u8; Explanation::BYTES],
    pub at: usize,
}

// The top value of x, or none.
fn top_value(s: &[u8], x: u32) -> Option<Out>
    requires { Sound s.now × (x < vars s.now) }
    ensures { result ≡ held (at s.now 0 x) }
{
    match store::peek(s, 0, x) {
        Ok(Answer::Value(seen)) => Some(Out::Number(seen.value)),
        Ok(_) => None,
        Err(_) => None,
    }
}

// What a binding holds, as it is printed: a number, or none.
fn held_by(value: Option<i32>) -> Option<Out>
    ensures { result ≡ held (own_cell value) }
{
    value.map(Out::Number)
}

// The parent; the top stands for its own.
#[tactic(auto, unfolding(promises::specs::Answers::numbers_told))]
fn parent_of(env: Environment) -> u32
    ensures { result ≡ (numbers_told (Ok env)).parent }
{
    match env {
        Environment::Top => 0,
        Environment::Binding { parent, .. } => u32::from(parent),
        Environment::Wind { parent, .. } => u32::from(parent),
    }
}

// Whether the environment binds the variable that is asked for, if one is.
#[tactic(auto, unfolding(promises::specs::Answers::numbers_told))]
fn stops_at(env: Environment, x: Option<u32>) -> bool
    ensures { (w : What) (p : ℕ) (own : ℕ → Cell) → numbers_told (Ok env) ≡ telling w p own → result ≡ stops_by x w }
{
    match env {
        Environment::Binding { variable, .. } => x == Some(u32::from(variable)),
        _ => false,
    }
}

// The line of the environment n.
#[tactic(auto, unfolding(promises::specs::Answers::numbers_told))]
fn env_line(n: u32, env: Environment, line: &mut [u8; Print::LINE]) -> usize
    ensures wrote { (w : What) (p : ℕ) (own : ℕ → Cell) → numbers_told (Ok env) ≡ telling w p own → Wrote line.old 0 (env_line n w own) line.new result }
    ensures upper_bound { (result ≤ longest) × (result ≤ length line.new) }
{
    match env {
        Environment::Top => put_top(line),
        Environment::Binding {
            variable,
            value,
            ..
        } => put_bind(n, u32::from(variable), held_by(value), line),
        Environment::Wind {
            prelude,
            postlude,
            ..
        } => put_wind(n, u32::from(prelude), u32::from(postlude), line),
    }
}

// The store, the environment and the variable stay parameters of each, as peek and tell take them.
impl Lines<'_> {
    // One line more.
    fn put(&mut self, line: &[u8])
        requires { (length line.now ≤ longest) × (self.old.at + longest ≤ most_bytes) }
        ensures { Adds self.old line.now self.new }
    {
        let at = self.at;
        self.at = put_line(line, self.out, at);
    }

    // The line of the environment n.
    fn put_env(&mut self, n: u32, env: Environment)
        requires { self.old.at + longest ≤ most_bytes }
        ensures wrote { (w : What) (p : ℕ) (own : ℕ → Cell) → numbers_told (Ok env) ≡ telling w p own → Adds self.old (env_line n w own) self.new }
        ensures upper_bound { self.new.at ≤ self.old.at + longest }
    {
        let mut line = [0u8; Print::LINE];
        let k = env_line(n, env, &mut line);
        self.put(&line[..k]);
    }

    // The lines of the environments from a up to the decider of x, or up to the top where none is asked for; the answer is the parent of
    // the environment told last.
    fn put_chain(&mut self, s: &[u8], a: u32, x: Option<u32>) -> u32
        requires { Sound s.now × IsMade s.now a × (self.old.at + longest * (length (path (view s.now).tree a) + 2) ≤ most_bytes) }
        ensures { Chained s.now (stops s.now x) a self.old self.new result }
    {
        // a climb: which environment is next is told by this one, and the last one's parent is answered
        let mut n = a;
        loop {
            let env = store::tell(s, n).unwrap();
            self.put_env(n, env);
            let next = parent_of(env);
            if n == 0 || stops_at(env, x) {
                return next;
            }
            n = next;
        }
    }

    // The line of the environment n behind the decider, where it binds x.
    #[tactic(auto, unfolding(promises::specs::Answers::numbers_told))]
    fn put_if_shadowed(&mut self, n: u32, env: Environment, x: u32)
        requires { self.old.at + longest ≤ most_bytes }
        ensures wrote { (w : What) (p : ℕ) (own : ℕ → Cell) → numbers_told (Ok env) ≡ telling w p own → Adds self.old (cond (binds w x) (shadowed_line n (held (own x))) []) self.new }
        ensures upper_bound { self.new.at ≤ self.old.at + longest }
    {
        match env {
            Environment::Binding {
                variable,
                value,
                ..
            } if u32::from(variable) == x => {
                let mut line = [0u8; Print::LINE];
                let k = put_shadowed(n, held_by(value), &mut line);
                self.put(&line[..k]);
            }
            _ => {}
        }
    }

    // The lines of the bindings of x from an environment up to the top.
    fn put_behind(&mut self, s: &[u8], from: u32, x: u32)
        requires { Sound s.now × IsMade s.now from × (self.old.at + longest * (length (path (view s.now).tree from) + 1) ≤ most_bytes) }
        ensures wrote { Adds self.old (joined (shadow_text s.now x) (binders (view s.now).tree.what x (path (view s.now).tree from))) self.new }
        ensures room { self.new.at + longest ≤ most_bytes }
    {
        // a climb: which environment is next is told by this one
        let mut n = from;
        while n != 0 {
            let env = store::tell(s, n).unwrap();
            self.put_if_shadowed(n, env, x);
            n = parent_of(env);
        }
    }

    // Where a value was found: the environments up to the decider, the bindings behind it, the top value.
    fn put_found(&mut self, s: &[u8], a: u32, x: u32)
        requires { Sound s.now × (x < vars s.now) × IsMade s.now a × (self.old.at + longest * (length (path (view s.now).tree a) + 2) ≤ most_bytes) }
        ensures { Adds self.old (found_text s.now a x) self.new }
    {
        let next = self.put_chain(s, a, Some(x));
        self.put_behind(s, next, x);
        let mut line = [0u8; Print::LINE];
        let k = put_top_value(top_value(s, x), &mut line);
        self.put(&line[..k]);
    }

    // Where none was found: the environments up to the top, and that there is no value.
    fn put_lost(&mut self, s: &[u8], a: u32)
        requires { Sound s.now × IsMade s.now a × (self.old.at + longest * (length (path (view s.now).tree a) + 2) ≤ most_bytes) }
        ensures { Adds self.old (lost_text s.now a) self.new }
    {
        self.put_chain(s, a, None);
        let mut line = [0u8; Print::LINE];
        let k = put_unbound(&mut line);
        self.put(&line[..k]);
    }

    // What explains the peek of x at a, by what it answers.
    fn put_answer(&mut self, s: &[u8], a: u32, x: u32)
        requires { self.old.at ≡ 0 }
        ensures { Answered s.now a x self.old self.new }
    {
        match store::peek(s, a, x) {
            Ok(_) => self.put_found(s, a, x),
            Err(Refusal::Unbound) => self.put_lost(s, a),
            Err(_) => {}
        }
    }
}

// The explanation of the peek of x at a, from the front of a text; the answer is its length. A peek that is refused for another reason
// than that x has no value there has none.
pub fn explain(s: &[u8], a: u32, x: u32, out: &mut [u8; Explanation::BYTES]) -> usize
    ensures explains { Explains s.now a x out.old out.new result }
    ensures upper_bound { result ≤ 196704 }
{
    let mut lines = Lines { out, at: 0 };
    lines.put_answer(s, a, x);
    lines.at
}
