// What a card asks: its last operation, where that is a peek.
ghost use Rattle.std.specs.Prelude.{◌≡◌};
ghost use Rattle.card.specs.Cards.{Passes};
ghost use Rattle.why.specs.Asking.{asked_by, Asks};

use card::check::{BadLine, check};
use text::line::{Line, Op, next_line};

// A peek: the environment that it starts from, and the variable.
#[derive(Clone, Copy, Debug, PartialEq, Eq)]
pub struct Peek {
    pub env: u32,
    pub var: u32,
}

// What the last line asks, where there are so many.
fn asked_by(line: Line, lines: u32) -> Result<Peek, BadLine>
    ensures { result ≡ asked_by line lines }
{
    match line {
        Line::Do(Op::Peek(env, var)) => Ok(Peek { env, var }),
        _ => Err(BadLine(lines)),
    }
}

// What a good card asks, line by line: each line counts as the last until another follows.
fn last_asks(card: &[u8]) -> Result<Peek, BadLine>
    requires { Passes card.now }
    ensures { Asks card.now result }
{
    let mut at: usize = 0;
    let mut lines: u32 = 0;
    let mut last = Err(BadLine(0));
    // the place moves by what each line takes, as in card's check
    while at < card.len() {
        let Some((line, n)) = next_line(&card[at..]) else {
            return Err(BadLine(lines));
        };
        at += n;
        lines += 1;
        last = asked_by(line, lines);
    }
    last
}

// What any card asks; or its first bad line, and the last line where the card is good and asks nothing.
pub fn asked(card: &[u8]) -> Result<Peek, BadLine>
    ensures { Asks card.now result }
{
    check(card)?;
    last_asks(card)
}
