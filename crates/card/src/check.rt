// The check of a whole card before anything is run: good, or its first bad line.
ghost use Rattle.std.specs.Prelude.{◌≡◌};
ghost use Rattle.text.specs.Finds.{Tells};
ghost use Rattle.text.specs.Lines.{InRange};
ghost use Rattle.card.specs.Cards.{ruling, Checked};
ghost use Rattle.card.specs.Judging.{MayStand, ops_from};

use text::Card;
use text::line::{Line, next_line};

// A card's first bad line, counted from 1; 0 where the card is too long, as document 01 numbers the lines of its verdicts.
#[derive(Clone, Copy, Debug, PartialEq, Eq)]
pub struct BadLine(pub u32);

// Whether this line may stand behind so many lines, where so many stand before the operations.
fn may_stand(line: Line, before: u32, ops: u32) -> bool
    ensures { Tells result (MayStand line before ops) }
{
    match line {
        Line::Vars(_) => before == 0,
        Line::Nodes(_) => before == 1,
        Line::Room(_) => before == 2,
        Line::Top(_) => (3..ops).contains(&before),
        Line::Do(_) => ops <= before,
    }
}

// How many lines stand before the operations once this line is read: three headings, and as many top values as vars says.
fn ops_from(line: Line, ops: u32) -> u32
    requires { InRange line }
    ensures { result ≡ ops_from line ops }
{
    match line {
        Line::Vars(n) => 3 + n,
        _ => ops,
    }
}

// Whether the card is good; otherwise its first bad line.
pub fn check(card: &[u8]) -> Result<(), BadLine>
    ensures { Checked card.now (ruling result) }
{
    if Card::BYTES < card.len() {
        return Err(BadLine(0));
    }
    let mut at: usize = 0;
    let mut lines: u32 = 0;
    let mut ops: u32 = 3;
    // the place moves by what each line takes; an iterator of lines would hold that place, and the invariant speak of its field
    while at < card.len() {
        let Some((line, n)) = next_line(&card[at..]) else {
            return Err(BadLine(lines + 1));
        };
        if !may_stand(line, lines, ops) {
            return Err(BadLine(lines + 1));
        }
        ops = ops_from(line, ops);
        at += n;
        lines += 1;
    }
    if lines < ops {
        return Err(BadLine(lines + 1));
    }
    Ok(())
}
