// The run of a card, line by line: what it prints goes onto a lent page, and nothing is written out here.
ghost use Rattle.std.specs.Prelude.{◌≡◌, ◌+◌, ◌*◌, ◌≤◌, ◌<◌, length};
ghost use Rattle.layout.specs.Limits.{event_size};
ghost use Rattle.print.specs.Printed.{longest};
ghost use Rattle.text.specs.Finds.{Tells};
ghost use Rattle.play.specs.Steps.{page_bytes, Ended, Ready, Told, Puts, Fills};

use crate::page::{Page, put_report, put_told};
use crate::reading::line_at;
use card::run::run;
use print::Print;
use text::line::Line;

// How far a run has come: where the card's next line begins, how many operations were run, which event of the last one is told next
// and how many are left, and how many bytes of the page are in use. It goes by value beside what is lent, card, store, trace and page: the
// clauses say of each lent part what it holds behind the call, and a struct of lent parts would only put `self` before each.
#[derive(Clone, Copy)]
pub(crate) struct Progress {
    pub at: usize,
    pub number: u32,
    pub told: usize,
    pub left: usize,
    pub used: usize,
}

impl Progress {
    // Whether nothing is left to be printed.
    pub fn is_ended(self, card: &[u8]) -> bool
        ensures { Tells result (Ended card.now self) }
    {
        self.left == 0 && card.len() <= self.at
    }

    // Whether a line is left, and room for it on the page.
    fn goes_on(self, card: &[u8]) -> bool
        ensures { Tells result ((Ended card.now self → ⊥) × (self.used + longest ≤ page_bytes)) }
    {
        !self.is_ended(card) && self.used <= Page::BYTES - Print::LINE
    }

    // The next event's line.
    fn put_next_event(&mut self, trace: &[u8], page: &mut [u8])
        requires { (0 < self.old.left) × (event_size * (self.old.told + self.old.left) ≤ length trace.now) × (self.old.used + longest ≤ length page.old) }
        ensures { Told self.old trace.now page.old self.new page.new }
    {
        self.used = put_told(trace, self.told, page, self.used);
        self.told += 1;
        self.left -= 1;
    }

    // There is no next operation, which a good card does not come to: the run ends.
    fn stop(&mut self, card: &[u8])
        ensures { self.new ≡ record { at = length card.now; number = self.old.number; told = 0; left = 0; used = self.old.used } }
    {
        self.at = card.len();
        self.told = 0;
        self.left = 0;
    }

    // The next operation is run, and its line.
    fn put_next_op(&mut self, card: &[u8], store: &mut [u8], trace: &mut [u8], page: &mut [u8])
        requires { Ready card.now trace.old self.old × (self.old.left ≡ 0) × (self.old.at < length card.now) × (self.old.used + longest ≤ length page.old) }
        ensures { Puts card.now self.old store.old trace.old page.old self.new store.new trace.new page.new }
    {
        let Some((Line::Do(op), n)) = line_at(card, self.at) else {
            self.stop(card);
            return;
        };
        self.at += n;
        self.number += 1;
        let report = run(self.number, op, store, trace);
        self.told = 0;
        self.left = report.events as usize;
        self.used = put_report(report, page, self.used);
    }

    // The next line: an event's of the last operation, or else the next operation's.
    fn put_next(&mut self, card: &[u8], store: &mut [u8], trace: &mut [u8], page: &mut [u8])
        requires { Ready card.now trace.old self.old × (Ended card.now self.old → ⊥) × (self.old.used + longest ≤ length page.old) }
        ensures { Puts card.now self.old store.old trace.old page.old self.new store.new trace.new page.new }
    {
        if 0 < self.left {
            self.put_next_event(trace, page);
        } else {
            self.put_next_op(card, store, trace, page);
        }
    }

    // The page from its front, with as many of the next lines as it surely holds.
    pub fn fill(&mut self, card: &[u8], store: &mut [u8], trace: &mut [u8], page: &mut [u8])
        requires { Ready card.now trace.old self.old × (length page.old ≡ page_bytes) }
        ensures { Fills card.now self.old store.old trace.old self.new store.new trace.new page.new }
    {
        self.used = 0;
        // nor how many lines a page holds
        while self.goes_on(card) {
            self.put_next(card, store, trace, page);
        }
    }
}
