// What the program writes: counts, and at a disagreement the sequence, an operation to a line as a card has it.
use std::fmt::Display;
use std::io::{Stdout, Write};

// Where all is written, and whether what a sequence does is written too: no value hangs on that.
#[derive(Clone, Copy)]
pub(crate) struct Loud {
    pub out: Stdout,
    pub on: bool,
}

impl Loud {
    // What cannot be written is lost: the program has nowhere else to say so.
    pub(crate) fn write<D: Display + Drop>(self, what: D) {
        let mut out = self.out;
        let _ = write!(out, "{what}");
    }

    // A line of a sequence that is written.
    pub(crate) fn line<D: Display + Drop>(self, what: D) {
        if self.on {
            let mut out = self.out;
            let _ = writeln!(out, "{what}");
        }
    }

    pub(crate) fn differ<D: Display + Drop>(self, want: D, got: D) {
        self.line(format_args!("model: {want}"));
        self.line(format_args!("store: {got}"));
    }
}
