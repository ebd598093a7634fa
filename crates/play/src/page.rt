// A page of printed lines: each put_ function puts one line behind a place, and answers the place behind the line.
ghost use Rattle.std.specs.Prelude.{◌≡◌, ◌+◌, ◌*◌, ◌≤◌, length};
ghost use Rattle.layout.specs.Limits.{event_size};
ghost use Rattle.layout.specs.Bytes.{part};
ghost use Rattle.print.specs.Printed.{op_line, longest};
ghost use Rattle.print.specs.Writing.{Wrote};
ghost use Rattle.play.specs.Output.{event_text};

use layout::Store;
use print::{Print, Report, put_event, put_line, put_op};

#[derive(Drop)]
pub(crate) struct Page {}

impl Page {
    pub const BYTES: usize = 4_096;
}

// The bytes of the event i of the trace.
fn event_at(trace: &[u8], i: usize) -> [u8; Store::EVENT]
    requires { event_size * i + event_size ≤ length trace.now }
    ensures { result ≡ part trace.now (event_size * i) event_size }
{
    let mut event = [0u8; Store::EVENT];
    let at = Store::EVENT * i;
    event.copy_from_slice(&trace[at..at + Store::EVENT]);
    event
}

// The line of one operation, put at a place of the lent page; the answer is the place behind it, which Progress keeps.
pub(crate) fn put_report(report: Report, page: &mut [u8], at: usize) -> usize
    requires { at + longest ≤ length page.old }
    ensures { Wrote page.old at (op_line report) page.new result }
{
    let mut line = [0u8; Print::LINE];
    let n = put_op(report, &mut line);
    put_line(&line[..n], page, at)
}

// The line of the event i of the trace, put as `put_report` puts one.
pub(crate) fn put_told(trace: &[u8], i: usize, page: &mut [u8], at: usize) -> usize
    requires { (event_size * i + event_size ≤ length trace.now) × (at + longest ≤ length page.old) }
    ensures { Wrote page.old at (event_text (part trace.now (event_size * i) event_size)) page.new result }
{
    let event = layout::event_in(event_at(trace, i));
    let mut line = [0u8; Print::LINE];
    let end = put_event(
        event.entering,
        event.thunk,
        u32::from(event.place),
        &mut line,
    );
    put_line(&line[..end], page, at)
}
