// Captures of three requests on the small chip, cycle by cycle, as a logic analyser shows them: a formatting of a new chip,
// a write, and a mount.
#![tactic(auto)]

mod print;
mod recover;
mod runs;
mod steps;

use capture::Captured;
use demo_store::UNCUT;
use recover::Operation;
use runs::Call;
use std::io;

// An operation of a request, and the cycles sent before it.
#[derive(Clone, Copy)]
struct Begun {
    operation: Operation,
    from: usize,
}

impl Begun {
    // The operation's cycle after `sent` cycles of the request.
    fn cycle_after(self, sent: usize) -> Option<Captured> {
        self.operation.cycle(sent.checked_sub(self.from)?)
    }
}

fn cycle_after(begun: Option<Begun>, sent: usize) -> Option<Captured> {
    begun?.cycle_after(sent)
}

// The operation that the next cycle belongs to: the last one, or where it is over the one that begins.
fn under_way(call: Call, last: Option<Begun>, sent: usize, total: usize) -> Option<Begun> {
    if cycle_after(last, sent).is_some() {
        return last;
    }
    Some(Begun {
        operation: recover::operation_after(call, sent, total)?,
        from: sent,
    })
}

// Prints the cycles of a request.
fn show_cycles(rt: &impl Print, call: Call, total: usize) -> io::Result<()> {
    let mut begun = None;
    let mut before = call.left_after(0);
    for sent in 0..total {
        begun = under_way(call, begun, sent, total);
        let after = call.left_after(sent + 1);
        match cycle_after(begun, sent) {
            Some(cycle) => steps::show(rt, sent + 1, cycle, before, after.interface)?,
            None => print::misfit(rt, sent + 1)?,
        }
        before = after;
    }
    if cycle_after(begun, total).is_some() {
        print::misfit(rt, total)?;
    }
    Ok(())
}

// Prints a request.
fn show(rt: &impl Print, name: &str, call: Call) -> io::Result<()> {
    let ended = call.ended(UNCUT);
    print::heading(rt, name)?;
    show_cycles(rt, call, ended.sent)?;
    print::closing(rt, ended.answer, ended.sent)
}

fn main(rt: HostRuntime) -> io::Result<()> {
    show(&rt, "format", Call::Format)?;
    show(&rt, "write", Call::Write)?;
    show(&rt, "mount", Call::Mount)
}
