// The bench: requests from standard input on the small chip, a line printed for each.
#![tactic(auto)]

mod lines;

ghost use Rattle.std.specs.Prelude.{◌≡◌};
ghost use Rattle.bench_requests.specs.Requests.{performed, figures_of};

use bench_requests::{Figures, Request};
use demo_store::Store;
use std::io;
use std::io::Read;

// Prints the figures of a request made on a store, and no others.
fn show(rt: &impl Print, before: Store, request: Request, figures: Figures) -> io::Result<()>
    requires { figures ≡ figures_of (performed before request) }
{
    bench_requests::print(rt, figures)?;
    Ok(())
}

// The next request, if there is one, and a message if the run ends before the end of the input.
fn next_request(rt: &impl Eprint, reader: &mut impl Read) -> io::Result<Option<Request>> {
    match lines::next_request(reader) {
        Ok(request) => Ok(request),
        Err(error) => {
            eprintln!(rt; "bench: {error}")?;
            Ok(None)
        }
    }
}

// Performs requests to the end of the input. Nothing says that it ends, so turns are counted to a number that no run comes to.
fn serve(rt: &(impl Print + Eprint), reader: &mut impl Read) -> io::Result<()> {
    let mut store = Store::new(2);
    for _ in 0..u64::MAX {
        let Some(request) = next_request(rt, reader)? else {
            return Ok(());
        };
        let ended = bench_requests::perform(store, request);
        show(rt, store, request, bench_requests::figures_of(ended))?;
        store = ended.store;
    }
    Ok(())
}

fn main(rt: HostRuntime) -> io::Result<()> {
    serve(&rt, &mut rt.reader())
}
