// A driver's day: sales and corrections from standard input go to the journal on the small chip, and a line is printed for each.
#![tactic(auto)]

mod lines;
mod sales;

ghost use Rattle.std.specs.Prelude.{◌≡◌};
ghost use Rattle.demo_journal.specs.Sales.{served, Reached};

use bench_requests::Request;
use demo_store::Store;
use journal::Sale;
use sales::Figures;
use std::io;
use std::io::Read;

// Prints answer, number and takings of a line that is served on a store the program can come to, and no others.
fn show(rt: &impl Print, before: Store, entry: Option<Sale>, figures: Figures) -> io::Result<()>
    requires reached { Reached before }
    requires figures_value { figures ≡ (served before entry).figures }
{
    println!(rt; "{} {} {}", figures.answer, figures.number, figures.takings)
}

// The next line, if there is one, and a message if the run ends before the end of the input.
fn next_line(rt: &impl Eprint, reader: &mut impl Read) -> io::Result<Option<Option<Sale>>> {
    match lines::next_line(reader) {
        Ok(line) => Ok(line),
        Err(error) => {
            eprintln!(rt; "demo_journal: {error}")?;
            Ok(None)
        }
    }
}

// Formats the chip and serves lines to the end of the input. Nothing says that it ends, so turns are counted to a number that
// no run comes to.
fn serve_all(rt: &(impl Print + Eprint), reader: &mut impl Read) -> io::Result<()> {
    let formatted = bench_requests::perform(Store::new(2), Request::Format);
    let mut store = formatted.store;
    for _ in 0..u64::MAX {
        let Some(entry) = next_line(rt, reader)? else {
            return Ok(());
        };
        let done = sales::serve(store, entry);
        show(rt, store, entry, done.figures)?;
        store = done.store;
    }
    Ok(())
}

fn main(rt: HostRuntime) -> io::Result<()> {
    serve_all(&rt, &mut rt.reader())
}
