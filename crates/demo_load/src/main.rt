// The test load: reads seed and count from standard input, and prints the bench's lines of so many requests on the small chip.
#![tactic(auto)]

mod lines;

ghost use Rattle.std.specs.Prelude.{◌≡◌, IfOk};
ghost use Rattle.demo_load.specs.Load.{asked, begun, request_count, load, load_end, HasLine};

use bench_requests::Figures;
use demo_store::{Ended, Store};
use lines::Load;
use std::io;
use std::io::Read;

// Prints figures that stand at this place of the load, and no others.
fn show(rt: &impl Print, seed: u32, count: u32, place: u32, figures: Figures) -> io::Result<()>
    requires { HasLine (load seed count) place figures }
{
    bench_requests::print(rt, figures)?;
    Ok(())
}

// A request of the load as the bench makes it.
fn ask(request: test_load::Request) -> bench_requests::Request
    ensures { result ≡ asked request }
{
    match request {
        test_load::Request::Erase(block) => bench_requests::Request::Erase(block),
        test_load::Request::Read(block, page) => bench_requests::Request::Read(block, page),
        test_load::Request::Write(block, page, byte) => {
            bench_requests::Request::Write(block, page, byte)
        }
    }
}

// A new chip, formatted; seed 0 is refused.
#[tactic(auto, unfolding(crate::specs::Load::begun))]
fn begin(seed: u32) -> Ended
    ensures { result ≡ begun seed }
{
    let store = Store::new(2);
    if seed == 0 {
        return Ended {
            answer: 2,
            sent: 0,
            store,
        };
    }
    bench_requests::perform(store, bench_requests::Request::Format)
}

// The requests after the formatting.
fn request_count(seed: u32, count: u32) -> u32
    ensures { result ≡ request_count seed count }
{
    if seed == 0 { 0 } else { count }
}

// Makes and shows the whole load.
fn serve(rt: &impl Print, seed: u32, count: u32) -> io::Result<Ended>
    ensures { IfOk result (λ ended. ended ≡ load_end seed count) }
{
    let requests = request_count(seed, count);
    let mut ended = begin(seed);
    let mut last = seed;
    show(rt, seed, count, 0, bench_requests::figures_of(ended))?;
    for made in 0..requests {
        let chosen = test_load::choose(last, 2, 4);
        let next = bench_requests::perform(ended.store, ask(chosen.request));
        show(rt, seed, count, made + 1, bench_requests::figures_of(next))?;
        ended = next;
        last = chosen.last;
    }
    Ok(ended)
}

// The load that the input asks for, and a message if it asks for none.
fn next_load(rt: &impl Eprint, reader: &mut impl Read) -> io::Result<Option<Load>> {
    match lines::next_load(reader) {
        Ok(load) => Ok(Some(load)),
        Err(error) => {
            eprintln!(rt; "demo_load: {error}")?;
            Ok(None)
        }
    }
}

fn main(rt: HostRuntime) -> io::Result<()> {
    if let Some(load) = next_load(&rt, &mut rt.reader())? {
        serve(&rt, load.seed, load.count)?;
    }
    Ok(())
}
