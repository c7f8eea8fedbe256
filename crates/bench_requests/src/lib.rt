// The bench's requests on the small chip, and the figures that it prints of each.
#![tactic(auto)]

ghost use Rattle.std.specs.Prelude.{◌≡◌, IfOk};
ghost use Rattle.bench_requests.specs.Requests.{performed, figures_of};

use demo_store::{Ended, Store, UNCUT};
use std::io;

#[derive(Clone, Copy, Debug, PartialEq, Eq)]
pub enum Request {
    Format,
    // Logical block, page, and the byte that fills the page.
    Write(usize, usize, u8),
    // Logical block and page.
    Read(usize, usize),
    // Logical block.
    Erase(usize),
}

// Answer, cycles sent, and the valid unmarked blocks that hold nothing current.
#[derive(Clone, Copy, Debug, PartialEq, Eq)]
pub struct Figures {
    pub answer: usize,
    pub sent: usize,
    pub free: usize,
}

// No bit of an operation that is cut takes effect, and every operation passes without a busy status read.
const MASK: [u8; 192] = [0; 192];

const FATES: [u32; 0] = [];

// Makes a request.
pub fn perform(store: Store, request: Request) -> Ended
    ensures { result ≡ performed store request }
{
    match request {
        Request::Format => store.format(&MASK, &FATES, UNCUT),
        Request::Write(block, page, byte) => store.write(&MASK, &FATES, UNCUT, block, page, byte),
        Request::Read(block, page) => store.read(&MASK, &FATES, UNCUT, block, page).ended,
        Request::Erase(block) => store.erase(&MASK, &FATES, UNCUT, block),
    }
}

// The figures of a request that ended so.
pub fn figures_of(ended: Ended) -> Figures
    ensures { result ≡ figures_of ended }
{
    Figures {
        answer: ended.answer,
        sent: ended.sent,
        free: ended.store.state.free_blocks(4, 2),
    }
}

// Prints figures as a line, and hands them back.
pub fn print(rt: &impl Print, figures: Figures) -> io::Result<Figures>
    ensures { IfOk result (λ printed. printed ≡ figures) }
{
    println!(rt; "{} {} {}", figures.answer, figures.sent, figures.free)?;
    Ok(figures)
}
