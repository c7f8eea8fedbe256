// Runs the requests on the small chip: a word for each case, then answer, cycles sent and free blocks.
#![tactic(auto)]

mod mounts;
mod protected;
mod writes;

use demo_store::{Ended, Store, UNCUT};
use std::io;

// A cut operation takes effect in no bit, or in every one.
pub(crate) const NO_BIT: [u8; 192] = [0; 192];

pub(crate) const EVERY_BIT: [u8; 192] = [0xff; 192];

// Every operation passes without a busy status read.
pub(crate) const NO_FATES: [u32; 0] = [];

// Prints how a request ended.
pub(crate) fn show(rt: &impl Print, label: &str, ended: Ended) -> io::Result<()> {
    print!(rt; "{label} ")?;
    bench_requests::print(rt, bench_requests::figures_of(ended))?;
    Ok(())
}

// Formats a new chip, but for the byte in page 1 of block 2 where a factory mark would stand.
fn show_format(
    rt: &impl Print,
    label: &str,
    logical: usize,
    mark: u8,
    fates: &[u32],
    allowed: u32,
) -> io::Result<()> {
    let mut store = Store::new(logical);
    store.array[464] = mark;
    show(rt, label, store.format(&NO_BIT, fates, allowed))
}

// Reads a logical page, and shows its first byte.
pub(crate) fn show_read(
    rt: &impl Print,
    label: &str,
    store: Store,
    block: usize,
    page: usize,
) -> io::Result<()> {
    let read = store.read(&NO_BIT, &NO_FATES, UNCUT, block, page);
    show(rt, label, read.ended)?;
    println!(rt; "  first byte {:02x}", read.page[0])
}

// A new chip formatted and read.
fn show_first_read(rt: &impl Print) -> io::Result<()> {
    let formatted = Store::new(2).format(&NO_BIT, &NO_FATES, UNCUT);
    show(rt, "format", formatted)?;
    show_read(rt, "read-1-3", formatted.store, 1, 3)
}

fn main(rt: HostRuntime) -> io::Result<()> {
    show_first_read(&rt)?;
    show_format(&rt, "marked-block", 2, 0, &NO_FATES, UNCUT)?;
    show_format(&rt, "three-logical", 3, 0xff, &NO_FATES, UNCUT)?;
    show_format(&rt, "busy-255", 2, 0xff, &[255], UNCUT)?;
    show_format(&rt, "busy-256", 2, 0xff, &[256], UNCUT)?;
    show_format(&rt, "allowed-1195", 2, 0xff, &NO_FATES, 1195)?;
    show_format(&rt, "allowed-1196", 2, 0xff, &NO_FATES, 1196)?;
    writes::show_write(&rt, "write", &NO_FATES, UNCUT)?;
    writes::show_write(&rt, "write-busy-255", &[255], UNCUT)?;
    writes::show_write(&rt, "write-busy-256", &[256], UNCUT)?;
    writes::show_write(&rt, "write-allowed-236", &NO_FATES, 236)?;
    writes::show_write(&rt, "write-allowed-237", &NO_FATES, 237)?;
    writes::show_last_number(&rt)?;
    writes::show_failed_erase(&rt)?;
    writes::show_cut_write(&rt)?;
    protected::show_all(&rt)?;
    mounts::show_mounts(&rt)
}
