// Writes of page 0 of a logical block, on chips as earlier requests left them.
use crate::{EVERY_BIT, NO_BIT, NO_FATES, show};
use demo_store::{Depth, Ended, Store, UNCUT};
use std::io;

// A new chip, formatted.
pub(crate) fn formatted() -> Store {
    Store::new(2).format(&NO_BIT, &NO_FATES, UNCUT).store
}

// A cut operation takes effect in every bit.
pub(crate) fn write(store: Store, fates: &[u32], allowed: u32, block: usize) -> Ended {
    store.write(&EVERY_BIT, fates, allowed, block, 0, 0x11)
}

// The store after a write that passes.
pub(crate) fn written(store: Store, block: usize) -> Store {
    write(store, &NO_FATES, UNCUT, block).store
}

// The first write on a new chip.
pub(crate) fn show_write(
    rt: &impl Print,
    label: &str,
    fates: &[u32],
    allowed: u32,
) -> io::Result<()> {
    show(rt, label, write(formatted(), fates, allowed, 0))
}

// A write from a state whose next number is the last, and one more.
pub(crate) fn show_last_number(rt: &impl Print) -> io::Result<()> {
    let mut store = formatted();
    store.state.number = 18446744073709551614;
    let last = write(store, &NO_FATES, UNCUT, 0);
    show(rt, "last-number", last)?;
    show(rt, "number-spent", write(last.store, &NO_FATES, UNCUT, 0))
}

// A write whose first erase fails: the table fill takes the block of the old copy.
pub(crate) fn show_failed_erase(rt: &impl Print) -> io::Result<()> {
    let store = written(formatted(), 0);
    show(rt, "failed-erase", write(store, &[65536], UNCUT, 0))
}

// A write after one that was cut past its first page and a mount: the only free block is the one filled last.
pub(crate) fn show_cut_write(rt: &impl Print) -> io::Result<()> {
    let store = written(written(formatted(), 0), 1);
    let cut = write(store, &NO_FATES, 70, 0);
    show(rt, "cut-write", cut)?;
    let mounted = cut.store.mount(Depth::Full, &NO_BIT, &NO_FATES, UNCUT);
    show(rt, "mount", mounted)?;
    show(
        rt,
        "block-filled-last",
        write(mounted.store, &NO_FATES, UNCUT, 0),
    )
}
