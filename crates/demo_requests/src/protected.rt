// Requests with the write-protect line low: those that write change nothing, and the others go on.
use crate::{EVERY_BIT, NO_FATES, show, show_read, writes};
use demo_store::{Depth, Ended, Store, UNCUT};
use std::io;

// The line low at 1, high at 0.
fn with_line(mut store: Store, protected: usize) -> Store {
    store.interface.protected = protected;
    store
}

fn write(store: Store, allowed: u32) -> Ended {
    writes::write(store, &NO_FATES, allowed, 0)
}

// A write, an erase and a formatting, each of which hands the state back.
fn show_refused(rt: &impl Print, store: Store) -> io::Result<Store> {
    let written = write(store, UNCUT);
    show(rt, "protected-write", written)?;
    let erased = written.store.erase(&EVERY_BIT, &NO_FATES, UNCUT, 0);
    show(rt, "protected-erase", erased)?;
    let formatted = erased.store.format(&EVERY_BIT, &NO_FATES, UNCUT);
    show(rt, "protected-format", formatted)?;
    Ok(formatted.store)
}

// A read with that state, a mount and another read.
fn show_passed(rt: &impl Print, store: Store) -> io::Result<Store> {
    show_read(rt, "protected-read", store, 0, 0)?;
    let mounted = store.mount(Depth::Full, &EVERY_BIT, &NO_FATES, UNCUT);
    show(rt, "protected-mount", mounted)?;
    show_read(rt, "protected-read", mounted.store, 0, 0)?;
    Ok(mounted.store)
}

// Where power is cut in the status read, and where no number is left.
fn show_order(rt: &impl Print, store: Store) -> io::Result<()> {
    show(rt, "protected-allowed-1", write(store, 1))?;
    show(rt, "protected-allowed-2", write(store, 2))?;
    let mut spent = store;
    spent.state.number = 18446744073709551615;
    show(rt, "protected-number-spent", write(spent, UNCUT))
}

// A chip with one page written, its line low and then released.
pub(crate) fn show_all(rt: &impl Print) -> io::Result<()> {
    let store = with_line(writes::written(writes::formatted(), 0), 1);
    let mounted = show_passed(rt, show_refused(rt, store)?)?;
    show_order(rt, mounted)?;
    show(rt, "released-write", write(with_line(mounted, 0), UNCUT))
}
