// Mounts of the small chip, full and quick.
use crate::{NO_BIT, NO_FATES, show, writes};
use demo_store::{Depth, Store, UNCUT};
use std::io;

// A full and a quick mount of one chip.
fn show_both(rt: &impl Print, full: &str, quick: &str, store: Store) -> io::Result<()> {
    show(
        rt,
        full,
        store.mount(Depth::Full, &NO_BIT, &NO_FATES, UNCUT),
    )?;
    show(
        rt,
        quick,
        store.mount(Depth::Quick, &NO_BIT, &NO_FATES, UNCUT),
    )
}

// A quick mount that is cut a cycle before its end, that just ends, and that falls silent.
fn show_stopped(rt: &impl Print, store: Store) -> io::Result<()> {
    let before = store.mount(Depth::Quick, &NO_BIT, &NO_FATES, 626);
    show(rt, "quick-mount-allowed-626", before)?;
    let at = store.mount(Depth::Quick, &NO_BIT, &NO_FATES, 627);
    show(rt, "quick-mount-allowed-627", at)?;
    let silent = store.mount(Depth::Quick, &NO_BIT, &[256], UNCUT);
    show(rt, "quick-mount-busy-256", silent)
}

// The chip just formatted, with one copy, and with a copy in every block but the table's.
pub(crate) fn show_mounts(rt: &impl Print) -> io::Result<()> {
    let formatted = writes::formatted();
    show_both(rt, "mount-formatted", "quick-mount-formatted", formatted)?;
    let one = writes::written(formatted, 0);
    show_both(rt, "mount-one-copy", "quick-mount-one-copy", one)?;
    let every = writes::written(writes::written(one, 0), 0);
    show_both(rt, "mount-full", "quick-mount-full", every)?;
    show_stopped(rt, formatted)
}
