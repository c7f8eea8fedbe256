// Lists of calls with cuts, refusals and a protected chip between them, and what a read then gives.
use crate::{EVERY_BIT, NO_BIT, NO_FATES};
use demo_store::{Depth, Ended, Store, UNCUT};
use std::io;

// A write to page 0 of a logical block.
fn write(store: Store, allowed: u32, block: usize, byte: u8) -> Ended {
    store.write(&EVERY_BIT, &NO_FATES, allowed, block, 0, byte)
}

// A call is a letter: A writes A5h and B 5Ah to page 0 of logical block 0; a and b are A and B cut after the last confirm
// cycle, and c is B cut before; P is B with the write-protect line low, p a mount with it low; X writes to logical block 2, r
// is a read that is cut; M mounts, Q quickly, N with a mask that is too short, S with 256
// busy reads.
fn perform(mut store: Store, call: u8) -> Ended {
    store.interface.protected = usize::from(matches!(call, b'P' | b'p'));
    match call {
        b'A' => write(store, UNCUT, 0, 0xa5),
        b'a' => write(store, 362, 0, 0xa5),
        b'b' => write(store, 362, 0, 0x5a),
        b'c' => write(store, 200, 0, 0x5a),
        b'X' => write(store, UNCUT, 2, 0x5a),
        b'M' | b'p' => store.mount(Depth::Full, &EVERY_BIT, &NO_FATES, UNCUT),
        b'Q' => store.mount(Depth::Quick, &EVERY_BIT, &NO_FATES, UNCUT),
        b'N' => store.mount(Depth::Full, &[0xff; 191], &NO_FATES, UNCUT),
        b'S' => store.mount(Depth::Full, &EVERY_BIT, &[256], UNCUT),
        b'r' => store.read(&EVERY_BIT, &NO_FATES, 20, 0, 0).ended,
        _ => write(store, UNCUT, 0, 0x5a),
    }
}

// Performs the calls on a new chip once it is formatted, and prints each with its answer.
fn perform_all(rt: &impl Print, calls: &[u8]) -> io::Result<Store> {
    let mut store = Store::new(2).format(&NO_BIT, &NO_FATES, UNCUT).store;
    for &call in calls {
        let ended = perform(store, call);
        print!(rt; " {} {},", char::from(call), ended.answer)?;
        store = ended.store;
    }
    Ok(store)
}

// Performs the calls, and prints the first byte that a read of the page then gives.
pub(crate) fn show(rt: &impl Print, label: &str, calls: &[u8]) -> io::Result<()> {
    print!(rt; "{label}")?;
    let store = perform_all(rt, calls)?;
    let read = store.read(&NO_BIT, &NO_FATES, UNCUT, 0, 0);
    println!(rt; " reads {:02x}", read.page[0])
}
