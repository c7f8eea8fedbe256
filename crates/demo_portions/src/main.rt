// A write in portions of one page: the cycles of each, what a display reads between them, and what a mount finds where an advance is cut at any
// of its cycles, with several masks.
#![tactic(auto)]

use demo_store::{Depth, Store, UNCUT};
use open_write::OpenWrite;
use request::Returned;
use std::{fmt, io};

// What page 0 of logical block 0 holds before the write, and what the write puts there.
const OLD: u8 = 0xa5;

const NEW: u8 = 0x5a;

// A fate word that fails its operation.
const FAILS: u32 = 65536;

// No bit of an operation that is cut takes effect, and every operation passes without a busy status read.
const NO_BIT: [u8; 192] = [0; 192];

const NO_FATES: [u32; 0] = [];

// The small chip with the store on it, and the write that is open.
#[derive(Clone, Copy)]
struct Portioned {
    store: Store,
    write: OpenWrite,
    kept: [u8; 4096],
}

// How an opening or an advance ended.
#[derive(Clone, Copy)]
struct Stepped {
    answer: usize,
    sent: usize,
    finished: usize,
    next: Portioned,
}

// What a request returned and left of the chip, put together.
fn put_together(
    store: Store,
    returned: Returned,
    write: OpenWrite,
    kept: [u8; 4096],
    finished: usize,
) -> Stepped {
    let ended = store.ended(returned);
    Stepped {
        answer: ended.answer,
        sent: ended.sent,
        finished,
        next: Portioned {
            store: ended.store,
            write,
            kept,
        },
    }
}

// Opens a write of page 0 of logical block 0.
fn opened(mut store: Store) -> Stepped {
    let mut kept = [0u8; 4096];
    let r = open_requests::open(
        store.state,
        OpenWrite::none(),
        &mut kept,
        store.geometry,
        store.interface,
        &mut store.array,
        &mut store.register,
        &mut store.history,
        &NO_BIT,
        &NO_FATES,
        UNCUT,
        0,
        0,
        &[NEW; 32],
    );
    put_together(store, r.returned, r.write, kept, 0)
}

impl Portioned {
    // Advances the write by one page program.
    fn advanced(self, mask: &[u8], fates: &[u32], allowed: u32) -> Stepped {
        let Portioned {
            mut store,
            write,
            mut kept,
        } = self;
        let r = open_requests::advance(
            store.state,
            write,
            &mut kept,
            store.geometry,
            store.interface,
            &mut store.array,
            &mut store.register,
            &mut store.history,
            mask,
            fates,
            allowed,
            1,
        );
        put_together(store, r.returned, r.write, kept, r.finished)
    }
}

// The first byte of page 0 of logical block 0, none if the read was refused.
fn shown(store: Store) -> Option<u8> {
    let read = store.read(&NO_BIT, &NO_FATES, UNCUT, 0, 0);
    (read.ended.answer == 0).then_some(read.page[0])
}

// A chip with a page written, so many times.
fn prepare(times: usize) -> Store {
    let mut store = Store::new(2).format(&NO_BIT, &NO_FATES, UNCUT).store;
    for _ in 0..times {
        store = store.write(&NO_BIT, &NO_FATES, UNCUT, 0, 0, OLD).store;
    }
    store
}

// Answer, cycles, whether it is finished, and what the display reads then, 256 if that was refused.
fn print_step(rt: &impl Print, step: Stepped) -> io::Result<()> {
    println!(rt;
        "{} {} {}, page 0 shows {}",
        step.answer,
        step.sent,
        step.finished,
        shown(step.next.store).map_or(256, usize::from)
    )
}

// A write in portions, whose advance number `place`, if there is one, has these fates, and the others pass.
fn show(
    rt: &impl Print,
    label: &str,
    store: Store,
    place: Option<usize>,
    fates: &[u32],
) -> io::Result<()> {
    println!(rt; "{label}")?;
    let first = opened(store);
    print_step(rt, first)?;
    let mut at = first.next;
    for k in 0..16 {
        let step = at.advanced(
            &NO_BIT,
            if place == Some(k) { fates } else { &NO_FATES },
            UNCUT,
        );
        print_step(rt, step)?;
        if step.finished != 0 {
            return Ok(());
        }
        at = step.next;
    }
    Ok(())
}

// What mounts find after cuts: the old page, the new one, anything else.
#[derive(Clone, Copy)]
struct Found {
    old: bool,
    new: bool,
    other: bool,
}

impl fmt::Display for Found {
    fn fmt<W: fmt::Write>(&self, f: &mut fmt::Formatter<W>) -> fmt::Result {
        f.write_str(match (self.old, self.new, self.other) {
            (true, false, false) => "old",
            (false, true, false) => "new",
            (true, true, false) => "old or new",
            _ => "something else",
        })
    }
}

// All that mounts find where an advance is cut at each of its cycles.
fn cut_everywhere(from: Portioned, mask: &[u8], cycles: u32) -> Found {
    let mut found = Found {
        old: false,
        new: false,
        other: false,
    };
    for allowed in 0..cycles {
        let left = from.advanced(mask, &NO_FATES, allowed).next.store;
        let mounted = left.mount(Depth::Full, &NO_BIT, &NO_FATES, UNCUT);
        match shown(mounted.store) {
            Some(OLD) => found.old = true,
            Some(NEW) => found.new = true,
            _ => found.other = true,
        }
    }
    found
}

// The cycles of an advance over a copy.
fn cycles_of(k: usize) -> u32 {
    if k == 0 { 64 } else { 99 }
}

// Each advance of a write over a copy, cut at every cycle.
fn sweep(rt: &impl Print, name: &str, mask: &[u8]) -> io::Result<()> {
    let mut at = opened(prepare(1)).next;
    for k in 0..4 {
        let found = cut_everywhere(at, mask, cycles_of(k));
        println!(rt; "mask {name}, advance {k} cut at any cycle: {found}")?;
        at = at.advanced(mask, &NO_FATES, UNCUT).next;
    }
    Ok(())
}

fn main(rt: HostRuntime) -> io::Result<()> {
    show(&rt, "without a copy", prepare(0), None, &NO_FATES)?;
    show(&rt, "over a copy", prepare(1), None, &NO_FATES)?;
    show(&rt, "the first erase fails", prepare(1), Some(0), &[FAILS])?;
    show(
        &rt,
        "the third page fails",
        prepare(1),
        Some(2),
        &[0, FAILS],
    )?;
    for &(name, byte) in &[
        ("00", 0u8),
        ("ff", 0xff),
        ("fe", 0xfe),
        ("55", 0x55),
        ("aa", 0xaa),
    ] {
        sweep(&rt, name, &[byte; 192])?;
    }
    Ok(())
}
