// A write over an old copy, cut at every cycle: what comes back, and what the block being filled holds.
use crate::{NO_BIT, NO_FATES};
use demo_store::{Depth, Store, UNCUT};
use state::State;
use std::{fmt, io};

// What the old copy has in page 0.
const OLD: u8 = 0xa5;

// What the write puts into page 1.
const NEW: u8 = 0x5a;

// What older copies have in page 0.
const OLDER: u8 = 0x11;

// The cycles of the write.
const FULL: u32 = 363;

// What came back.
#[derive(Clone, Copy, PartialEq, Eq)]
enum Reading {
    // Every page as before.
    Old,
    // The written page new, and the others as before.
    New,
    Other,
}

impl fmt::Display for Reading {
    fn fmt<W: fmt::Write>(&self, f: &mut fmt::Formatter<W>) -> fmt::Result {
        f.write_str(match self {
            Reading::Old => "old",
            Reading::New => "new",
            Reading::Other => "other",
        })
    }
}

// What the block being filled holds.
#[derive(Clone, Copy, PartialEq, Eq)]
enum Block {
    // All bytes FFh.
    Erased,
    // What it held before.
    Untouched,
    Filled,
}

#[derive(Clone, Copy, PartialEq, Eq)]
struct Seen {
    reading: Reading,
    block: Block,
}

impl fmt::Display for Seen {
    fn fmt<W: fmt::Write>(&self, f: &mut fmt::Formatter<W>) -> fmt::Result {
        let block = match self.block {
            Block::Erased => "erased",
            Block::Untouched => "untouched",
            Block::Filled if self.reading == Reading::New => "complete",
            Block::Filled => "partly",
        };
        write!(f, "{} {block}", self.reading)
    }
}

// The byte that fills a buffer.
fn only_byte(buffer: &[u8]) -> Option<u8> {
    let &first = buffer.first()?;
    buffer.iter().all(|&byte| byte == first).then_some(first)
}

// The byte that fills page k of all logical pages, none if the read was refused or the page has two different bytes. A read changes
// nothing that a later one depends on, so each starts from the store as the mount left it.
fn page_byte(store: Store, k: usize) -> Option<u8> {
    let read = store.read(&NO_BIT, &NO_FATES, UNCUT, k >> 2, k & 3);
    if read.ended.answer != 0 {
        return None;
    }
    only_byte(&read.page)
}

// What page k is before the write.
fn old_byte(k: usize) -> u8 {
    if k == 0 { OLD } else { 0xff }
}

// What it is after the write.
fn new_byte(k: usize) -> u8 {
    if k == 1 { NEW } else { old_byte(k) }
}

// Reads all logical pages.
fn read_all(store: Store) -> Reading {
    if (0..8).all(|k| page_byte(store, k) == Some(old_byte(k))) {
        return Reading::Old;
    }
    if (0..8).all(|k| page_byte(store, k) == Some(new_byte(k))) {
        return Reading::New;
    }
    Reading::Other
}

// What a block holds.
fn look_at(before: &[u8; 768], array: &[u8; 768], block: usize) -> Block {
    if 3 < block {
        return Block::Filled;
    }
    let start = block * 192;
    let held = &array[start..start + 192];
    if held.iter().all(|&byte| byte == 0xff) {
        return Block::Erased;
    }
    if held == &before[start..start + 192] {
        return Block::Untouched;
    }
    Block::Filled
}

// Writes page 0 of logical block 0.
fn written(store: Store, byte: u8) -> Store {
    store.write(&NO_BIT, &NO_FATES, UNCUT, 0, 0, byte).store
}

// Formats a chip, and writes older copies of logical block 0 and then the old one.
fn prepare(older: usize) -> Store {
    let mut store = Store::new(2).format(&NO_BIT, &NO_FATES, UNCUT).store;
    for _ in 0..older {
        store = written(store, OLDER);
    }
    written(store, OLD)
}

// Whether two mounted states have the same table and the same copies of both logical blocks.
fn is_same(a: State, b: State) -> bool {
    a.table == b.table && a.map[0] == b.map[0] && a.map[1] == b.map[1]
}

// What a mount brings back, and a quick mount alike.
fn mounted_both(left: Store, mask: &[u8]) -> Reading {
    let full = left.mount(Depth::Full, mask, &NO_FATES, UNCUT).store;
    let quick = left.mount(Depth::Quick, mask, &NO_FATES, UNCUT).store;
    let reading = read_all(full);
    if read_all(quick) == reading && is_same(full.state, quick.state) {
        return reading;
    }
    Reading::Other
}

// One run: the write is cut at a cycle, the chip is mounted in full and quickly, and all pages are read.
fn cut_at(before: Store, block: usize, mask: &[u8], allowed: u32) -> Seen {
    let cut = before.write(mask, &NO_FATES, allowed, 0, 1, NEW);
    Seen {
        reading: acknowledged(cut.answer, mounted_both(cut.store, mask)),
        block: look_at(&before.array, &cut.store.array, block),
    }
}

// What came back, where an acknowledged write must be new.
fn acknowledged(answer: usize, reading: Reading) -> Reading {
    if answer == 0 && reading == Reading::Old {
        return Reading::Other;
    }
    reading
}

// Cuts the write at every cycle from 0 to its last, prints the cycles from which the runs see the same, and answers whether each
// run gave old or new.
pub(crate) fn sweep(
    rt: &impl Print,
    label: &str,
    name: &str,
    older: usize,
    block: usize,
    mask: &[u8],
) -> io::Result<bool> {
    let mut old = 0u32;
    let mut new = 0u32;
    let mut other = 0u32;
    let mut shown = None;
    let before = prepare(older);
    for allowed in 0..=FULL {
        let seen = cut_at(before, block, mask, allowed);
        if shown != Some(seen) {
            println!(rt; "{label} block, mask {name}, from {allowed}: {seen}")?;
        }
        shown = Some(seen);
        match seen.reading {
            Reading::Old => old += 1,
            Reading::New => new += 1,
            Reading::Other => other += 1,
        }
    }
    println!(rt; "{label} block, mask {name}: {old} old, {new} new, {other} other")?;
    Ok(other == 0)
}
