// A power-cut sweep: a write cut at every cycle with several masks, then a mount, a quick mount and a reading after each; a formatting
// cut at every cycle, then a mount and another formatting; and lists of calls.
#![tactic(auto)]

mod cuts;
mod formattings;
mod lists;

use std::io;

// A cut operation takes effect in no bit, or in every one.
pub(crate) const NO_BIT: [u8; 192] = [0; 192];

pub(crate) const EVERY_BIT: [u8; 192] = [0xff; 192];

// Every operation passes without a busy status read.
pub(crate) const NO_FATES: [u32; 0] = [];

// A mask of pseudo-random bytes.
fn fill_random(mask: &mut [u8]) {
    let mut word: u64 = 1;
    for byte in mask.iter_mut() {
        word = (word * 75 + 74) % 65537;
        *byte = (word % 256) as u8;
    }
}

// Sweeps a write into a block with each mask, after older copies, and answers whether each run gave old or new.
fn sweep_masks(rt: &impl Print, label: &str, older: usize, block: usize) -> io::Result<bool> {
    let mut clean = true;
    for &(name, byte) in &[
        ("00", 0u8),
        ("ff", 0xff),
        ("fe", 0xfe),
        ("55", 0x55),
        ("aa", 0xaa),
    ] {
        clean &= cuts::sweep(rt, label, name, older, block, &[byte; 192])?;
    }
    let mut random = [0u8; 192];
    fill_random(&mut random);
    clean &= cuts::sweep(rt, label, "random", older, block, &random)?;
    Ok(clean)
}

// The table is in block 0, and copies take blocks 1, 2 and 3 in turn: the write that is cut goes to block 2, which is
// erased, or after two older copies to block 1, which holds one of them.
fn sweep_writes(rt: &impl Print) -> io::Result<()> {
    let fresh = sweep_masks(rt, "erased", 0, 2)?;
    let reused = sweep_masks(rt, "reused", 2, 1)?;
    if fresh && reused {
        println!(rt; "none was anything else, by a mount or by a quick mount")?;
    }
    Ok(())
}

fn sweep_formattings(rt: &impl Print) -> io::Result<()> {
    if formattings::sweep_both(rt)? {
        println!(rt; "no entry was lost, by the formatting or by another one after it")?;
    }
    Ok(())
}

fn show_lists(rt: &impl Print) -> io::Result<()> {
    lists::show(rt, "survives:", b"AbM")?;
    lists::show(rt, "is lost:", b"AcM")?;
    lists::show(rt, "changes no byte:", b"AaM")?;
    lists::show(rt, "cut read:", b"ArBM")?;
    lists::show(rt, "refused calls:", b"AXbNXM")?;
    lists::show(rt, "silent mount:", b"AbSM")?;
    lists::show(rt, "quick mount, survives:", b"AbQ")?;
    lists::show(rt, "quick mount, is lost:", b"AcQ")?;
    lists::show(rt, "both:", b"AbQAcMbQ")?;
    lists::show(rt, "protected:", b"APpM")?;
    lists::show(rt, "protected, then released:", b"APBM")
}

fn main(rt: HostRuntime) -> io::Result<()> {
    sweep_writes(&rt)?;
    sweep_formattings(&rt)?;
    show_lists(&rt)
}
