// The dearest writes of the small chip. For each number of failed fills: the answer of the call that tells them, how many words there are,
// the cycles, and the words; then, with those words, the write of each page over an old copy: answer, cycles and free blocks.
#![tactic(auto)]

use demo_store::{Store, UNCUT};
use geometry::Geometry;
use std::io;

// The small chip, with so many blocks.
fn small(blocks: usize) -> Geometry {
    Geometry {
        main: 32,
        spare: 16,
        pages: 4,
        blocks,
        logical: 2,
    }
}

fn print_words(rt: &impl Print, words: &[u32]) -> io::Result<()> {
    print!(rt; "  words")?;
    for word in words {
        print!(rt; " {word:05x}")?;
    }
    println!(rt)
}

// Asks for the words and prints what the call tells.
fn ask(
    rt: &impl Print,
    label: &str,
    blocks: usize,
    failed: usize,
    words: &mut [u32],
) -> io::Result<()> {
    let told = dearest::dearest_write(small(blocks), failed, words);
    let count = words.len();
    match told {
        Ok(cycles) => println!(rt; "{label} {failed} 0 {count} {cycles}")?,
        Err(refusal) => println!(rt; "{label} {failed} {} {count} 0", refusal.number())?,
    }
    print_words(rt, words)
}

// Formats the chip, writes a page of logical block 0, then another one, or the same, with these words.
fn write_over(rt: &impl Print, words: &[u32], page: usize) -> io::Result<()> {
    let mask = [0u8; 192];
    let none = [0u32; 0];
    let formatted = Store::new(2).format(&mask, &none, UNCUT);
    let first = formatted.store.write(&mask, &none, UNCUT, 0, 0, 0xa5);
    let dearest = first.store.write(&mask, words, UNCUT, 0, page, 0x5a);
    print!(rt; "  page {page} ")?;
    bench_requests::print(rt, bench_requests::figures_of(dearest))?;
    Ok(())
}

fn write_pages(rt: &impl Print, words: &[u32]) -> io::Result<()> {
    for page in 0..4 {
        write_over(rt, words, page)?;
    }
    Ok(())
}

fn show_none(rt: &impl Print) -> io::Result<()> {
    let mut words = [0u32; 8];
    ask(rt, "failed", 4, 0, &mut words)?;
    write_pages(rt, &words)
}

fn show_one(rt: &impl Print) -> io::Result<()> {
    let mut words = [0u32; 21];
    ask(rt, "failed", 4, 1, &mut words)?;
    write_pages(rt, &words)
}

fn main(rt: HostRuntime) -> io::Result<()> {
    show_none(&rt)?;
    show_one(&rt)?;
    ask(&rt, "five-blocks", 5, 2, &mut [0u32; 29])?;
    ask(&rt, "six-blocks", 6, 3, &mut [0u32; 37])?;
    ask(&rt, "three-blocks", 3, 2, &mut [7u32; 1])?;
    ask(&rt, "too-many", 4, 2, &mut [7u32; 1])?;
    ask(&rt, "other-length", 4, 1, &mut [7u32; 20])
}
