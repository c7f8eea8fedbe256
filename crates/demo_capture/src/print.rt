// The lines that the program prints.
use std::io;

pub(crate) fn heading(rt: &impl Print, name: &str) -> io::Result<()> {
    println!(rt; "{name}")
}

// A cycle: its number, its kind and its byte.
pub(crate) fn cycle(rt: &impl Print, number: usize, kind: &str, byte: u8) -> io::Result<()> {
    println!(rt; "{number:>4} {kind} {byte:02x}")
}

// A cycle that does not lead to the interface that the request leaves.
pub(crate) fn misfit(rt: &impl Print, number: usize) -> io::Result<()> {
    println!(rt; "{number:>4} does not fit what the request leaves")
}

pub(crate) fn closing(rt: &impl Print, answer: usize, sent: usize) -> io::Result<()> {
    println!(rt; "answer {answer}, {sent} cycles")
}
