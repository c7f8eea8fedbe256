// Lets the small chip tell its size from parameter pages good and bad: a word for each case, then answer, cycles sent, and
// main bytes, spare bytes, pages and blocks; before that the CRC of no byte, of 254 bytes 00h and of 254 bytes FFh.
#![tactic(auto)]

mod page;

use chip_interface::Interface;
use identify::Identified;
use state::State;
use std::io;

// The allowance that cuts nothing.
const UNCUT: u32 = 4294967295;

fn show_crc(rt: &impl Print, label: &str, bytes: &[u8]) -> io::Result<()> {
    println!(rt; "{label} {:04x}", parameters::crc(bytes))
}

fn show(rt: &impl Print, label: &str, done: Identified) -> io::Result<()> {
    println!(rt;
        "{label} {} {} {} {} {} {}",
        done.returned.answer,
        done.returned.sent,
        done.sizes.main,
        done.sizes.spare,
        done.sizes.pages,
        done.sizes.blocks
    )
}

// Asks a new chip, whose write-protect line is low at 1 and high at 0.
fn ask_on(
    rt: &impl Print,
    line: usize,
    label: &str,
    parameters: &[u8],
    fates: &[u32],
    allowed: u32,
) -> io::Result<()> {
    let mask = [0u8; 192];
    let mut interface = Interface::power_on();
    interface.protected = line;
    let mut array = [0xffu8; 768];
    let mut register = [0xffu8; 48];
    let mut history = [0u8; 4];
    let done = identify::identify(
        State::blank(0),
        interface,
        &mut array,
        &mut register,
        &mut history,
        &mask,
        fates,
        allowed,
        parameters,
        2,
    );
    show(rt, label, done)
}

// A page whose first copy is the small chip's, and the others of a chip with more blocks.
fn good() -> [u8; 768] {
    let other = page::copy_of(32, 8);
    page::three(page::copy_of(32, 4), other, other)
}

// Asks with a whole page.
fn ask(
    rt: &impl Print,
    label: &str,
    page: [u8; 768],
    fates: &[u32],
    allowed: u32,
) -> io::Result<()> {
    ask_on(rt, 0, label, &page, fates, allowed)
}

// Asks with a whole page while the line is low.
fn ask_protected(rt: &impl Print, label: &str, page: [u8; 768], fates: &[u32]) -> io::Result<()> {
    ask_on(rt, 1, label, &page, fates, UNCUT)
}

fn show_crcs(rt: &impl Print) -> io::Result<()> {
    show_crc(rt, "crc-of-none", &[0u8; 0])?;
    show_crc(rt, "crc-of-zeros", &[0u8; 254])?;
    show_crc(rt, "crc-of-ones", &[0xffu8; 254])
}

// Three copies, good and bad.
fn show_pages(rt: &impl Print) -> io::Result<()> {
    let none = [0u32; 0];
    let small = page::copy_of(32, 4);
    let other = page::copy_of(32, 8);
    let bad = page::bit_wrong(small);
    let unsigned = page::starting_otherwise();
    let narrow = page::copy_of(31, 4);
    let first_bad = page::three(bad, other, small);
    let first_unsigned = page::three(unsigned, other, small);
    let third_good = page::three(bad, bad, small);
    let all_bad = page::three(bad, bad, bad);
    let too_narrow = page::three(narrow, small, small);
    ask(rt, "good", good(), &none, UNCUT)?;
    ask(rt, "first-one-bit-wrong", first_bad, &none, UNCUT)?;
    ask(rt, "first-starts-otherwise", first_unsigned, &none, UNCUT)?;
    ask(rt, "third-alone-good", third_good, &none, UNCUT)?;
    ask(rt, "three-bad", all_bad, &none, UNCUT)?;
    ask(rt, "outside-limits", too_narrow, &none, UNCUT)?;
    ask_on(rt, 0, "767-bytes", &[0x4f; 767], &none, UNCUT)
}

// A good page, asked for as the chip is busy, as power is cut, and with the line low.
fn show_calls(rt: &impl Print) -> io::Result<()> {
    let none = [0u32; 0];
    ask(rt, "busy-255", good(), &[255], UNCUT)?;
    ask(rt, "busy-256", good(), &[256], UNCUT)?;
    ask(rt, "allowed-775", good(), &none, 775)?;
    ask(rt, "allowed-776", good(), &none, 776)?;
    ask_protected(rt, "write-protected", good(), &none)
}

fn main(rt: HostRuntime) -> io::Result<()> {
    show_crcs(&rt)?;
    show_pages(&rt)?;
    show_calls(&rt)
}
