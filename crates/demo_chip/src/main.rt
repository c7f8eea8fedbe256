// Shows the chip at work: address bytes of the largest part, status bytes, then a reset, an erase, a program and a read of the
// small chip, and the same with its write-protect line low.
#![tactic(auto)]

use bus::Bus;
use bus_polling::{Done, Outcome};
use chip_interface::Interface;
use geometry::Geometry;
use std::{fmt, io};

// How an operation ended, as it is printed.
#[derive(Clone, Copy)]
struct Word(Outcome);

impl fmt::Display for Word {
    fn fmt<W: fmt::Write>(&self, f: &mut fmt::Formatter<W>) -> fmt::Result {
        f.write_str(match self.0 {
            Outcome::Passed => "passed",
            Outcome::Failed => "failed",
            Outcome::Silent => "silent",
            Outcome::Cut => "cut",
            Outcome::Illegal => "illegal",
            Outcome::Protected => "protected",
        })
    }
}

// The three row bytes of a page, low byte first.
fn print_row(rt: &impl Print, row: usize) -> io::Result<()> {
    let bytes = row.to_le_bytes();
    println!(rt; "row {:02x} {:02x} {:02x}", bytes[0], bytes[1], bytes[2])
}

// The two bytes of a column, low byte first.
fn print_column(rt: &impl Print, column: usize) -> io::Result<()> {
    let bytes = column.to_le_bytes();
    println!(rt; "column {:02x} {:02x}", bytes[0], bytes[1])
}

fn show_addresses(rt: &impl Print) -> io::Result<()> {
    let part = Geometry {
        main: 2048,
        spare: 128,
        pages: 64,
        blocks: 4096,
        logical: 4094,
    };
    print_row(rt, geometry::row_of(part, 1023, 63))?;
    print_row(rt, geometry::row_of(part, 1024, 0))?;
    print_row(rt, geometry::row_of(part, 4095, 63))?;
    print_column(rt, 2048)
}

// A status byte with the write-protect line high, and with it low.
fn print_status(rt: &impl Print, label: &str, ready: usize, failed: usize) -> io::Result<()> {
    let high = chip_interface::status_byte(0, ready, failed);
    let low = chip_interface::status_byte(1, ready, failed);
    println!(rt; "{label} {high:02x} {low:02x}")
}

fn show_status_bytes(rt: &impl Print) -> io::Result<()> {
    print_status(rt, "status busy", 0, 0)?;
    print_status(rt, "status ready", 1, 0)?;
    print_status(rt, "status failed", 1, 1)
}

fn small() -> Geometry {
    Geometry {
        main: 32,
        spare: 16,
        pages: 4,
        blocks: 4,
        logical: 2,
    }
}

// The small chip as its operations leave it, and what is fated to them.
#[derive(Drop)]
struct Chip<'a> {
    bus: Bus,
    array: [u8; 768],
    register: [u8; 48],
    history: [u8; 4],
    mask: [u8; 192],
    fates: &'a [u32],
}

impl<'a> Chip<'a> {
    // A chip filled with a byte, whose write-protect line is low at 1 and high at 0.
    fn new(line: usize, byte: u8, fates: &'a [u32]) -> Chip<'a> {
        let mut interface = Interface::power_on();
        interface.protected = line;
        Chip {
            bus: Bus::new(interface, 10000),
            array: [byte; 768],
            register: [0xff; 48],
            history: [0; 4],
            mask: [0; 192],
            fates,
        }
    }

    // Prints how an operation ended.
    fn show(&mut self, rt: &impl Print, label: &str, done: Done) -> io::Result<()> {
        self.bus = done.bus;
        println!(rt;
            "{label} {}, cycles left {}",
            Word(done.outcome),
            self.bus.left
        )
    }

    fn reset(&mut self, rt: &impl Print, label: &str) -> io::Result<()> {
        let done = operations::reset(
            self.bus,
            small(),
            &mut self.array,
            &mut self.register,
            &mut self.history,
            &self.mask,
            self.fates,
        );
        self.show(
            rt,
            label,
            Done {
                bus: done.bus,
                outcome: done.outcome,
            },
        )
    }

    fn read_status(&mut self, rt: &impl Print, label: &str) -> io::Result<()> {
        let done = operations::read_status(
            self.bus,
            small(),
            &mut self.array,
            &mut self.register,
            &mut self.history,
            &self.mask,
            self.fates,
        );
        self.show(rt, label, done)
    }

    fn erase_block_1(&mut self, rt: &impl Print, label: &str) -> io::Result<()> {
        let done = operations::erase(
            self.bus,
            small(),
            &mut self.array,
            &mut self.register,
            &mut self.history,
            &self.mask,
            self.fates,
            4,
        );
        self.show(rt, label, done)
    }

    fn program_row(&mut self, rt: &impl Print, label: &str, row: usize) -> io::Result<()> {
        let done = operations::program(
            self.bus,
            small(),
            &mut self.array,
            &mut self.register,
            &mut self.history,
            &self.mask,
            self.fates,
            row,
            &[0xa5; 48],
        );
        self.show(rt, label, done)
    }

    fn read_row_4(&mut self, rt: &impl Print, label: &str) -> io::Result<()> {
        let mut buffer = [0u8; 48];
        let done = operations::read(
            self.bus,
            small(),
            &mut self.array,
            &mut self.register,
            &mut self.history,
            &self.mask,
            self.fates,
            4,
            0,
            &mut buffer,
        );
        self.show(rt, label, done)?;
        println!(rt; "its first byte {:02x}", buffer[0])
    }

    // One status read more after an operation.
    fn read_again(&mut self, rt: &impl Print) -> io::Result<()> {
        let out = bus::status(
            self.bus,
            small(),
            &mut self.array,
            &self.register,
            &mut self.history,
        );
        self.bus = out.bus;
        println!(rt; "its status {:02x}", out.byte)
    }
}

fn show_operations(rt: &impl Print) -> io::Result<()> {
    let fates = [0, 0, 65536, 255, 256];
    let mut chip = Chip::new(0, 0xff, &fates);
    chip.reset(rt, "reset")?;
    chip.erase_block_1(rt, "erase block 1")?;
    chip.program_row(rt, "program page 0 of it", 4)?;
    chip.program_row(rt, "program page 1, fated to fail", 5)?;
    chip.read_row_4(rt, "read page 0, 255 times busy")?;
    chip.erase_block_1(rt, "erase block 1, 256 times busy")
}

// The line is low: D0h and 10h start nothing, and the answer is neither passed nor failed.
fn show_protected(rt: &impl Print) -> io::Result<()> {
    let mut chip = Chip::new(1, 0x3c, &[]);
    chip.reset(rt, "reset, line low")?;
    chip.read_status(rt, "status, line low")?;
    chip.read_again(rt)?;
    chip.erase_block_1(rt, "erase block 1, line low")?;
    chip.read_again(rt)?;
    chip.program_row(rt, "program page 0 of it, line low", 4)?;
    chip.read_again(rt)?;
    chip.read_row_4(rt, "read page 0, line low")
}

fn main(rt: HostRuntime) -> io::Result<()> {
    show_addresses(&rt)?;
    show_status_bytes(&rt)?;
    show_operations(&rt)?;
    show_protected(&rt)
}
