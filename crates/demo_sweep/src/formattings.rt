// A formatting of a chip whose table lists two blocks, cut at every cycle: which table is current then, and what it lists.
ghost use Rattle.std.specs.Prelude.{◌≤◌};

use crate::{NO_BIT, NO_FATES};
use chip_interface::Interface;
use demo_store::{Depth, UNCUT};
use geometry::Geometry;
use request::Returned;
use state::State;
use std::{fmt, io};

// The old table, the first new one, and the blocks that the old one lists.
const OLD_TABLE: usize = 0;

const NEW_TABLE: usize = 2;

const WORN: usize = 1;

const WORN_TOO: usize = 4;

// Their bits.
const LISTED: u8 = 18;

// A fate word of an operation that fails.
const FAILS: u32 = 65536;

// A chip of six blocks, and the state of the store on it.
#[derive(Clone, Copy)]
struct Chip {
    state: State,
    interface: Interface,
    array: [u8; 1152],
    register: [u8; 48],
    history: [u8; 6],
}

// How a call ended, and the chip that it left.
#[derive(Clone, Copy)]
struct Done {
    answer: usize,
    chip: Chip,
}

// The blocks that a table lists, a bit for each.
#[derive(Clone, Copy, PartialEq, Eq)]
struct Listed(u8);

impl fmt::Display for Listed {
    fn fmt<W: fmt::Write>(&self, f: &mut fmt::Formatter<W>) -> fmt::Result {
        for block in 0..6u8 {
            if (self.0 >> block) & 1 == 1 {
                write!(f, " {block}")?;
            }
        }
        Ok(())
    }
}

// The pages programmed since a block was erased; 255 where its erase did not pass.
#[derive(Clone, Copy, PartialEq, Eq)]
struct Pages(u8);

impl fmt::Display for Pages {
    fn fmt<W: fmt::Write>(&self, f: &mut fmt::Formatter<W>) -> fmt::Result {
        match self.0 {
            255 => write!(f, "not erased"),
            pages => write!(f, "{pages} pages"),
        }
    }
}

// What a mount finds after the cut: the block of the current table and the blocks that it lists; how many pages of the old table's block and
// of the new one's are programmed.
#[derive(Clone, Copy, PartialEq, Eq)]
struct Seen {
    table: usize,
    list: Listed,
    old: Pages,
    new: Pages,
}

impl fmt::Display for Seen {
    fn fmt<W: fmt::Write>(&self, f: &mut fmt::Formatter<W>) -> fmt::Result {
        write!(
            f,
            "table {} lists{}, block 0 {}, block 2 {}",
            self.table, self.list, self.old, self.new
        )
    }
}

fn sizes(logical: usize) -> Geometry {
    Geometry {
        main: 32,
        spare: 16,
        pages: 4,
        blocks: 6,
        logical,
    }
}

impl Chip {
    fn new() -> Chip {
        Chip {
            state: State::blank(0),
            interface: Interface::power_on(),
            array: [0xff; 1152],
            register: [0xff; 48],
            history: [0; 6],
        }
    }

    // The chip as a request left it, put together with what it returned.
    fn done(self, returned: Returned) -> Done {
        Done {
            answer: returned.answer,
            chip: Chip {
                state: returned.state,
                interface: returned.interface,
                ..self
            },
        }
    }

    fn format(mut self, logical: usize, mask: &[u8], fates: &[u32], allowed: u32) -> Done {
        let returned = format::format(
            self.state,
            sizes(logical),
            self.interface,
            &mut self.array,
            &mut self.register,
            &mut self.history,
            mask,
            fates,
            allowed,
        );
        self.done(returned)
    }

    fn mount(mut self, mask: &[u8]) -> Done {
        let returned = mount::mount(
            Depth::Full,
            self.state,
            sizes(2),
            self.interface,
            &mut self.array,
            &mut self.register,
            &mut self.history,
            mask,
            &NO_FATES,
            UNCUT,
        );
        self.done(returned)
    }

    // Writes a page; the first program fails, and half of its bits take effect.
    fn wear(mut self) -> Chip {
        let returned = write::write(
            self.state,
            sizes(2),
            self.interface,
            &mut self.array,
            &mut self.register,
            &mut self.history,
            &[0x55; 192],
            &[0, FAILS],
            UNCUT,
            0,
            0,
            &[0xa5; 32],
        );
        self.done(returned).chip
    }
}

// A formatting puts its table into block 0. The first write fails in block 1, fills 2 and puts a table into 3; the second fails in block 4, fills 5 and
// puts a table into 0.
fn prepare() -> Chip {
    let formatted = Chip::new().format(2, &NO_BIT, &NO_FATES, UNCUT);
    formatted.chip.wear().wear()
}

// Whether a block holds what it held before.
fn is_same(before: &[u8; 1152], array: &[u8; 1152], block: usize) -> bool {
    if 5 < block {
        return false;
    }
    let start = block * 192;
    array[start..start + 192] == before[start..start + 192]
}

// Whether an entry was lost or a listed block changed.
fn is_lost(was: &[u8; 1152], done: Done) -> bool {
    done.answer != 0
        || done.chip.state.invalid[0] & LISTED != LISTED
        || !is_same(was, &done.chip.array, WORN)
        || !is_same(was, &done.chip.array, WORN_TOO)
}

// The fates and the mask of the runs of a sweep, and how they are called.
#[derive(Clone, Copy)]
struct Sweep<'a> {
    label: &'a str,
    name: &'a str,
    fates: &'a [u32],
    mask: &'a [u8],
}

impl<'a> Sweep<'a> {
    // One run: the formatting is cut at a cycle, and the chip is mounted. What it finds, and whether an entry was lost.
    fn cut_at(self, before: Chip, allowed: u32) -> (Seen, bool) {
        let cut = before.format(2, self.mask, self.fates, allowed);
        let mounted = cut.chip.mount(self.mask);
        let chip = mounted.chip;
        let seen = Seen {
            table: chip.state.table,
            list: Listed(chip.state.invalid[0]),
            old: Pages(chip.history[OLD_TABLE]),
            new: Pages(chip.history[NEW_TABLE]),
        };
        (seen, is_lost(&before.array, mounted))
    }

    // Whether an entry was lost by another formatting, for one logical block, in the place of the mount.
    fn is_lost_again(self, before: Chip, allowed: u32) -> bool {
        let cut = before.format(2, self.mask, self.fates, allowed);
        let again = cut.chip.format(1, self.mask, &NO_FATES, UNCUT);
        is_lost(&before.array, again)
    }

    // Prints the cycle from which the runs see the same.
    fn show_from(self, rt: &impl Print, allowed: u32, seen: Seen) -> io::Result<()> {
        println!(rt;
            "{}, mask {}, from {allowed}: {seen}",
            self.label, self.name
        )
    }

    // Cuts the formatting at every cycle from the first one given to its last, and answers whether no run lost an entry. A run that found
    // anything new is printed, and its chip formatted again.
    fn run(self, rt: &impl Print, first: u32, last: u32) -> io::Result<bool>
        requires last_bound { last ≤ 1895 }
        requires first_le_last { first ≤ last }
    {
        let mut old = 0u32;
        let mut new = 0u32;
        let mut losing = 0;
        let mut shown = None;
        let before = prepare();
        for allowed in first..=last {
            let (seen, mut lost) = self.cut_at(before, allowed);
            if shown != Some(seen) {
                self.show_from(rt, allowed, seen)?;
                lost |= self.is_lost_again(before, allowed);
            }
            shown = Some(seen);
            losing += usize::from(lost);
            if seen.table == OLD_TABLE {
                old += 1;
            } else {
                new += 1;
            }
        }
        println!(rt;
            "{}, mask {}: {old} by the old table, {new} by a new one, {losing} lost an entry",
            self.label, self.name
        )?;
        Ok(losing == 0)
    }
}

fn sweep_masks(
    rt: &impl Print,
    label: &str,
    fates: &[u32],
    first: u32,
    last: u32,
) -> io::Result<bool>
    requires last_bound { last ≤ 1895 }
    requires first_le_last { first ≤ last }
{
    let mut kept = true;
    for &(name, byte) in &[("00", 0u8), ("ff", 0xff), ("55", 0x55)] {
        let mask = [byte; 192];
        let sweep = Sweep {
            label,
            name,
            fates,
            mask: &mask,
        };
        kept &= sweep.run(rt, first, last)?;
    }
    Ok(kept)
}

// A formatting whose operations all pass; and, from its last erase on, that of the old table's block after 24 reads, 3 erases and a fill, one in which this
// erase fails, so that another table follows. Answers whether no run lost an entry.
pub(crate) fn sweep_both(rt: &impl Print) -> io::Result<bool> {
    let passing = sweep_masks(rt, "formatting", &NO_FATES, 0, 1660)?;
    let mut fates = [0u32; 33];
    fates[32] = FAILS;
    let failing = sweep_masks(rt, "last erase fails", &fates, 1653, 1895)?;
    Ok(passing && failing)
}
