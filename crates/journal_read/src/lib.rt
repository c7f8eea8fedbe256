// The journal read through the bus: to its end, and the amounts of the records in force.
#![tactic(auto)]

ghost use Rattle.std.specs.Prelude.{◌≡◌, ℕ, ◌+◌, ◌*◌, ◌≤◌, ◌<◌, length, replicate};
ghost use Rattle.chip_array.specs.Device.{setting};
ghost use Rattle.bus.specs.Line.{line};
ghost use Rattle.operations.specs.Ends.{Lent};
ghost use Rattle.geometry.specs.Limits.{Valid};
ghost use Rattle.journal.specs.Records.{room};
ghost use Rattle.journal_read.specs.Reads.{pages_by};
ghost use Rattle.journal_read.specs.Found.{Mapped, PartRead, Told, Counted, Added, Totalled};

use bus::Bus;
use bus_polling::{Done, Outcome};
use geometry::Geometry;

// The entry of a map for a logical block that has no copy.
const NONE: usize = 65535;

// The most records that a journal can have.
const MOST_RECORDS: usize = 65535;

// Where count and price stand in a record, and where they end.
const AMOUNT: usize = 3;

const AMOUNT_END: usize = 9;

fn wide(x: u16) -> usize
    ensures { result ≡ x }
{
    x as usize
}

// How many records there is room for.
pub fn room_for(g: Geometry) -> usize
    requires { Valid g }
    ensures { result ≡ room g }
{
    let pages = g.logical * g.pages;
    if pages <= MOST_RECORDS {
        return pages;
    }
    MOST_RECORDS
}

// Reads the first bytes of page `k` of the journal's order. A logical block without a copy gives FFh and no cycle.
fn read_part(
    from: Bus,
    g: Geometry,
    array: &mut [u8],
    register: &mut [u8],
    history: &mut [u8],
    mask: &[u8],
    fates: &[u32],
    map: &[u16],
    kinds: &[u8],
    k: usize,
    bytes: &mut [u8],
) -> Done
    requires lent { Lent (setting g mask.now fates.now) (line from array.old register.old history.old) }
    requires mapped { Mapped g map.now kinds.now }
    requires k_bound { k < g.logical * g.pages }
    requires bytes_len_bound { length bytes.old ≤ g.main }
    ensures { PartRead (setting g mask.now fates.now) map.now kinds.now k (length bytes.old) (line from array.old register.old history.old) (line result.bus array.new register.new history.new) result.outcome bytes.new }
{
    let logical = geometry::block_of_row(g, k);
    let block = wide(map[logical]);
    if block == NONE {
        cells::erase_whole(bytes);
        return Done {
            bus: from,
            outcome: Outcome::Passed,
        };
    }
    let page = geometry::page_of_row(g, k);
    let row = geometry::row_of(g, block, page);
    let done = operations::read(
        from, g, array, register, history, mask, fates, row, 0, bytes,
    );
    let outcome = done.outcome;
    let Outcome::Passed = outcome else {
        return done;
    };
    read_page::undo(kinds[logical], page, bytes);
    done
}

// The bus after reads, how the last ended, and how many records there are if all passed.
#[derive(Clone, Copy)]
pub struct End {
    pub bus: Bus,
    pub outcome: Outcome,
    pub records: usize,
}

// Reads the journal to its end through a page buffer, and sets a bit for each record that another replaces.
pub fn find_end(
    from: Bus,
    g: Geometry,
    array: &mut [u8],
    register: &mut [u8],
    history: &mut [u8],
    mask: &[u8],
    fates: &[u32],
    map: &[u16],
    kinds: &[u8],
    page: &mut [u8],
    replaced: &mut [u8],
) -> End
    requires lent { Lent (setting g mask.now fates.now) (line from array.old register.old history.old) }
    requires mapped { Mapped g map.now kinds.now }
    requires page_len { length page.old ≡ g.main }
    requires replaced_value { replaced.old ≡ replicate 8192 0 }
    ensures { Counted (setting g mask.now fates.now) map.now (pages_by g array.old map.now kinds.now) (line from array.old register.old history.old) (line result.bus array.new register.new history.new) result.outcome result.records replaced.new }
{
    let most = room_for(g);
    let mut b = from;
    let mut n: usize = 0;
    while n < most {
        let read = read_part(
            b, g, array, register, history, mask, fates, map, kinds, n, page,
        );
        b = read.bus;
        let outcome = read.outcome;
        let Outcome::Passed = outcome else {
            return End {
                bus: b,
                outcome,
                records: 0,
            };
        };
        if !journal::is_next(page, n) {
            return End {
                bus: b,
                outcome: Outcome::Passed,
                records: n,
            };
        }
        bitmaps::set_bit(replaced, journal::replaces_of(page));
        n += 1;
    }
    End {
        bus: b,
        outcome: Outcome::Passed,
        records: n,
    }
}

// The bus after reads, how the last ended, and the sum if all passed.
#[derive(Clone, Copy)]
pub struct Sum {
    pub bus: Bus,
    pub outcome: Outcome,
    pub sum: u64,
}

// Adds the amount of record `k`, counted from 0, if none replaces it.
fn add_record(
    from: Bus,
    g: Geometry,
    array: &mut [u8],
    register: &mut [u8],
    history: &mut [u8],
    mask: &[u8],
    fates: &[u32],
    map: &[u16],
    kinds: &[u8],
    replaced: &[u8],
    k: usize,
    sum: u64,
) -> Sum
    requires lent { Lent (setting g mask.now fates.now) (line from array.old register.old history.old) }
    requires mapped { Mapped g map.now kinds.now }
    requires replaced_len { length replaced.now ≡ 8192 }
    requires k_bound { k < room g }
    requires sum_bound { sum ≤ k * 281470681677825 }
    ensures by_index { (e : ℕ) → Told (pages_by g array.old map.now kinds.now) e replaced.now → Added (setting g mask.now fates.now) map.now (pages_by g array.old map.now kinds.now) e k (line from array.old register.old history.old) (line result.bus array.new register.new history.new) result.outcome sum result.sum }
    ensures sum_bound_2 { result.sum ≤ (k + 1) * 281470681677825 }
{
    if bitmaps::is_set(replaced, k + 1) {
        return Sum {
            bus: from,
            outcome: Outcome::Passed,
            sum,
        };
    }
    let mut bytes = [0u8; AMOUNT_END];
    let read = read_part(
        from, g, array, register, history, mask, fates, map, kinds, k, &mut bytes,
    );
    let bus = read.bus;
    let outcome = read.outcome;
    let Outcome::Passed = outcome else {
        return Sum {
            bus,
            outcome,
            sum: 0,
        };
    };
    Sum {
        bus,
        outcome: Outcome::Passed,
        sum: sum + journal::amount_of(&bytes[AMOUNT..AMOUNT_END]),
    }
}

// The sum of count times price over so many records, of which `replaced` tells those that another replaces.
pub fn total(
    from: Bus,
    g: Geometry,
    array: &mut [u8],
    register: &mut [u8],
    history: &mut [u8],
    mask: &[u8],
    fates: &[u32],
    map: &[u16],
    kinds: &[u8],
    replaced: &[u8],
    records: usize,
) -> Sum
    requires lent { Lent (setting g mask.now fates.now) (line from array.old register.old history.old) }
    requires mapped { Mapped g map.now kinds.now }
    requires replaced_len { length replaced.now ≡ 8192 }
    requires records_bound { records ≤ room g }
    requires told { Told (pages_by g array.old map.now kinds.now) records replaced.now }
    ensures { Totalled (setting g mask.now fates.now) map.now (pages_by g array.old map.now kinds.now) (line from array.old register.old history.old) (line result.bus array.new register.new history.new) result.outcome records result.sum }
{
    let mut b = from;
    let mut sum: u64 = 0;
    let mut k: usize = 0;
    while k < records {
        let next = add_record(
            b, g, array, register, history, mask, fates, map, kinds, replaced, k, sum,
        );
        b = next.bus;
        let outcome = next.outcome;
        let Outcome::Passed = outcome else {
            return Sum {
                bus: b,
                outcome,
                sum: 0,
            };
        };
        sum = next.sum;
        k += 1;
    }
    Sum {
        bus: b,
        outcome: Outcome::Passed,
        sum,
    }
}
