// Pages byte by byte: the check, whether a page is whole, its label, and the spare bytes of a new page.
#![tactic(auto)]

ghost use Rattle.std.specs.Prelude.{◌≡◌, ℕ, ◌+◌, ◌-◌, ◌≤◌, ◌<◌, length, get_or, take, drop, replicate, ◌++◌};
ghost use Rattle.std.specs.Int.Count.{ones};
ghost use Rattle.cells.specs.Part.{part, put};
ghost use Rattle.pages.specs.Check.{zero_bits, total};
ghost use Rattle.pages.specs.Layout.{is_data_kind, is_table_kind, is_white_kind, number_width, all_ones, bytes_of, number_of, kind_of, whole, label_of, label, encoded, Sized};

// The kind byte of a data page, whose main bytes are stored whitened, and of a table's, as they are written: the number has eight bytes.
pub const DATA: u8 = 0x6c;

pub const TABLE: u8 = 0x74;

// A data page's whose main bytes are stored as they are, which is read only.
const PLAIN_DATA: u8 = 0x64;

// The same in the layout whose number has four bytes, which is read only too.
const NARROW_DATA: u8 = 0x44;

const NARROW_TABLE: u8 = 0x54;

// The zero bits of a byte.
fn zeros_of(x: u8) -> u8
    ensures { (result ≡ 8 - ones x) × (result ≤ 8) }
{
    8 - x.count_ones() as u8
}

// Adds the zero bits of each byte of a row, eight less its ones, to the count at its place. A count is a byte, so that no byte is
// widened to be counted.
fn add_zeros(counts: &mut [u8; 256], row: &[u8])
    requires row_len { length row.now ≡ 256 }
    requires counts_len { length counts.old ≡ 256 }
    requires by_index { (j : ℕ) → get_or counts.old j 0 ≤ 247 }
    ensures counts_len_2 { length counts.new ≡ 256 }
    ensures counts_after { total counts.new ≡ total counts.old + zero_bits row.now }
    ensures by_index_2 { (j : ℕ) → get_or counts.new j 0 ≤ get_or counts.old j 0 + 8 }
{
    for (i, count) in counts.iter_mut().enumerate() {
        *count += zeros_of(row[i]);
    }
}

// The sum of the counts: the zero bits of a page fit 16 bits.
fn total(counts: &[u8; 256]) -> u16
    requires { length counts.now ≡ 256 }
    ensures { result ≡ total counts.now }
{
    counts.iter().map(|count| u16::from(*count)).sum()
}

// The zero bits of bytes that make no row: eight less the ones of each, summed.
fn rest_zero_bits(bytes: &[u8]) -> u16
    requires { length bytes.now ≤ 255 }
    ensures { result ≡ zero_bits bytes.now }
{
    bytes.iter().map(|byte| u16::from(zeros_of(*byte))).sum()
}

// The zero bits of some bytes: eight less the ones of each, summed by places in rows of 256, then over the places. At most 31 rows
// add to a place, and 31 times eight fit its byte.
pub fn zero_bits(bytes: &[u8]) -> usize
    requires { length bytes.now ≤ 8191 }
    ensures { result ≡ zero_bits bytes.now }
{
    let mut counts = [0; 256];
    let rows = bytes.chunks_exact(256);
    let rest = rest_zero_bits(rows.remainder());
    for row in rows {
        add_zeros(&mut counts, row);
    }
    usize::from(total(&counts)) + usize::from(rest)
}

// Whether every byte is FFh.
pub fn all_ones(bytes: &[u8]) -> bool
    ensures { result ≡ all_ones bytes.now }
{
    bytes.iter().all(|byte| *byte == 255)
}

// Whether a kind is a data page's.
pub fn is_data(kind: usize) -> bool
    ensures { result ≡ is_data_kind kind }
{
    kind == usize::from(NARROW_DATA) || kind == usize::from(PLAIN_DATA) || kind == usize::from(DATA)
}

// Whether main bytes are stored whitened under a kind.
pub fn is_white(kind: u8) -> bool
    ensures { result ≡ is_white_kind kind }
{
    kind == DATA
}

// Whether a kind is a table page's.
pub fn is_table(kind: usize) -> bool
    ensures { result ≡ is_table_kind kind }
{
    kind == usize::from(NARROW_TABLE) || kind == usize::from(TABLE)
}

// The bytes of a page's number; 0 where the byte is no kind.
pub fn number_width(kind: u8) -> usize
    ensures { result ≡ number_width kind }
{
    match kind {
        NARROW_DATA | NARROW_TABLE => 4,
        PLAIN_DATA | DATA | TABLE => 8,
        _ => 0,
    }
}

// The number of at most eight bytes, low byte first.
fn number_in(bytes: &[u8]) -> usize
    requires { length bytes.now ≤ 8 }
    ensures { result ≡ number_of bytes.now }
{
    let mut eight = [0; 8];
    eight[..bytes.len()].copy_from_slice(bytes);
    usize::from_le_bytes(eight)
}

// A number of two bytes, low byte first.
pub fn pair_at(bytes: &[u8], at: usize) -> usize
    requires { at + 2 ≤ length bytes.now }
    ensures { result ≡ number_of (take 2 (drop at bytes.now)) }
{
    number_in(&bytes[at..at + 2])
}

// A number of eight bytes, low byte first.
pub fn number_at(bytes: &[u8], at: usize) -> usize
    requires { at + 8 ≤ length bytes.now }
    ensures { result ≡ number_of (part at 8 bytes.now) }
{
    number_in(&bytes[at..at + 8])
}

// The kind byte of a page.
pub fn kind_of(page: &[u8], main: usize) -> u8
    requires { Sized main page.now }
    ensures { result ≡ kind_of main page.now }
{
    page[main + 1]
}

// The logical block of a page.
pub fn logical_of(page: &[u8], main: usize) -> usize
    requires { Sized main page.now }
    ensures { result ≡ (label_of main page.now).logical }
{
    pair_at(page, main + 2)
}

// The place of a page in its block.
pub fn place_of(page: &[u8], main: usize) -> usize
    requires { Sized main page.now }
    ensures { result ≡ (label_of main page.now).page }
{
    usize::from(page[main + 4])
}

// The sequence number of a page.
pub fn number_of(page: &[u8], main: usize) -> u64
    requires { Sized main page.now }
    ensures { result ≡ (label_of main page.now).number }
{
    let at = main + 5;
    match number_width(kind_of(page, main)) {
        0 => 0,
        4 => number_in(&page[at..at + 4]) as u64,
        _ => number_at(page, at) as u64,
    }
}

// Whether a page is whole: kind, check and FFh places are right.
pub fn is_whole(page: &[u8], main: usize) -> bool
    requires { Sized main page.now }
    ensures { result ≡ whole main page.now }
{
    let width = number_width(kind_of(page, main));
    let check_at = main + 5 + width;
    width != 0
        && page[main] == 255
        && all_ones(&page[check_at + 2..])
        && pair_at(page, check_at) == zero_bits(&page[..check_at])
}

// Writes a number of two bytes, low byte first.
pub fn write_pair(bytes: &mut [u8], at: usize, number: usize)
    requires { at + 2 ≤ length bytes.old }
    ensures { bytes.new ≡ put at (bytes_of 2 number) bytes.old }
{
    bytes[at..at + 2].copy_from_slice(&number.to_le_bytes()[..2]);
}

// Writes a number of eight bytes, low byte first.
pub fn write_number(bytes: &mut [u8], at: usize, number: usize)
    requires { at + 8 ≤ length bytes.old }
    ensures { bytes.new ≡ put at (bytes_of 8 number) bytes.old }
{
    bytes[at..at + 8].copy_from_slice(&number.to_le_bytes());
}

// Writes FFh from a place on.
pub fn fill_ones(bytes: &mut [u8], from: usize)
    requires { from ≤ length bytes.old }
    ensures { bytes.new ≡ take from bytes.old ++ replicate (length bytes.old - from) 255 }
{
    bytes[from..].fill(255);
}

// Writes the spare bytes of a page whose main bytes stand already, in the layout whose number has eight bytes.
pub fn finish_page(
    page: &mut [u8],
    main: usize,
    kind: u8,
    logical: usize,
    place: usize,
    number: u64,
)
    requires sized { Sized main page.old }
    requires kind_value { number_width kind ≡ 8 }
    requires logical_bound { logical < 65536 }
    requires place_bound { place < 256 }
    ensures { page.new ≡ encoded (length page.old - main) (label kind logical place number) (take main page.old) }
{
    page[main] = 255;
    page[main + 1] = kind;
    write_pair(page, main + 2, logical);
    page[main + 4] = place as u8;
    write_number(page, main + 5, number as usize);
    let end = main + 13;
    let check = zero_bits(&page[..end]);
    write_pair(page, end, check);
    fill_ones(page, main + 15);
}
