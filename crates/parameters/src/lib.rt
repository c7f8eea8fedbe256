// The parameter page of a chip (002, Table 13): its integrity CRC, which of its copies are good, and the sizes that they tell.
#![tactic(auto)]

ghost use Rattle.std.specs.Prelude.{◌≡◌, ◌+◌, ◌≤◌, take, drop, option_map};
ghost use Rattle.std.specs.List.{find};
ghost use Rattle.pages.specs.Layout.{number_of};
ghost use Rattle.parameters.specs.Crc.{bit_into, byte_into, integrity};
ghost use Rattle.parameters.specs.Page.{good, sizes_in, first_good_of, refusal_answer, told_by, judged, told};

use geometry::Geometry;

// What a copy of the parameter page tells of one logical unit, in bytes, pages and blocks.
#[derive(Clone, Copy)]
pub struct Sizes {
    pub main: usize,
    pub spare: usize,
    pub pages: usize,
    pub blocks: usize,
}

// Why no sizes are told.
#[derive(Clone, Copy, Debug, PartialEq, Eq)]
pub enum Refusal {
    // The sizes break a limit.
    Geometry,
    // No copy is good.
    NoCopy,
}

impl From<Refusal> for usize {
    ghost from_gives = { λ refusal answer. answer ≡ refusal_answer refusal };

    fn from(refusal: Refusal) -> usize {
        match refusal {
            Refusal::Geometry => 1,
            Refusal::NoCopy => 12,
        }
    }
}

// The bytes of a copy, and where its fields stand: the sizes, and the CRC of all bytes before it.
const COPY: usize = 256;

const MAIN: usize = 80;

const SPARE: usize = 84;

const PAGES: usize = 92;

const BLOCKS: usize = 96;

const CRC: usize = 254;

// The ONFI integrity CRC: polynomial 8005h, from 4F4Eh on.
const POLYNOMIAL: u16 = 0x8005;

const START: u16 = 0x4f4e;

// The register after one bit more.
fn with_bit(crc: u16, bit: u16) -> u16
    ensures { result ≡ bit_into crc bit }
{
    let shifted = crc << 1;
    if crc >> 15 == bit {
        shifted
    } else {
        shifted ^ POLYNOMIAL
    }
}

// The register after one byte more, its most significant bit first.
fn with_byte(crc: u16, byte: u8) -> u16
    ensures { result ≡ byte_into crc byte }
{
    let mut register = crc;
    for place in (0..8u32).rev() {
        register = with_bit(register, u16::from(byte >> place & 1));
    }
    register
}

// The integrity CRC of some bytes.
pub fn crc(bytes: &[u8]) -> usize
    ensures { result ≡ integrity bytes.now }
{
    let mut register = START;
    for &byte in bytes {
        register = with_byte(register, byte);
    }
    usize::from(register)
}

// Whether a copy is good: it starts with "ONFI", and its last two bytes hold the CRC of those before them.
fn is_good(copy: &[u8; COPY]) -> bool
    ensures { result ≡ good copy.now }
{
    copy.starts_with(b"ONFI") && pages::pair_at(copy, CRC) == crc(&copy[..CRC])
}

// A number of four bytes, low byte first.
fn four_at(copy: &[u8; COPY], at: usize) -> usize
    requires { at + 4 ≤ 256 }
    ensures { result ≡ number_of (take 4 (drop at copy.now)) }
{
    u32::from_le_bytes([copy[at], copy[at + 1], copy[at + 2], copy[at + 3]]) as usize
}

// The sizes that a copy tells.
fn sizes_in(copy: &[u8; COPY]) -> Sizes
    ensures { result ≡ sizes_in copy.now }
{
    Sizes {
        main: four_at(copy, MAIN),
        spare: pages::pair_at(copy, SPARE),
        pages: four_at(copy, PAGES),
        blocks: four_at(copy, BLOCKS),
    }
}

// The sizes of a good copy, tested against the limits with N logical blocks.
fn judge(sizes: Sizes, logical: usize) -> Result<Sizes, Refusal>
    ensures { told_by result ≡ judged sizes logical }
{
    let Sizes {
        main,
        spare,
        pages,
        blocks,
    } = sizes;
    let g = Geometry {
        main,
        spare,
        pages,
        blocks,
        logical,
    };
    if geometry::is_valid(g) {
        Ok(sizes)
    } else {
        Err(Refusal::Geometry)
    }
}

// The first good one of some copies.
fn find_good(copies: &[[u8; COPY]]) -> Option<&[u8; COPY]>
    ensures { option_map (λ copy. copy.now) result ≡ find good copies.now }
{
    copies.iter().find(|copy| is_good(copy))
}

// The first good one of the three copies.
fn first_good(parameters: &[u8; 3 * COPY]) -> Option<&[u8; COPY]>
    ensures { option_map (λ copy. copy.now) result ≡ first_good_of parameters.now }
{
    let (copies, _) = parameters.as_chunks();
    find_good(copies)
}

// What the first good of the three copies tells.
pub fn tell(parameters: &[u8; 3 * COPY], logical: usize) -> Result<Sizes, Refusal>
    ensures { told_by result ≡ told parameters.now logical }
{
    match first_good(parameters) {
        Some(copy) => judge(sizes_in(copy), logical),
        None => Err(Refusal::NoCopy),
    }
}
