// The journal of sales, one record a page: its bytes, which records are in force, and the takings.
#![tactic(auto)]

ghost use Rattle.std.specs.Prelude.{◌≡◌, ◌+◌, ◌*◌, ◌≤◌, ◌<◌, length};
ghost use Rattle.cells.specs.Part.{part};
ghost use Rattle.pages.specs.Layout.{number_of};
ghost use Rattle.journal.specs.Records.{sale_bytes, is_next, replaces_in};

// Where the fields of a record stand on its page after its number, and where FFh begins.
const SELECTION: usize = 2;

const COUNT: usize = 3;

const PRICE: usize = 5;

const REPLACES: usize = 9;

const REST: usize = 11;

// A sale as it is entered: what was sold, how many, the price of one in cents, and the number of an earlier record that it
// replaces, or 0.
#[derive(Clone, Copy, Debug, PartialEq, Eq)]
pub struct Sale {
    pub selection: u8,
    pub count: u16,
    pub price: u32,
    pub replaces: u16,
}

// The number of the record that a page's record replaces.
pub fn replaces_of(page: &[u8]) -> usize
    requires { 11 ≤ length page.now }
    ensures { (result ≡ replaces_in page.now) × (result < 65536) }
{
    pages::pair_at(page, REPLACES)
}

// Whether a page is the next record after so many.
pub fn is_next(page: &[u8], before: usize) -> bool
    requires in_bounds { 11 ≤ length page.now }
    requires before_bound { before < 65535 }
    ensures { result ≡ is_next before page.now }
{
    pages::pair_at(page, 0) == before + 1
        && replaces_of(page) <= before
        && pages::all_ones(&page[REST..])
}

// Count times price, of the bytes that hold both.
pub fn amount_of(bytes: &[u8]) -> u64
    requires { 6 ≤ length bytes.now }
    ensures { (result ≡ number_of (part 0 2 bytes.now) * number_of (part 2 4 bytes.now)) × (result ≤ 281470681677825) }
{
    let count = u16::from_le_bytes([bytes[0], bytes[1]]);
    let price = u32::from_le_bytes([bytes[2], bytes[3], bytes[4], bytes[5]]);
    u64::from(count) * u64::from(price)
}

// Writes a record over a page of main bytes.
pub fn write_record(page: &mut [u8], number: usize, sale: Sale)
    requires { 11 ≤ length page.old }
    ensures { page.new ≡ sale_bytes (length page.old) number sale }
{
    page[..SELECTION].copy_from_slice(&number.to_le_bytes()[..SELECTION]);
    page[SELECTION] = sale.selection;
    page[COUNT..PRICE].copy_from_slice(&sale.count.to_le_bytes());
    page[PRICE..REPLACES].copy_from_slice(&sale.price.to_le_bytes());
    page[REPLACES..REST].copy_from_slice(&sale.replaces.to_le_bytes());
    page[REST..].fill(0xff);
}
