// Price rules on what C programs lend: the check of a table, and the price of a selection, each written to a lent buffer.
#![tactic(auto)]

ghost use Rattle.std.specs.Prelude.{◌≡◌};
ghost use Rattle.c_prices.specs.Prices.{written, checking_lent, pricing_lent};

// The buffer of the result has not one element.
const BAD_BUFFER: usize = 100;

// Checks a table, and writes the smallest selection at fault.
pub fn check(first: &[u8], last: &[u8], price: &[u32], fault: &mut [usize]) -> usize
    ensures { written result fault.new ≡ checking_lent first.now last.now price.now fault.old }
{
    if fault.len() != 1 {
        return BAD_BUFFER;
    }
    match price_rules::check(first, last, price) {
        Ok(()) => {
            fault[0] = 0;
            0
        }
        Err(refusal) => {
            fault[0] = refusal.selection();
            refusal.number()
        }
    }
}

// Writes the price of a selection, in a table that the check accepts.
pub fn price_of(
    first: &[u8],
    last: &[u8],
    price: &[u32],
    selection: usize,
    found: &mut [u32],
) -> usize
    ensures { written result found.new ≡ pricing_lent first.now last.now price.now selection found.old }
{
    if found.len() != 1 {
        return BAD_BUFFER;
    }
    match price_rules::price_of(first, last, price, selection) {
        Ok(price) => {
            found[0] = price;
            0
        }
        Err(refusal) => {
            found[0] = 0;
            refusal.number()
        }
    }
}
