// Price rules for programs in C: the check of a table, and the price of a selection. c/price_rules.h says what is lent.
ghost use Rattle.std.specs.Prelude.{◌≡◌};
ghost use Rattle.c_prices.specs.Prices.{written, checking_lent, pricing_lent};

// Checks a table, and writes the smallest selection at fault.
#[unsafe(no_mangle)]
pub extern "C" fn price_rules_check(
    first: &[u8],
    last: &[u8],
    price: &[u32],
    fault: &mut [usize],
) -> usize
    ensures { written result fault.new ≡ checking_lent first.now last.now price.now fault.old }
{
    c_prices::check(first, last, price, fault)
}

// Writes the price of a selection, in a table that the check accepts.
#[unsafe(no_mangle)]
pub extern "C" fn price_rules_price(
    first: &[u8],
    last: &[u8],
    price: &[u32],
    selection: usize,
    found: &mut [u32],
) -> usize
    ensures { written result found.new ≡ pricing_lent first.now last.now price.now selection found.old }
{
    c_prices::price_of(first, last, price, selection, found)
}
