// Runs price rules: a word for each table, then answer and selection at fault; a word for each price asked, then answer and price.
#![tactic(auto)]

use std::io;

fn show_check(
    rt: &impl Print,
    label: &str,
    first: &[u8],
    last: &[u8],
    price: &[u32],
) -> io::Result<()> {
    match price_rules::check(first, last, price) {
        Ok(()) => println!(rt; "{label} 0 0"),
        Err(refusal) => println!(rt; "{label} {} {}", refusal.number(), refusal.selection()),
    }
}

fn show_price(
    rt: &impl Print,
    label: &str,
    first: &[u8],
    last: &[u8],
    price: &[u32],
    selection: usize,
) -> io::Result<()> {
    match price_rules::price_of(first, last, price, selection) {
        Ok(price) => println!(rt; "{label} 0 {price}"),
        Err(refusal) => println!(rt; "{label} {} 0", refusal.number()),
    }
}

// Tables of one, two and three rules: the first and last selection of each.
fn show_one(rt: &impl Print, label: &str, a: u8, b: u8) -> io::Result<()> {
    show_check(rt, label, &[a], &[b], &[150u32])
}

fn show_two(rt: &impl Print, label: &str, a: u8, b: u8, c: u8, d: u8) -> io::Result<()> {
    show_check(rt, label, &[a, c], &[b, d], &[150u32, 300])
}

fn show_three(
    rt: &impl Print,
    label: &str,
    a: u8,
    b: u8,
    c: u8,
    d: u8,
    e: u8,
    f: u8,
) -> io::Result<()> {
    show_check(rt, label, &[a, c, e], &[b, d, f], &[150u32, 300, 200])
}

// The price of a selection in an accepted table of three rules.
fn show_sale(rt: &impl Print, label: &str, selection: usize) -> io::Result<()> {
    let first = [1u8, 50, 20];
    let last = [19u8, 99, 49];
    show_price(
        rt,
        label,
        &first,
        &last,
        &[150u32, 300, 4294967295],
        selection,
    )
}

// Three rules that cover every selection once, not in order, and prices from them.
fn show_accepted(rt: &impl Print) -> io::Result<()> {
    show_three(rt, "accepted", 1, 19, 50, 99, 20, 49)?;
    show_sale(rt, "price-of-0", 0)?;
    show_sale(rt, "price-of-1", 1)?;
    show_sale(rt, "price-of-19", 19)?;
    show_sale(rt, "price-of-20", 20)?;
    show_sale(rt, "price-of-50", 50)?;
    show_sale(rt, "price-of-99", 99)?;
    show_sale(rt, "price-of-100", 100)?;
    show_sale(rt, "price-of-256", 256)
}

// Selections that no rule covers, or two.
fn show_gaps_and_overlaps(rt: &impl Print) -> io::Result<()> {
    show_two(rt, "gap", 1, 19, 21, 99)?;
    show_one(rt, "gap-at-1", 2, 99)?;
    show_one(rt, "gap-at-99", 1, 98)?;
    show_two(rt, "overlap", 1, 19, 19, 99)?;
    show_two(rt, "overlap-at-99", 1, 99, 99, 99)?;
    show_three(rt, "gap-then-overlap", 1, 19, 21, 40, 40, 99)?;
    show_three(rt, "overlap-then-gap", 1, 10, 10, 20, 40, 99)?;
    show_three(rt, "both-at-20", 1, 19, 21, 99, 20, 5)
}

// Prices from such tables.
fn show_refused_prices(rt: &impl Print) -> io::Result<()> {
    let price = [150u32, 300];
    show_price(rt, "price-with-gap", &[1u8, 21], &[19u8, 99], &price, 1)?;
    show_price(rt, "price-with-overlap", &[1u8, 19], &[19u8, 99], &price, 1)
}

// Ends at the limits and outside, and a last selection below the first.
fn show_ends(rt: &impl Print) -> io::Result<()> {
    show_one(rt, "first-0", 0, 99)?;
    show_one(rt, "last-100", 1, 100)?;
    show_one(rt, "first-1-last-99", 1, 99)?;
    show_two(rt, "second-last-100", 1, 49, 50, 100)?;
    show_two(rt, "second-first-0", 1, 99, 0, 0)?;
    show_two(rt, "second-first-100", 1, 99, 100, 100)?;
    show_two(rt, "second-last-0", 1, 99, 7, 0)?;
    show_two(rt, "last-below-first", 1, 99, 51, 50)
}

// Tables with no rule, one for each selection, the most rules, one too many, and slices of different lengths.
fn show_shapes(rt: &impl Print) -> io::Result<()> {
    let price = [150u32; 201];
    let ones = [1u8; 201];
    let ends = [99u8; 201];
    let each = one_each();
    show_check(rt, "no-rule", &ones[..0], &ends[..0], &price[..0])?;
    show_check(rt, "one-each", &each, &each, &price[..99])?;
    show_check(rt, "rules-200", &ones[..200], &ends[..200], &price[..200])?;
    show_check(rt, "rules-201", &ones, &ends, &price)?;
    show_check(rt, "last-missing", &ones[..2], &ends[..1], &price[..2])?;
    show_check(rt, "price-missing", &ones[..1], &ends[..1], &price[..0])?;
    show_check(rt, "price-too-many", &ones[..1], &ends[..1], &price[..2])
}

// Prices from some of them.
fn show_shape_prices(rt: &impl Print) -> io::Result<()> {
    let price = [150u32; 201];
    let ones = [1u8; 201];
    let ends = [99u8; 201];
    let each = one_each();
    show_price(
        rt,
        "price-of-77-in-one-each",
        &each,
        &each,
        &price[..99],
        77,
    )?;
    show_price(
        rt,
        "price-in-no-rule",
        &ones[..0],
        &ends[..0],
        &price[..0],
        1,
    )?;
    show_price(rt, "price-in-rules-201", &ones, &ends, &price, 1)
}

// The selections from 1 to 99.
fn one_each() -> [u8; 99] {
    let mut each = [0u8; 99];
    for (place, s) in each.iter_mut().zip(1..=99u8) {
        *place = s;
    }
    each
}

fn main(rt: HostRuntime) -> io::Result<()> {
    show_accepted(&rt)?;
    show_gaps_and_overlaps(&rt)?;
    show_refused_prices(&rt)?;
    show_ends(&rt)?;
    show_shapes(&rt)?;
    show_shape_prices(&rt)
}
