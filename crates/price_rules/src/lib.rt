// Price rules: the check of a table, and the price of a selection.
#![tactic(auto)]

ghost use Rattle.std.specs.Prelude.{◌≡◌, true, IfErr, length};
ghost use Rattle.price_rules.specs.Rules.{selectable, within, wrong, fault_of, wrong_with, price_among};
ghost use Rattle.price_rules.specs.Faults.{fault_from, shaped, checking, pricing};
ghost use Rattle.price_rules.specs.Told.{number_of, place_of, refused, checked_by, priced_by};

// Why a table is refused, or a price.
#[derive(Clone, Copy, Debug, PartialEq, Eq)]
pub enum Refusal {
    // A table of another shape, or a price asked for what is no selection.
    OutOfRange,
    // The smallest selection at fault, which no rule covers.
    Uncovered(usize),
    // The smallest selection at fault, which two rules cover, or that is at fault in a wrong rule.
    Disputed(usize),
}

impl Refusal {
    // The paper's number.
    pub fn number(self) -> usize
        ensures { result ≡ number_of self }
    {
        match self {
            Refusal::OutOfRange => 2,
            Refusal::Uncovered(_) => 17,
            Refusal::Disputed(_) => 18,
        }
    }

    // The selection at fault, 0 where there is none.
    pub fn selection(self) -> usize
        ensures { result ≡ place_of self }
    {
        match self {
            Refusal::OutOfRange => 0,
            Refusal::Uncovered(s) | Refusal::Disputed(s) => s,
        }
    }
}

// Selections run from the first to the last.
const FIRST_SELECTION: usize = 1;

const LAST_SELECTION: usize = 99;

// The greatest number of rules in a table.
const MOST_RULES: usize = 200;

// Whether a number is a selection.
#[tactic(auto, unfolding(crate::specs::Rules::selectable))]
fn is_selectable(s: usize) -> bool
    ensures { result ≡ selectable s }
{
    (FIRST_SELECTION..=LAST_SELECTION).contains(&s)
}

// Whether a selection falls in a rule.
#[tactic(auto, unfolding(crate::specs::Rules::within))]
fn is_within(first: u8, last: u8, s: usize) -> bool
    ensures { result ≡ within first last s }
{
    (usize::from(first)..=usize::from(last)).contains(&s)
}

// Whether a rule is wrong.
#[tactic(auto, unfolding(crate::specs::Rules::wrong))]
fn is_wrong(first: usize, last: usize) -> bool
    ensures { result ≡ wrong first last }
{
    !is_selectable(first) || !is_selectable(last) || last < first
}

// The selection at fault in a wrong rule.
#[tactic(auto, unfolding(crate::specs::Rules::fault_of))]
fn fault_of(first: usize) -> usize
    ensures { result ≡ fault_of first }
{
    if is_selectable(first) {
        first
    } else {
        FIRST_SELECTION
    }
}

// Whether a rule is wrong with a selection at fault.
#[tactic(auto, unfolding(crate::specs::Rules::wrong_with))]
fn is_wrong_with(first: u8, last: u8, s: usize) -> bool
    ensures { result ≡ wrong_with first last s }
{
    is_wrong(first.into(), last.into()) && fault_of(first.into()) == s
}

// Whether a selection is at fault.
fn check_selection(first: &[u8], last: &[u8], s: usize) -> Result<(), Refusal>
    requires { length last.now ≡ length first.now }
    ensures { checked_by result ≡ fault_from first.now last.now s 1 }
{
    let mut covered: usize = 0;
    for (&from, &to) in first.iter().zip(last) {
        if is_wrong_with(from, to, s) {
            return Err(Refusal::Disputed(s));
        }
        if is_within(from, to, s) {
            covered += 1;
        }
    }
    match covered {
        0 => Err(Refusal::Uncovered(s)),
        1 => Ok(()),
        _ => Err(Refusal::Disputed(s)),
    }
}

// Whether a table has at most 200 rules, each with a last selection and a price.
#[tactic(auto, unfolding(crate::specs::Faults::shaped))]
fn is_shaped(firsts: usize, lasts: usize, prices: usize) -> bool
    ensures { result ≡ shaped firsts lasts prices }
{
    firsts <= MOST_RULES && lasts == firsts && prices == firsts
}

// Checks a table. Its rules come from C as three arrays, and there is no heap to join them in.
pub fn check(first: &[u8], last: &[u8], price: &[u32]) -> Result<(), Refusal>
    ensures { checked_by result ≡ checking first.now last.now price.now }
{
    if !is_shaped(first.len(), last.len(), price.len()) {
        return Err(Refusal::OutOfRange);
    }
    for s in FIRST_SELECTION..=LAST_SELECTION {
        check_selection(first, last, s)?;
    }
    Ok(())
}

// The price of the rule that a selection falls in.
fn price_at(first: &[u8], last: &[u8], price: &[u32], s: usize) -> u32
    requires last_len { length last.now ≡ length first.now }
    requires price_len { length price.now ≡ length first.now }
    ensures { result ≡ price_among first.now last.now price.now s (length first.now) }
{
    let mut found = 0;
    for ((&from, &to), &price) in first.iter().zip(last).zip(price) {
        if is_within(from, to, s) {
            found = price;
        }
    }
    found
}

// The price of a selection, in a table that the check accepts.
pub fn price_of(first: &[u8], last: &[u8], price: &[u32], selection: usize) -> Result<u32, Refusal>
    ensures told { priced_by result ≡ pricing first.now last.now price.now selection }
    ensures refusal { selectable selection ≡ true → IfErr result (λ r. refused r ≡ checking first.now last.now price.now) }
{
    if !is_selectable(selection) {
        return Err(Refusal::OutOfRange);
    }
    check(first, last, price)?;
    Ok(price_at(first, last, price, selection))
}
