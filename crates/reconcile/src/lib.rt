// The box's sales against the coin mechanism's: four totals in one pass over both lists.
#![tactic(auto)]

ghost use Rattle.std.specs.Prelude.{◌≡◌, true};
ghost use Rattle.reconcile.specs.Sales.{sales, rises, accepted};
ghost use Rattle.reconcile.specs.Next.{number_at};
ghost use Rattle.reconcile.specs.Totals.{totals, reconciled};
ghost use Rattle.reconcile.specs.Told.{reconciled_as, reconciled_by};

// What two lists come to.
#[derive(Clone, Copy, Debug, PartialEq, Eq)]
pub struct Totals {
    pub agreed: u64,
    pub only_box: u64,
    pub only_mechanism: u64,
    pub difference: i64,
}

// A list is too long, has not as many amounts as numbers, or does not rise.
#[derive(Clone, Copy, Debug, PartialEq, Eq)]
pub struct Refused;

impl Refused {
    // The paper's number.
    pub fn number(self) -> usize
        ensures { result ≡ 2 }
    {
        2
    }
}

const MOST_SALES: usize = 65535;

const PAST_THE_END: u64 = 0x1_0000_0000;

// Whether each number is less than the next.
pub fn is_rising(numbers: &[u32]) -> bool
    ensures { result ≡ rises numbers.now }
{
    numbers.is_sorted_by(|a, b| a < b)
}

// Whether a list is short enough, has as many amounts as numbers, and rises.
pub fn is_accepted(numbers: &[u32], amounts: &[u32]) -> bool
    ensures { result ≡ accepted numbers.now amounts.now }
{
    numbers.len() <= MOST_SALES && amounts.len() == numbers.len() && is_rising(numbers)
}

// The number at a place; past the end one that is above every number.
fn number_at(numbers: &[u32], i: usize) -> u64
    ensures { result ≡ number_at numbers.now i }
{
    numbers.get(i).map_or(PAST_THE_END, |&n| u64::from(n))
}

// The totals of two accepted lists. Each turn takes the sale with the lower of the two next numbers, or both sales if the
// numbers are equal: the two places move on apart, so that no one iterator counts them.
fn gather(
    box_numbers: &[u32],
    box_amounts: &[u32],
    mechanism_numbers: &[u32],
    mechanism_amounts: &[u32],
) -> Totals
    requires box_amounts_value { accepted box_numbers.now box_amounts.now ≡ true }
    requires mechanism_amounts_value { accepted mechanism_numbers.now mechanism_amounts.now ≡ true }
    ensures { reconciled_as result ≡ totals (sales box_numbers.now box_amounts.now) (sales mechanism_numbers.now mechanism_amounts.now) }
{
    let mut agreed: u64 = 0;
    let mut only_box: u64 = 0;
    let mut only_mechanism: u64 = 0;
    let mut difference: i64 = 0;
    let mut i = 0;
    let mut j = 0;
    while i + j < box_numbers.len() + mechanism_numbers.len() {
        let number = number_at(box_numbers, i);
        let other = number_at(mechanism_numbers, j);
        if number < other {
            only_box += u64::from(box_amounts[i]);
            i += 1;
            continue;
        }
        if other < number {
            only_mechanism += u64::from(mechanism_amounts[j]);
            j += 1;
            continue;
        }
        let amount = box_amounts[i];
        let counted = mechanism_amounts[j];
        if amount == counted {
            agreed += u64::from(amount);
        }
        difference += i64::from(amount) - i64::from(counted);
        i += 1;
        j += 1;
    }
    Totals {
        agreed,
        only_box,
        only_mechanism,
        difference,
    }
}

// The box's list against the mechanism's. Numbers and amounts come from C as arrays of their own.
pub fn reconcile(
    box_numbers: &[u32],
    box_amounts: &[u32],
    mechanism_numbers: &[u32],
    mechanism_amounts: &[u32],
) -> Result<Totals, Refused>
    ensures { reconciled_by result ≡ reconciled box_numbers.now box_amounts.now mechanism_numbers.now mechanism_amounts.now }
{
    if !is_accepted(box_numbers, box_amounts)
        || !is_accepted(mechanism_numbers, mechanism_amounts)
    {
        return Err(Refused);
    }
    Ok(gather(
        box_numbers,
        box_amounts,
        mechanism_numbers,
        mechanism_amounts,
    ))
}
