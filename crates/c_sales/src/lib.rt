// The box's sales against the coin mechanism's on what C programs lend: three totals and a difference, written to lent buffers.
#![tactic(auto)]

ghost use Rattle.std.specs.Prelude.{◌≡◌};
ghost use Rattle.c_sales.specs.Sales.{sales_handed, reconciling_lent};

// The totals have not three elements, or the difference not one.
const BAD_BUFFER: usize = 100;

// Holds one list against the other.
pub fn reconcile(
    box_numbers: &[u32],
    box_amounts: &[u32],
    mechanism_numbers: &[u32],
    mechanism_amounts: &[u32],
    totals: &mut [u64],
    difference: &mut [i64],
) -> usize
    ensures { sales_handed result totals.new difference.new ≡ reconciling_lent box_numbers.now box_amounts.now mechanism_numbers.now mechanism_amounts.now totals.old difference.old }
{
    if totals.len() != 3 || difference.len() != 1 {
        return BAD_BUFFER;
    }
    let reconciled = reconcile::reconcile(
        box_numbers,
        box_amounts,
        mechanism_numbers,
        mechanism_amounts,
    );
    match reconciled {
        Ok(r) => {
            totals.copy_from_slice(&[r.agreed, r.only_box, r.only_mechanism]);
            difference[0] = r.difference;
            0
        }
        Err(refused) => {
            totals.fill(0);
            difference[0] = 0;
            refused.number()
        }
    }
}
