// The box's sales against the coin mechanism's, for programs in C.
ghost use Rattle.std.specs.Prelude.{◌≡◌};
ghost use Rattle.c_sales.specs.Sales.{sales_handed, reconciling_lent};

// Holds one list against the other. c/reconcile.h says what is lent.
#[unsafe(no_mangle)]
pub extern "C" fn reconcile_lists(
    box_numbers: &[u32],
    box_amounts: &[u32],
    mechanism_numbers: &[u32],
    mechanism_amounts: &[u32],
    totals: &mut [u64],
    difference: &mut [i64],
) -> usize
    ensures { sales_handed result totals.new difference.new ≡ reconciling_lent box_numbers.now box_amounts.now mechanism_numbers.now mechanism_amounts.now totals.old difference.old }
{
    c_sales::reconcile(
        box_numbers,
        box_amounts,
        mechanism_numbers,
        mechanism_amounts,
        totals,
        difference,
    )
}
