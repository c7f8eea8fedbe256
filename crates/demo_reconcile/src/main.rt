// Holds lists of sales against each other: a word for each case, then the answer, the three totals and the difference with its sign.
#![tactic(auto)]

mod long;

use std::io;

// Prints what the box's list comes to against the mechanism's.
pub(crate) fn show(
    rt: &impl Print,
    label: &str,
    box_numbers: &[u32],
    box_amounts: &[u32],
    mechanism_numbers: &[u32],
    mechanism_amounts: &[u32],
) -> io::Result<()> {
    let reconciled = reconcile::reconcile(
        box_numbers,
        box_amounts,
        mechanism_numbers,
        mechanism_amounts,
    );
    match reconciled {
        Ok(r) => println!(rt;
            "{label} 0 {} {} {} {}",
            r.agreed, r.only_box, r.only_mechanism, r.difference
        ),
        Err(refused) => println!(rt; "{label} {} 0 0 0 0", refused.number()),
    }
}

// The same sales, and none of the other's.
fn show_whole(rt: &impl Print, numbers: &[u32], amounts: &[u32]) -> io::Result<()> {
    let none = [0u32; 0];
    show(rt, "equal", numbers, amounts, numbers, amounts)?;
    show(
        rt,
        "disjoint",
        numbers,
        amounts,
        &[0u32, 3, 9],
        &[1u32, 2, 4],
    )?;
    show(rt, "box-empty", &none, &none, numbers, amounts)?;
    show(rt, "mechanism-empty", numbers, amounts, &none, &none)?;
    show(rt, "both-empty", &none, &none, &none, &none)
}

// A sale missing on each side.
fn show_missing(rt: &impl Print, numbers: &[u32], amounts: &[u32]) -> io::Result<()> {
    show(
        rt,
        "one-missing-on-each-side",
        numbers,
        amounts,
        &[1u32, 3, 5, 7],
        &[100u32, 80, 60, 20],
    )
}

// Sales in both with amounts that differ.
fn show_differences(rt: &impl Print, numbers: &[u32]) -> io::Result<()> {
    show(rt, "above", numbers, &[60u32, 20], numbers, &[50u32, 20])?;
    show(rt, "below", numbers, &[50u32, 20], numbers, &[60u32, 20])?;
    show(
        rt,
        "cancelled",
        numbers,
        &[60u32, 50],
        numbers,
        &[50u32, 60],
    )?;
    let most = [0xffff_ffffu32];
    show(rt, "greatest-number", &most, &most, &most, &[0u32])
}

// Lists that are refused, the box's or the mechanism's.
fn show_refused(rt: &impl Print, numbers: &[u32], amounts: &[u32]) -> io::Result<()> {
    let repeated = [1u32, 2, 2, 3];
    let falling = [1u32, 5, 7, 6];
    show(rt, "repeated", &repeated, amounts, numbers, amounts)?;
    show(rt, "falls-at-the-last", numbers, amounts, &falling, amounts)?;
    show(
        rt,
        "amounts-missing",
        numbers,
        &[10u32, 20],
        numbers,
        amounts,
    )?;
    show(rt, "amounts-over", numbers, amounts, &[1u32], &[1u32, 2])
}

fn main(rt: HostRuntime) -> io::Result<()> {
    let numbers = [1u32, 2, 5, 7];
    let amounts = [100u32, 150, 60, 20];
    show_whole(&rt, &numbers, &amounts)?;
    show_missing(&rt, &numbers, &amounts)?;
    show_differences(&rt, &[8u32, 9])?;
    show_refused(&rt, &numbers, &amounts)?;
    long::show_longest(&rt)?;
    long::show_too_long(&rt)
}
