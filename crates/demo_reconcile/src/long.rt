// Lists of 65,535 sales, the most that are accepted, and one sale more.

use std::io;

// Numbers from 0 on.
fn fill_rising(numbers: &mut [u32]) {
    for (number, n) in numbers.iter_mut().zip(0..) {
        *number = n;
    }
}

// The greatest amounts against the same, against none and against zeros.
fn show_amounts(rt: &impl Print, numbers: &[u32], most: &[u32], least: &[u32]) -> io::Result<()> {
    let none = [0u32; 0];
    crate::show(rt, "longest-agreed", numbers, most, numbers, most)?;
    crate::show(rt, "longest-only-box", numbers, most, &none, &none)?;
    crate::show(rt, "longest-only-mechanism", &none, &none, numbers, most)?;
    crate::show(rt, "longest-above", numbers, most, numbers, least)?;
    crate::show(rt, "longest-below", numbers, least, numbers, most)
}

pub(crate) fn show_longest(rt: &impl Print) -> io::Result<()> {
    let mut numbers = [0u32; 65535];
    fill_rising(&mut numbers);
    show_amounts(rt, &numbers, &[0xffff_ffffu32; 65535], &[0u32; 65535])
}

// One sale more than is accepted, in either list.
pub(crate) fn show_too_long(rt: &impl Print) -> io::Result<()> {
    let none = [0u32; 0];
    let mut numbers = [0u32; 65536];
    fill_rising(&mut numbers);
    let amounts = [1u32; 65536];
    crate::show(rt, "box-too-long", &numbers, &amounts, &none, &none)?;
    crate::show(rt, "mechanism-too-long", &none, &none, &numbers, &amounts)
}
