// The exports that the harness in C calls: forward and inverse with both kernels, and forward with the kernel chosen at run time.
#![tactic(auto)]

use bench_lifting::{lift, undo};
use kernels::choice::KernelChoice;
use kernels::five_three::FiveThree;
use kernels::s_transform::STransform;
use planes::cell::Cell;

#[unsafe(no_mangle)]
pub extern "C" fn forward_five_three(
    cells: &mut [Cell],
    rows: usize,
    columns: usize,
    levels: usize,
) {
    lift(cells, rows, columns, &FiveThree, levels);
}

#[unsafe(no_mangle)]
pub extern "C" fn inverse_five_three(
    cells: &mut [Cell],
    rows: usize,
    columns: usize,
    levels: usize,
) {
    undo(cells, rows, columns, &FiveThree, levels);
}

#[unsafe(no_mangle)]
pub extern "C" fn forward_s_transform(
    cells: &mut [Cell],
    rows: usize,
    columns: usize,
    levels: usize,
) {
    lift(cells, rows, columns, &STransform, levels);
}

#[unsafe(no_mangle)]
pub extern "C" fn inverse_s_transform(
    cells: &mut [Cell],
    rows: usize,
    columns: usize,
    levels: usize,
) {
    undo(cells, rows, columns, &STransform, levels);
}

#[unsafe(no_mangle)]
pub extern "C" fn forward_chosen(
    cells: &mut [Cell],
    rows: usize,
    columns: usize,
    levels: usize,
    five_three: bool,
) {
    let kernel = if five_three {
        KernelChoice::FiveThree
    } else {
        KernelChoice::STransform
    };
    lift(cells, rows, columns, &kernel, levels);
}
