// Worked cases, run at the flat store with both kernels and with a kernel chosen at run time.
use crate::at_work::{lift_again, lift_into, undo_copy};
use kernels::choice::KernelChoice;
use kernels::five_three::FiveThree;
use kernels::kernel::Kernel;
use kernels::s_transform::STransform;
use planes::cell::Cell;
use planes::level::Level;
use std::process::Abort;

const OLD: Cell = Cell {
    number: 9,
    bit: false,
};

fn level(number: usize) -> Level {
    Level {
        number: number.min(5),
    }
}

fn numbers(cells: [Cell; 4]) -> [i32; 4] {
    cells.map(|cell| cell.number)
}

// What stands in four cells after lifting, after undoing a copy of them to a level, and after lifting that copy again.
fn check_four<K: Kernel>(
    rt: &impl Abort,
    kernel: &K,
    rows: usize,
    columns: usize,
    levels: usize,
    samples: [u16; 4],
    cells: [i32; 4],
) {
    let mut plate = [OLD; 4];
    let mut scratch = [OLD; 4];
    lift_into(&mut plate, rows, columns, kernel, level(levels), &samples);
    assert_eq!(rt; numbers(plate), cells);
    undo_copy(
        &mut plate,
        &mut scratch,
        rows,
        columns,
        kernel,
        level(levels),
        level(0),
    );
    assert_eq!(rt; numbers(scratch), samples.map(|sample| i32::from(sample)));
    lift_again(
        &mut plate,
        &mut scratch,
        rows,
        columns,
        kernel,
        level(levels),
    );
    assert_eq!(rt; numbers(scratch), cells);
}

#[test]
fn five_three_lifts_and_undoes(rt: HostRuntime) {
    check_four(&rt, &FiveThree, 1, 4, 0, [10, 20, 30, 40], [10, 20, 30, 40]);
    check_four(&rt, &FiveThree, 1, 4, 1, [10, 20, 30, 40], [10, 0, 33, 10]);
    check_four(&rt, &FiveThree, 4, 1, 1, [10, 20, 30, 40], [10, 0, 33, 10]);
    check_four(&rt, &FiveThree, 1, 4, 2, [10, 20, 30, 40], [22, 0, 23, 10]);
    check_four(&rt, &FiveThree, 1, 4, 2, [10, 20, 30, 44], [22, 0, 24, 14]);
    check_four(&rt, &FiveThree, 2, 2, 1, [1, 1, 0, 2], [2, 1, 0, 2]);
}

#[test]
fn s_transform_lifts_and_undoes(rt: HostRuntime) {
    check_four(
        &rt,
        &STransform,
        1,
        4,
        1,
        [10, 20, 30, 40],
        [15, 10, 35, 10],
    );
    check_four(
        &rt,
        &STransform,
        4,
        1,
        1,
        [10, 20, 30, 44],
        [15, 10, 37, 14],
    );
}

#[test]
fn a_kernel_is_chosen_at_run_time(rt: HostRuntime) {
    check_four(
        &rt,
        &KernelChoice::FiveThree,
        1,
        4,
        2,
        [10, 20, 30, 40],
        [22, 0, 23, 10],
    );
    check_four(
        &rt,
        &KernelChoice::STransform,
        1,
        4,
        1,
        [10, 20, 30, 40],
        [15, 10, 35, 10],
    );
    assert_eq!(rt; KernelChoice::FiveThree.code(), 1);
    assert_eq!(rt; KernelChoice::STransform.code(), 2);
}

// Undone to level 1, the lattice of level 1 shows that resolution and the other cells stay.
#[test]
fn undoing_to_a_level_shows_its_resolution(rt: HostRuntime) {
    let mut plate = [OLD; 4];
    let mut scratch = [OLD; 4];
    lift_into(&mut plate, 1, 4, &FiveThree, level(2), &[10, 20, 30, 44]);
    undo_copy(
        &mut plate,
        &mut scratch,
        1,
        4,
        &FiveThree,
        level(2),
        level(1),
    );
    assert_eq!(rt; numbers(scratch), [10, 0, 34, 14]);
}
