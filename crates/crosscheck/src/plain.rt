// The transform written apart from the library, over rows of wide numbers, for comparison.
ghost use Rattle.std.specs.Prelude.{ℤ};

use kernels::choice::KernelChoice;
use std::alloc::{AllocError, Global};
use std::iter::StepBy;
use std::ops::Range;

// A picture or its cells, row by row.
#[derive(Clone, Drop)]
pub struct Rows {
    pub rows: Vec<Vec<i64>>,
}

impl Rows {
    // All numbers 0.
    pub fn new(heap: Global, height: usize, width: usize) -> Result<Rows, AllocError> {
        let mut rows = Vec::new(heap);
        for _ in 0..height {
            rows.push(vec![in heap; 0i64; width]?)?;
        }
        Ok(Rows { rows })
    }

    pub fn height(&self) -> usize {
        self.rows.len()
    }

    pub fn width(&self) -> usize {
        self.rows.first().map_or(0, |row| row.len())
    }

    // The number at a place, 0 outside.
    pub fn get(&self, row: usize, column: usize) -> i64 {
        self.rows
            .get(row)
            .and_then(|numbers| numbers.get(column).copied())
            .unwrap_or(0)
    }

    pub fn set(&mut self, row: usize, column: usize, number: i64) {
        if let Some(numbers) = self.rows.get_mut(row) {
            if let Some(place) = numbers.get_mut(column) {
                *place = number;
            }
        }
    }
}

fn predict(kernel: KernelChoice, a: i64, b: i64) -> i64 {
    match kernel {
        KernelChoice::FiveThree => a.wrapping_add(b).div_euclid(2),
        KernelChoice::STransform => a,
    }
}

fn update(kernel: KernelChoice, a: i64, b: i64) -> i64 {
    match kernel {
        KernelChoice::FiveThree => a.wrapping_add(b).wrapping_add(2).div_euclid(4),
        KernelChoice::STransform => b.div_euclid(2),
    }
}

fn at(line: &[i64], i: usize) -> i64 {
    line.get(i).copied().unwrap_or(0)
}

// The neighbours of a place; a missing one is replaced by the other.
fn neighbours(line: &[i64], i: usize) -> (i64, i64) {
    let left = if i > 0 {
        at(line, i - 1)
    } else {
        at(line, i.wrapping_add(1))
    };
    let right = if i.wrapping_add(1) < line.len() {
        at(line, i.wrapping_add(1))
    } else {
        left
    };
    (left, right)
}

// The places of one parity are changed by an amount of their neighbours.
fn change_places<F: Fn(i64, i64) -> i64>(line: &mut [i64], parity: usize, amount: F)
    requires { (a : ℤ) (b : ℤ) → F.pre amount a b }
{
    for i in 0..line.len() {
        if i % 2 == parity {
            let (a, b) = neighbours(line, i);
            line[i] = line[i].wrapping_add(amount(a, b));
        }
    }
}

// The odd places are lowered by the predict amount, and then the even ones are raised by the update amount.
fn lift_line(kernel: KernelChoice, line: &mut [i64]) {
    if line.len() >= 2 {
        change_places(line, 1, |a, b| predict(kernel, a, b).wrapping_neg());
        change_places(line, 0, |a, b| update(kernel, a, b));
    }
}

// Whether a line runs down a column or along a row.
#[derive(Clone, Copy)]
enum Way {
    Down,
    Along,
}

impl Way {
    // The row and the column of a place on a line; from a row and a column, the line and the place again.
    fn place(self, line: usize, i: usize) -> (usize, usize) {
        match self {
            Way::Down => (i, line),
            Way::Along => (line, i),
        }
    }

    // How many lines a picture has, and how long they are.
    fn sides(self, picture: &Rows) -> (usize, usize) {
        self.place(picture.height(), picture.width())
    }
}

// The places of a lattice on a line of n places.
fn lattice(n: usize, step: usize) -> StepBy<Range<usize>> {
    (0..n).step_by(step.max(1))
}

// Every 2^k-th number of a line of the plate.
fn take_line(
    heap: Global,
    picture: &Rows,
    way: Way,
    index: usize,
    step: usize,
) -> Result<Vec<i64>, AllocError> {
    let (_, length) = way.sides(picture);
    lattice(length, step)
        .map(|i| {
            let (row, column) = way.place(index, i);
            picture.get(row, column)
        })
        .collect(heap)
}

fn put_line(picture: &mut Rows, way: Way, index: usize, step: usize, line: &[i64]) {
    for (i, number) in line.iter().enumerate() {
        let (row, column) = way.place(index, i.wrapping_mul(step));
        picture.set(row, column, *number);
    }
}

// Lifts every line of a lattice in one way.
fn lift_lines(
    heap: Global,
    picture: &mut Rows,
    kernel: KernelChoice,
    way: Way,
    step: usize,
) -> Result<(), AllocError> {
    let (lines, _) = way.sides(picture);
    for index in lattice(lines, step) {
        let mut line = take_line(heap, picture, way, index, step)?;
        lift_line(kernel, &mut line);
        put_line(picture, way, index, step, &line);
    }
    Ok(())
}

// The transform: for each level every column of its lattice, then every row.
pub fn transform(
    heap: Global,
    picture: &mut Rows,
    kernel: KernelChoice,
    levels: usize,
) -> Result<(), AllocError> {
    let mut step = 1usize;
    for _ in 0..levels {
        lift_lines(heap, picture, kernel, Way::Down, step)?;
        lift_lines(heap, picture, kernel, Way::Along, step)?;
        step = step.wrapping_mul(2);
    }
    Ok(())
}
