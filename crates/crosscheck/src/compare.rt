// One plate through the library and through the plain transform.
use crate::noise::Noise;
use crate::plain::{Rows, transform};
use crate::rule::is_reached;
use cones::cone::Cone;
use kernels::choice::KernelChoice;
use lifting::passes::{forward, inverse};
use overlays::overlay::overlay;
use overlays::sources::{ConeOf, Copied, Patch};
use planes::cell::Cell;
use planes::flat::FlatStore;
use planes::level::Level;
use planes::plane::Plane;
use planes::rectangle::Rectangle;
use std::alloc::{AllocError, Global};

// What was compared so far.
#[derive(Clone, Copy, Default)]
pub struct Tally {
    pub plates: u64,
    pub cells: u64,
    pub differences: u64,
}

impl Tally {
    fn note(&mut self, same: bool) {
        self.cells = self.cells.saturating_add(1);
        if !same {
            self.differences = self.differences.saturating_add(1);
        }
    }

    // Compares one row of a store with a row of a picture.
    fn compare_row(&mut self, store: &FlatStore<'_>, picture: &Rows, row: usize) {
        for column in 0..picture.width() {
            let number = store.read(row, column).map(i64::from);
            self.note(number == Ok(picture.get(row, column)));
        }
    }

    fn compare(&mut self, store: &FlatStore<'_>, picture: &Rows) {
        for row in 0..picture.height() {
            self.compare_row(store, picture, row);
        }
    }

    // Compares the cone's cells in one row with the rule.
    fn compare_cone_row(
        &mut self,
        shape: Shape,
        cone: &Cone,
        rectangle: Rectangle,
        row: usize,
    ) -> u128 {
        let mut count = 0u128;
        for column in 0..shape.width {
            let reached = is_reached(
                shape.height,
                shape.width,
                rectangle,
                shape.level.number,
                row,
                column,
            );
            self.note(cone.contains(row, column) == reached);
            count = count.wrapping_add(u128::from(reached));
        }
        count
    }

    // How many cells the cone has by the rule; each cell is compared.
    fn compare_cone(&mut self, shape: Shape, cone: &Cone, rectangle: Rectangle) -> u128 {
        let mut count = 0u128;
        for row in 0..shape.height {
            count = count.wrapping_add(self.compare_cone_row(shape, cone, rectangle, row));
        }
        count
    }
}

// A plate to compare: its sides, its levels and its kernel.
#[derive(Clone, Copy)]
pub struct Shape {
    pub height: usize,
    pub width: usize,
    pub level: Level,
    pub kernel: KernelChoice,
}

impl Shape {
    fn area(self) -> usize {
        self.height.saturating_mul(self.width)
    }

    // The rectangle of all its places.
    fn whole(self) -> Rectangle {
        Rectangle {
            first_row: 0,
            first_column: 0,
            height: self.height,
            width: self.width,
        }
    }
}

// A picture with the samples in a rectangle.
fn paint(picture: &mut Rows, rectangle: Rectangle, samples: &[u16]) {
    for (i, sample) in samples.iter().enumerate() {
        let row = i.checked_div(rectangle.width).unwrap_or(0);
        let column = i.checked_rem(rectangle.width).unwrap_or(0);
        picture.set(
            rectangle.first_row.wrapping_add(row),
            rectangle.first_column.wrapping_add(column),
            *sample as i64,
        );
    }
}

// Edits a rectangle by the library, from the cells alone: undone in the scratch, replaced, lifted again, and the cone's cells put.
fn edit<'a>(
    store: FlatStore<'a>,
    scratch: &mut [Cell],
    shape: Shape,
    rectangle: Rectangle,
    samples: &[u16],
    cone: Cone,
) -> (FlatStore<'a>, u128) {
    let mut store = store;
    let mut work = FlatStore::new(scratch, shape.height, shape.width);
    overlay(&mut work, &Copied { plane: &store });
    let mut work = inverse(work, &shape.kernel, shape.level, Level { number: 0 });
    overlay(&mut work, &Patch { rectangle, samples });
    let work = forward(work, &shape.kernel, shape.level);
    let count = overlay(&mut store, &ConeOf { plane: &work, cone });
    (store, count)
}

// The plates compared so far, and the noise for those to come.
#[derive(Drop)]
pub struct Check {
    pub heap: Global,
    pub tally: Tally,
    pub noise: Noise,
}

impl Check {
    // Samples for so many places.
    fn samples(&mut self, count: usize) -> Result<Vec<u16>, AllocError> {
        let mut list = Vec::new(self.heap);
        for _ in 0..count {
            list.push((self.noise.next() % 36368) as u16)?;
        }
        Ok(list)
    }

    // A rectangle inside the plate.
    fn some_rectangle(&mut self, shape: Shape) -> Rectangle {
        let first_row = self.noise.below(shape.height);
        let first_column = self.noise.below(shape.width);
        let height = self
            .noise
            .below(shape.height.saturating_sub(first_row))
            .saturating_add(1);
        let width = self
            .noise
            .below(shape.width.saturating_sub(first_column))
            .saturating_add(1);
        Rectangle {
            first_row,
            first_column,
            height,
            width,
        }
    }

    // Compares a store with the plain transform of a picture.
    fn compare_lifted(
        &mut self,
        store: &FlatStore<'_>,
        picture: &Rows,
        shape: Shape,
    ) -> Result<(), AllocError> {
        let mut plain = picture.clone()?;
        transform(self.heap, &mut plain, shape.kernel, shape.level.number)?;
        self.tally.compare(store, &plain);
        Ok(())
    }

    // Edits a rectangle, of which the picture has the samples already, and compares cells, cone and picture.
    fn compare_edited(
        &mut self,
        store: FlatStore<'_>,
        picture: &Rows,
        shape: Shape,
        rectangle: Rectangle,
        samples: &[u16],
    ) -> Result<(), AllocError> {
        let mut scratch = vec![in self.heap; Cell::BLANK; shape.area()]?;
        let Some(cone) = Cone::of_rectangle(shape.height, shape.width, rectangle, shape.level)
        else {
            self.tally.note(false);
            return Ok(());
        };
        let (store, count) = edit(store, &mut scratch, shape, rectangle, samples, cone);
        let by_rule = self.tally.compare_cone(shape, &cone, rectangle);
        self.tally.note(count == by_rule && cone.count() == by_rule);
        self.compare_lifted(&store, picture, shape)?;
        let store = inverse(store, &shape.kernel, shape.level, Level { number: 0 });
        self.tally.compare(&store, picture);
        Ok(())
    }

    // Lays a picture, edits it once, and compares cells, cone and picture with those of the plain transform.
    pub fn compare_plate(&mut self, shape: Shape) -> Result<(), AllocError> {
        let rectangle = shape.whole();
        let samples = self.samples(shape.area())?;
        let mut picture = Rows::new(self.heap, shape.height, shape.width)?;
        paint(&mut picture, rectangle, &samples);
        let mut cells = vec![in self.heap; Cell::BLANK; shape.area()]?;
        let mut store = FlatStore::new(&mut cells, shape.height, shape.width);
        overlay(
            &mut store,
            &Patch {
                rectangle,
                samples: &samples,
            },
        );
        let store = forward(store, &shape.kernel, shape.level);
        self.compare_lifted(&store, &picture, shape)?;
        let rectangle = self.some_rectangle(shape);
        let replaced = self.samples(rectangle.height.saturating_mul(rectangle.width))?;
        paint(&mut picture, rectangle, &replaced);
        self.compare_edited(store, &picture, shape, rectangle, &replaced)?;
        self.tally.plates = self.tally.plates.saturating_add(1);
        Ok(())
    }
}
