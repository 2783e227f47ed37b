// The level layer at every level, on sides that are no multiples of 2^k.
use faults::fault::{Fault, Layer};
use layers::level::LevelLayer;
use planes::cell::Cell;
use planes::flat::FlatStore;
use planes::plane::{Plane, Store};
use std::process::Abort;
use std::test::Fail;

// Rows and columns: single rows, single columns, and others.
const SIDES: [(usize, usize); 8] = [
    (1, 1),
    (1, 7),
    (7, 1),
    (3, 5),
    (2, 33),
    (33, 2),
    (1, 65),
    (65, 1),
];

// How far apart the rows of the lattice are, by level.
const STEPS: [usize; 6] = [1, 2, 4, 8, 16, 32];

fn is_on(place: usize, step: usize) -> bool {
    step != 0 && place % step == 0
}

fn put_row<S: Store>(rt: &impl Abort, store: &mut S, row: usize) -> Result<(), Fail> {
    for column in 0..store.columns() {
        store.put(row, column, 7)?;
    }
    assert_eq!(rt; store.put(row, store.columns(), 7), Err(Fault::Outside));
    Ok(())
}

// Every cell on the lattice has been put, and no other.
fn check_row<S: Store>(rt: &impl Abort, store: &S, row: usize, step: usize) -> Result<(), Fail> {
    for column in 0..store.columns() {
        let on = is_on(row, step) && is_on(column, step);
        assert_eq!(rt; store.read(row, column)?, if on { 7 } else { 0 });
        assert_eq!(rt; store.bit(row, column)?, on);
    }
    Ok(())
}

// How many places of a side are on the lattice.
fn counted(side: usize, step: usize) -> usize {
    (0..side).filter(|place| is_on(*place, step)).count()
}

fn check_lattice(
    rt: &impl Abort,
    rows: usize,
    columns: usize,
    level: usize,
    step: usize,
) -> Result<(), Fail> {
    let mut cells = [Cell::BLANK; 66];
    let mut layer = LevelLayer::new(FlatStore::new(&mut cells, rows, columns));
    layer.set_level(level)?;
    assert_eq!(rt; layer.rows(), counted(rows, step));
    assert_eq!(rt; layer.columns(), counted(columns, step));
    for row in 0..layer.rows() {
        put_row(rt, &mut layer, row)?;
    }
    let store = layer.into_below();
    for row in 0..rows {
        check_row(rt, &store, row, step)?;
    }
    Ok(())
}

fn check_levels(rt: &impl Abort, rows: usize, columns: usize) -> Result<(), Fail> {
    for (level, step) in STEPS.iter().enumerate() {
        check_lattice(rt, rows, columns, level, *step)?;
    }
    Ok(())
}

#[test]
fn lattices_of_every_level(rt: HostRuntime) -> Result<(), Fail> {
    for (rows, columns) in SIDES {
        check_levels(&rt, rows, columns)?;
    }
    Ok(())
}

#[test]
fn levels_over_five_are_declined(rt: HostRuntime) -> Result<(), Fail> {
    let mut cells = [Cell::BLANK; 66];
    let mut layer = LevelLayer::new(FlatStore::new(&mut cells, 5, 13));
    layer.set_level(3)?;
    assert_eq!(rt; layer.set_level(6), Err(Fault::Levels(Layer::Plane)));
    assert_eq!(rt;
        layer.set_level(18446744073709551615),
        Err(Fault::Levels(Layer::Plane))
    );
    assert_eq!(rt; layer.rows(), 1);
    layer.put(0, 1, 4)?;
    layer.clear();
    assert_eq!(rt; layer.bit(0, 1)?, false);
    assert_eq!(rt; layer.below.read(0, 8)?, 4);
    Ok(())
}
