// Numbers put from each kind of source.
use cones::cone::Cone;
use overlays::overlay::{Source, overlay};
use overlays::sources::{ConeOf, Copied, Patch};
use planes::cell::Cell;
use planes::flat::FlatStore;
use planes::level::Level;
use planes::rectangle::Rectangle;
use std::test::Fail;

const OLD: Cell = Cell {
    number: 9,
    bit: false,
};

// What a source makes of two rows of three, and how many places it puts.
fn overlaid<V: Source>(source: &V) -> ([Cell; 6], u128) {
    let mut cells = [OLD; 6];
    let count = overlay(&mut FlatStore::new(&mut cells, 2, 3), source);
    (cells, count)
}

#[test]
fn samples_are_put_row_by_row(rt: HostRuntime) {
    let rectangle = Rectangle {
        first_row: 0,
        first_column: 1,
        height: 2,
        width: 2,
    };
    let samples = [1, 2, 3, 65535];
    let (cells, count) = overlaid(&Patch {
        rectangle,
        samples: &samples,
    });
    assert_eq!(rt; count, 4);
    assert_eq!(rt;
        cells,
        [
            OLD,
            Cell::changed(1),
            Cell::changed(2),
            OLD,
            Cell::changed(3),
            Cell::changed(65535)
        ]
    );
}

#[test]
fn places_without_a_sample_are_left(rt: HostRuntime) {
    let rectangle = Rectangle {
        first_row: 1,
        first_column: 0,
        height: 18446744073709551615,
        width: 18446744073709551615,
    };
    let samples = [1, 2];
    let (cells, count) = overlaid(&Patch {
        rectangle,
        samples: &samples,
    });
    assert_eq!(rt; count, 2);
    assert_eq!(rt;
        cells,
        [OLD, OLD, OLD, Cell::changed(1), Cell::changed(2), OLD]
    );
}

#[test]
fn a_smaller_plane_is_copied_into_the_corner(rt: HostRuntime) {
    let mut small = [
        Cell::changed(1),
        Cell::changed(2),
        Cell::changed(3),
        Cell::changed(4),
    ];
    let (cells, count) = overlaid(&Copied {
        plane: &FlatStore::new(&mut small, 2, 2),
    });
    assert_eq!(rt; count, 4);
    assert_eq!(rt;
        cells,
        [
            Cell::changed(1),
            Cell::changed(2),
            OLD,
            Cell::changed(3),
            Cell::changed(4),
            OLD
        ]
    );
}

#[test]
fn the_cells_of_a_cone_are_put_and_no_others(rt: HostRuntime) -> Result<(), Fail> {
    let rectangle = Rectangle {
        first_row: 0,
        first_column: 0,
        height: 1,
        width: 1,
    };
    let levels = Level::new(0).ok_or("no such level")?;
    let cone = Cone::of_rectangle(2, 3, rectangle, levels).ok_or("no cone")?;
    let mut other = [
        Cell::changed(1),
        Cell::changed(2),
        Cell::changed(3),
        Cell::changed(4),
        Cell::changed(5),
        Cell::changed(6),
    ];
    let (cells, count) = overlaid(&ConeOf {
        plane: &FlatStore::new(&mut other, 2, 3),
        cone,
    });
    assert_eq!(rt; count, 1);
    assert_eq!(rt; cells, [Cell::changed(1), OLD, OLD, OLD, OLD, OLD]);
    Ok(())
}
