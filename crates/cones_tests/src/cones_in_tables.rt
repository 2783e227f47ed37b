// Cones whose cells or whose number of cells are known.
use cones::cone::Cone;
use planes::level::Level;
use planes::rectangle::Rectangle;
use std::test::Fail;

// The cone of one place of a plate.
fn cone_of(height: usize, width: usize, levels: usize, row: usize, column: usize) -> Option<Cone> {
    let rectangle = Rectangle {
        first_row: row,
        first_column: column,
        height: 1,
        width: 1,
    };
    Cone::of_rectangle(height, width, rectangle, Level::new(levels)?)
}

// Height, width, levels, the row and the column of the edited place; the number of cells in its cone.
const COUNTS: [(usize, usize, usize, usize, usize, u128); 8] = [
    (4, 4, 1, 3, 3, 4),
    (1, 4, 2, 0, 3, 3),
    (1, 1, 5, 0, 0, 1),
    (1, 3, 2, 0, 1, 3),
    (4, 4, 0, 2, 1, 1),
    (8, 8, 1, 3, 3, 9),
    (8, 8, 1, 4, 4, 25),
    (1, 9, 1, 0, 8, 3),
];

#[test]
fn cones_have_as_many_cells_as_counted(rt: HostRuntime) -> Result<(), Fail> {
    for (height, width, levels, row, column, count) in COUNTS {
        let cone = cone_of(height, width, levels, row, column).ok_or("no cone")?;
        assert_eq!(rt; cone.count(), count);
    }
    Ok(())
}

// The cells of one row of four, edited at place 3, at two levels.
const CELLS: [bool; 4] = [true, false, true, true];

#[test]
fn an_edit_of_the_last_of_four_reaches_three_cells(rt: HostRuntime) -> Result<(), Fail> {
    let cone = cone_of(1, 4, 2, 0, 3).ok_or("no cone")?;
    for (column, is_in) in CELLS.iter().enumerate() {
        assert_eq!(rt; cone.contains(0, column), *is_in);
    }
    assert!(rt; !cone.contains(1, 0));
    assert!(rt; !cone.contains(0, 4));
    Ok(())
}

// Height, width, first row, first column, rows and columns of rectangles that have no cone.
const DECLINED: [(usize, usize, usize, usize, usize, usize); 5] = [
    (4, 4, 4, 0, 1, 1),
    (4, 4, 0, 0, 0, 1),
    (4, 4, 0, 0, 1, 0),
    (4, 4, 0, 3, 1, 2),
    (4, 4, 18446744073709551615, 0, 2, 1),
];

#[test]
fn rectangles_that_are_empty_or_leave_have_no_cone(rt: HostRuntime) -> Result<(), Fail> {
    for (height, width, first_row, first_column, rows, columns) in DECLINED {
        let levels = Level::new(1).ok_or("no such level")?;
        let rectangle = Rectangle {
            first_row,
            first_column,
            height: rows,
            width: columns,
        };
        assert!(rt; Cone::of_rectangle(height, width, rectangle, levels).is_none());
    }
    Ok(())
}
