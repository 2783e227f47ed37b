// Every cone of every plate of up to six rows and six columns, against the rule worked out place by place in signed numbers.
use cones::cone::Cone;
use planes::level::Level;
use planes::rectangle::Rectangle;
use std::process::Abort;
use std::test::Fail;

// A side of a plate, the first and the last place of an edit on it, and the number of levels.
#[derive(Clone, Copy)]
struct Edit {
    side: u8,
    first: u8,
    last: u8,
    levels: u8,
}

// A place of a line of some length is a member of the span from first to last.
fn is_member(length: u8, first: i16, last: i16, place: i16) -> bool {
    let reach = if place % 2 == 0 { 2 } else { 1 };
    0 <= place
        && place < i16::from(length)
        && first.saturating_sub(reach) <= place
        && place <= last.saturating_add(reach)
}

// The first and the last place m for which 2m is a member.
fn next_span(length: u8, first: i16, last: i16) -> (i16, i16) {
    let mut next = (i16::MAX, i16::MIN);
    for m in 0..length {
        if is_member(length, first, last, 2 * i16::from(m)) {
            next = (next.0.min(i16::from(m)), i16::from(m));
        }
    }
    next
}

// The length of a line on the lattice of a level, and the span there.
fn at_level(edit: Edit, level: u8) -> (u8, i16, i16) {
    let mut length = edit.side;
    let mut span = (i16::from(edit.first), i16::from(edit.last));
    for _ in 0..level {
        span = next_span(length, span.0, span.1);
        length = (length / 2).saturating_add(length % 2);
    }
    (length, span.0, span.1)
}

// How often a place can be halved, up to the levels.
fn depth(mut place: u8, levels: u8) -> u8 {
    for level in 0..levels {
        if place % 2 == 1 {
            return level;
        }
        place /= 2;
    }
    levels
}

// A place of the side is reached by the edit, as a place of the lattice of a level.
fn is_reached(edit: Edit, level: u8, place: u8) -> bool {
    let (length, first, last) = at_level(edit, level);
    let mut at = place;
    for _ in 0..level {
        at /= 2;
    }
    if level == edit.levels {
        first <= i16::from(at) && i16::from(at) <= last
    } else {
        is_member(length, first, last, i16::from(at))
    }
}

fn check_cell(rt: &impl Abort, cone: &Cone, rows: Edit, columns: Edit, row: u8, column: u8) {
    let level = depth(row, rows.levels).min(depth(column, rows.levels));
    let expected = is_reached(rows, level, row) && is_reached(columns, level, column);
    assert_eq!(rt;
        cone.contains(usize::from(row), usize::from(column)),
        expected
    );
}

fn check_row(rt: &impl Abort, cone: &Cone, rows: Edit, columns: Edit, row: u8) {
    for column in 0..columns.side {
        check_cell(rt, cone, rows, columns, row, column);
    }
}

fn check_cone(rt: &impl Abort, rows: Edit, columns: Edit) -> Result<(), Fail> {
    let rectangle = Rectangle {
        first_row: usize::from(rows.first),
        first_column: usize::from(columns.first),
        height: usize::from(rows.last) + 1 - usize::from(rows.first.min(rows.last)),
        width: usize::from(columns.last) + 1 - usize::from(columns.first.min(columns.last)),
    };
    let levels = Level::new(usize::from(rows.levels)).ok_or("no such level")?;
    let cone = Cone::of_rectangle(
        usize::from(rows.side),
        usize::from(columns.side),
        rectangle,
        levels,
    )
    .ok_or("no cone")?;
    for row in 0..rows.side {
        check_row(rt, &cone, rows, columns, row);
    }
    Ok(())
}

// The edits of a side that begin at a place, against all of another.
fn check_against(rt: &impl Abort, rows: Edit, side: u8, first: u8) -> Result<(), Fail> {
    for last in first..side {
        check_cone(
            rt,
            rows,
            Edit {
                side,
                first,
                last,
                levels: rows.levels,
            },
        )?;
        check_cone(
            rt,
            Edit {
                side,
                first,
                last,
                levels: rows.levels,
            },
            rows,
        )?;
    }
    Ok(())
}

fn check_sides(rt: &impl Abort, rows: Edit) -> Result<(), Fail> {
    for side in 1..7 {
        for first in 0..side {
            check_against(rt, rows, side, first)?;
        }
    }
    Ok(())
}

fn check_edits(rt: &impl Abort, side: u8, levels: u8) -> Result<(), Fail> {
    for first in 0..side {
        for last in first..side {
            check_sides(
                rt,
                Edit {
                    side,
                    first,
                    last,
                    levels,
                },
            )?;
        }
    }
    Ok(())
}

#[test]
fn every_cell_is_in_the_cone_exactly_where_the_rule_says(rt: HostRuntime) -> Result<(), Fail> {
    for side in 1..7 {
        for levels in 0..6 {
            check_edits(&rt, side, levels)?;
        }
    }
    Ok(())
}
