// One row of four samples: laid at two levels, its last sample replaced, and resolution 1 shown.
use kernels::five_three::FiveThree;
use kernels::kernel::Kernel;
use kernels::s_transform::STransform;
use planes::cell::Cell;
use planes::flat::FlatStore;
use planes::level::Level;
use planes::rectangle::Rectangle;
use std::process::Abort;
use std::test::Fail;
use works::transform::Transform;

// Some places of the row.
fn places(first: usize, width: usize) -> Rectangle {
    Rectangle {
        first_row: 0,
        first_column: first,
        height: 1,
        width,
    }
}

fn numbers(cells: &[Cell; 4]) -> [i32; 4] {
    cells.map(|cell| cell.number)
}

// The cells when 10 20 30 40 is laid, those after the last is replaced by 44, and resolution 1 then.
fn check_row<K: Kernel>(
    rt: &impl Abort,
    kernel: &K,
    laid: [i32; 4],
    settled: [i32; 4],
    shown: [i32; 2],
) -> Result<(), Fail> {
    let mut cells = [Cell::BLANK; 4];
    let mut scratch = [Cell::BLANK; 4];
    let mut output = [0; 2];
    let levels = Level::new(2).ok_or("no such level")?;
    let level = Level::new(1).ok_or("no such level")?;
    let transform = Transform { kernel, levels };
    assert!(rt;
        transform
            .lay(&mut FlatStore::new(&mut cells, 1, 4), &[10, 20, 30, 40])
            .is_some()
    );
    assert_eq!(rt; numbers(&cells), laid);
    let count = transform.settle(
        &mut FlatStore::new(&mut cells, 1, 4),
        places(3, 1),
        &[44],
        &mut scratch,
    );
    assert_eq!(rt; count, Some(3));
    assert_eq!(rt; numbers(&cells), settled);
    assert!(rt;
        transform
            .preview(
                &FlatStore::new(&mut cells, 1, 4),
                level,
                places(0, 2),
                &mut scratch,
                &mut output,
            )
            .is_some()
    );
    assert_eq!(rt; output, shown);
    Ok(())
}

#[test]
fn five_three_gives_the_worked_cells(rt: HostRuntime) -> Result<(), Fail> {
    check_row(&rt, &FiveThree, [22, 0, 23, 10], [22, 0, 24, 14], [10, 34])
}

#[test]
fn s_transform_gives_the_worked_cells(rt: HostRuntime) -> Result<(), Fail> {
    check_row(
        &rt,
        &STransform,
        [25, 10, 20, 10],
        [26, 10, 22, 14],
        [15, 37],
    )
}
