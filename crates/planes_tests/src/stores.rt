// The faults of the flat store, and what it keeps.
use faults::fault::Fault;
use planes::cell::Cell;
use planes::flat::FlatStore;
use planes::plane::{Plane, Store};
use std::process::Abort;
use std::test::Fail;

// The number of a fault, or 0.
fn number_of(fault: Option<Fault>) -> u8 {
    fault.map_or(0, |fault| fault.number())
}

// Rows, columns and the fault's number, over a buffer of 12 records.
const FAULTS: [(usize, usize, u8); 10] = [
    (3, 4, 0),
    (12, 1, 0),
    (1, 12, 0),
    (0, 4, 1),
    (4, 0, 1),
    (4097, 1, 1),
    (1, 18446744073709551615, 1),
    (4096, 4096, 5),
    (13, 1, 5),
    (5, 3, 5),
];

fn check_fault(rt: &impl Abort, rows: usize, columns: usize, number: u8) {
    let mut cells = [Cell::BLANK; 12];
    assert_eq!(rt; number_of(FlatStore::fault(&cells, rows, columns)), number);
    let store = FlatStore::new(&mut cells, rows, columns);
    assert_eq!(rt; store.rows(), if number == 0 { rows } else { 0 });
    assert_eq!(rt; store.columns(), if number == 0 { columns } else { 0 });
}

#[test]
fn faults_come_in_order(rt: HostRuntime) {
    for (rows, columns, number) in FAULTS {
        check_fault(&rt, rows, columns, number);
    }
}

#[test]
fn making_keeps_the_records(rt: HostRuntime) -> Result<(), Fail> {
    let mut cells = [
        Cell::BLANK,
        Cell {
            number: -5,
            bit: true,
        },
    ];
    let store = FlatStore::new(&mut cells, 2, 1);
    assert_eq!(rt; store.read(1, 0)?, -5);
    assert_eq!(rt; store.bit(1, 0)?, true);
    assert_eq!(rt; store.read(0, 1), Err(Fault::Outside));
    Ok(())
}

#[test]
fn clearing_spares_the_records_beyond(rt: HostRuntime) -> Result<(), Fail> {
    let mut cells = [
        Cell::BLANK,
        Cell::BLANK,
        Cell {
            number: 9,
            bit: true,
        },
    ];
    let mut store = FlatStore::new(&mut cells, 1, 2);
    store.put(0, 1, -2147483648)?;
    assert_eq!(rt; store.bit(0, 1)?, true);
    store.clear();
    assert_eq!(rt;
        cells[1],
        Cell {
            number: -2147483648,
            bit: false,
        }
    );
    assert_eq!(rt;
        cells[2],
        Cell {
            number: 9,
            bit: true,
        }
    );
    Ok(())
}
