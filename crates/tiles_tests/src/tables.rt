// Tables of sides, lengths, slot numbers and bytes.
use faults::fault::{Fault, Layer};
use planes::plane::{Plane, Store};
use std::alloc::Global;
use std::process::Abort;
use std::test::Fail;
use tile_bytes::header::write_slot;
use tiles::file::TileFile;
use tiles::formatting::format;
use tiles::opening::fault;
use tiles::view::TileView;

// Rows, columns, and the number of tiles.
const SIDES: [(usize, usize, usize); 9] = [
    (1, 1, 1),
    (15, 17, 2),
    (16, 16, 1),
    (16, 15, 1),
    (17, 16, 2),
    (17, 17, 4),
    (1, 4096, 256),
    (4096, 1, 256),
    (4096, 4096, 65536),
];

// A file of these sides has exactly so many tiles; it is blank, and keeps a number put into its last cell.
fn check_sides(
    rt: &impl Abort,
    heap: Global,
    rows: usize,
    columns: usize,
    tiles: usize,
) -> Result<(), Fail> {
    assert!(rt; rows > 0 && columns > 0 && tiles <= 65536);
    let mut short = vec![in heap; 1u8; 3 + 1058 * tiles]?;
    assert_eq!(rt; format(&mut short, rows, columns), Err(Fault::StoreShort));
    assert_eq!(rt;
        (short.iter().min(), short.iter().max()),
        (Some(&1u8), Some(&1u8))
    );
    let mut bytes = vec![in heap; 1u8; 4 + 1058 * tiles]?;
    format(&mut bytes, rows, columns)?;
    assert_eq!(rt; fault(&bytes), None);
    let mut file = TileFile::open(bytes);
    assert_eq!(rt; (file.rows(), file.columns()), (rows, columns));
    assert_eq!(rt; file.read(rows - 1, columns - 1)?, 0);
    assert_eq!(rt; file.bit(rows - 1, columns - 1)?, false);
    assert_eq!(rt; file.put(rows - 1, columns, 1), Err(Fault::Outside));
    file.put(rows - 1, columns - 1, -2147483648)?;
    let bytes = file.into_bytes();
    let view = TileView::open(&bytes);
    assert_eq!(rt; view.read(rows - 1, columns - 1)?, -2147483648);
    assert_eq!(rt; view.read(rows, 0), Err(Fault::Outside));
    Ok(())
}

#[test]
fn sides_have_their_tiles(rt: HostRuntime) -> Result<(), Fail> {
    for (rows, columns, tiles) in SIDES {
        check_sides(&rt, rt.alloc(), rows, columns, tiles)?;
    }
    let mut bytes = [0u8; 1062];
    let size = Fault::Size(Layer::Plane);
    assert_eq!(rt; format(&mut bytes, 0, 1), Err(size));
    assert_eq!(rt; format(&mut bytes, 1, 4097), Err(size));
    assert_eq!(rt; format(&mut bytes, 65537, 1), Err(size));
    Ok(())
}

// Slot numbers of four tiles, and the index of the first bad one, or 4.
const SLOTS: [([u16; 4], usize); 7] = [
    ([0, 1, 2, 3], 4),
    ([3, 1, 0, 2], 4),
    ([0, 1, 2, 4], 3),
    ([0, 0, 2, 3], 1),
    ([1, 2, 3, 1], 3),
    ([65535, 0, 0, 0], 0),
    ([2, 256, 2, 1], 1),
];

fn check_slots(
    rt: &impl Abort,
    heap: Global,
    [a, b, c, d]: [u16; 4],
    bad: usize,
) -> Result<(), Fail> {
    let mut bytes = vec![in heap; 0u8; 4236]?;
    format(&mut bytes, 17, 32)?;
    write_slot(&mut bytes, 0, a);
    write_slot(&mut bytes, 1, b);
    write_slot(&mut bytes, 2, c);
    write_slot(&mut bytes, 3, d);
    let found = (bad < 4).then_some(Fault::Slot(bad));
    assert_eq!(rt; fault(&bytes), found);
    assert_eq!(rt; TileView::open(&bytes).rows(), if bad < 4 { 0 } else { 17 });
    Ok(())
}

// Cut at every length below 200, a file of one cell is too short, and one that begins with no rows has a bad side from four bytes on.
#[test]
fn slots_and_lengths_are_judged(rt: HostRuntime) -> Result<(), Fail> {
    for (slots, bad) in SLOTS {
        check_slots(&rt, rt.alloc(), slots, bad)?;
    }
    let mut bytes = [0u8; 1062];
    let none = [0u8; 200];
    format(&mut bytes, 1, 1)?;
    for length in 0..200 {
        assert_eq!(rt; fault(&bytes[0..length]), Some(Fault::StoreShort));
        let empty = if length < 4 {
            Fault::StoreShort
        } else {
            Fault::Size(Layer::Plane)
        };
        assert_eq!(rt; fault(&none[0..length]), Some(empty));
    }
    Ok(())
}

// Bytes without a pattern, after the head of 17 × 18 with its tiles in the slots 2, 0, 3 and 1.
fn filled(rt: &impl Abort, heap: Global) -> Result<Vec<u8>, Fail> {
    let mut bytes = vec![in heap; 0u8; 4240]?;
    for (i, byte) in bytes.iter_mut().enumerate() {
        *byte = (i.wrapping_mul(89) % 253) as u8;
    }
    for (i, byte) in [0u8, 17, 0, 18, 0, 2, 0, 0, 0, 3, 0, 1].iter().enumerate() {
        assert!(rt; i < bytes.len());
        bytes[i] = *byte;
    }
    Ok(bytes)
}

// A row, a column, a number, where its four bytes and the byte of its bit lie, and the bit's weight.
const PUTS: [(usize, usize, i32, [u8; 4], usize, usize, u8); 4] = [
    (0, 0, 1, [0, 0, 0, 1], 2124, 3148, 1),
    (0, 17, -2, [255, 255, 255, 254], 16, 1036, 2),
    (16, 15, 66051, [0, 1, 2, 3], 3240, 4205, 128),
    (16, 17, -16909061, [254, 253, 252, 251], 1072, 2092, 2),
];

// Every byte of the file after a put: five are new, and all others as they were.
fn check_put(
    rt: &impl Abort,
    heap: Global,
    put: (usize, usize, i32, [u8; 4], usize, usize, u8),
) -> Result<(), Fail> {
    let (row, column, number, digits, at, mark, weight) = put;
    let mut expected = filled(rt, heap)?;
    assert!(rt; at < 4200 && mark < 4240 && expected.len() == 4240);
    expected[at] = digits[0];
    expected[at + 1] = digits[1];
    expected[at + 2] = digits[2];
    expected[at + 3] = digits[3];
    expected[mark] = expected[mark] | weight;
    let mut file = TileFile::open(filled(rt, heap)?);
    file.put(row, column, number)?;
    assert_eq!(rt; file.read(row, column)?, number);
    assert_eq!(rt; file.into_bytes().as_slice(), expected.as_slice());
    Ok(())
}

#[test]
fn a_put_changes_five_bytes(rt: HostRuntime) -> Result<(), Fail> {
    for put in PUTS {
        check_put(&rt, rt.alloc(), put)?;
    }
    Ok(())
}

// Clearing sets the last 32 bytes of each slot to 0.
#[test]
fn clearing_empties_every_byte_of_bits(rt: HostRuntime) -> Result<(), Fail> {
    let mut expected = filled(&rt, rt.alloc())?;
    for slot in 0..4 {
        let bits = 12 + 1056 * slot + 1024;
        assert!(rt; bits + 32 <= expected.len());
        expected[bits..bits + 32].fill(0);
    }
    let mut file = TileFile::open(filled(&rt, rt.alloc())?);
    file.clear();
    assert_eq!(rt; file.into_bytes().as_slice(), expected.as_slice());
    Ok(())
}
