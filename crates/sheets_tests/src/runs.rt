// Sheets of flat stores whose numbers fall from 9 by 5, with a mark for each cell.
use planes::cell::Cell;
use planes::flat::FlatStore;
use sheets::frame::Head;
use sheets::sheet::write_sheet;
use std::process::Abort;
use std::test::Fail;

fn mark(cells: &mut [Cell], marks: &[u8]) {
    let mut number = 9i32;
    for (cell, mark) in cells.iter_mut().zip(marks.iter()) {
        *cell = Cell {
            number,
            bit: *mark == b'1',
        };
        number = number.wrapping_sub(5);
    }
}

fn sheet(marks: &[u8], rows: u16, columns: u16, out: &mut [u8]) -> Option<usize> {
    let mut cells = [Cell::BLANK; 40];
    mark(&mut cells, marks);
    let store = FlatStore::new(&mut cells, rows as usize, columns as usize);
    let head = Head {
        issue: 258,
        rows,
        columns,
        top: 772,
        levels: 5,
        code: 6,
    };
    write_sheet(&store, head, out)
}

fn check_sheets(rt: &impl Abort, table: &[(&[u8], u16, u16, &[u8])]) -> Result<(), Fail> {
    for (i, (marks, rows, columns, text)) in table.iter().enumerate() {
        let mut out = [b'.'; 400];
        let length = sheet(marks, *rows, *columns, &mut out).ok_or("no room")?;
        assert_eq!(rt; (i, out.get(0..length)), (i, Some(*text)));
        assert_eq!(rt; (i, out.get(length)), (i, Some(&b'.')));
    }
    Ok(())
}

// None; one; an unset bit; the last column, a row with none, apart from each other; two full rows.
#[test]
fn runs_end_at_unset_bits_and_rows(rt: HostRuntime) -> Result<(), Fail> {
    let table: [(&[u8], u16, u16, &[u8]); 5] = [
        (b"0", 1, 1, b"0101020001000103040506E8\n0300000000FD\n"),
        (
            b"1",
            1,
            1,
            b"0101020001000103040506E8\n02000000000100000009F4\n0300000001FC\n",
        ),
        (
            b"1101",
            1,
            4,
            b"0101020001000403040506E5\n0200000000020000000900000004EF\n020000000301FFFFFFFA03\n0300000003FA\n",
        ),
        (
            b"000100001010",
            3,
            4,
            b"0101020003000403040506E3\n020000000301FFFFFFFA03\n020002000001FFFFFFE11D\n020002000201FFFFFFD725\n0300000003FA\n",
        ),
        (
            b"111111",
            2,
            3,
            b"0101020002000303040506E5\n0200000000030000000900000004FFFFFFFFF2\n020001000003FFFFFFFAFFFFFFF5FFFFFFF024\n0300000006F7\n",
        ),
    ];
    check_sheets(&rt, &table)
}

// 15, 16 and 17 in a row, 19 from the second column on, and two rows of 17.
#[test]
fn runs_end_after_sixteen(rt: HostRuntime) -> Result<(), Fail> {
    let table: [(&[u8], u16, u16, &[u8]); 5] = [
        (
            b"111111111111111000",
            1,
            18,
            b"0101020001001203040506D7\n02000000000F0000000900000004FFFFFFFFFFFFFFFAFFFFFFF5FFFFFFF0FFFFFFEBFFFFFFE6FFFFFFE1FFFFFFDCFFFFFFD7FFFFFFD2FFFFFFCDFFFFFFC8FFFFFFC39C\n030000000FEE\n",
        ),
        (
            b"11111111111111110",
            1,
            17,
            b"0101020001001103040506D8\n0200000000100000000900000004FFFFFFFFFFFFFFFAFFFFFFF5FFFFFFF0FFFFFFEBFFFFFFE6FFFFFFE1FFFFFFDCFFFFFFD7FFFFFFD2FFFFFFCDFFFFFFC8FFFFFFC3FFFFFFBEE0\n0300000010ED\n",
        ),
        (
            b"11111111111111111",
            1,
            17,
            b"0101020001001103040506D8\n0200000000100000000900000004FFFFFFFFFFFFFFFAFFFFFFF5FFFFFFF0FFFFFFEBFFFFFFE6FFFFFFE1FFFFFFDCFFFFFFD7FFFFFFD2FFFFFFCDFFFFFFC8FFFFFFC3FFFFFFBEE0\n020000001001FFFFFFB937\n0300000011EC\n",
        ),
        (
            b"01111111111111111111",
            1,
            20,
            b"0101020001001403040506D5\n02000000011000000004FFFFFFFFFFFFFFFAFFFFFFF5FFFFFFF0FFFFFFEBFFFFFFE6FFFFFFE1FFFFFFDCFFFFFFD7FFFFFFD2FFFFFFCDFFFFFFC8FFFFFFC3FFFFFFBEFFFFFFB932\n020000001103FFFFFFB4FFFFFFAFFFFFFFAAE6\n0300000013EA\n",
        ),
        (
            b"1111111111111111111111111111111111",
            2,
            17,
            b"0101020002001103040506D7\n0200000000100000000900000004FFFFFFFFFFFFFFFAFFFFFFF5FFFFFFF0FFFFFFEBFFFFFFE6FFFFFFE1FFFFFFDCFFFFFFD7FFFFFFD2FFFFFFCDFFFFFFC8FFFFFFC3FFFFFFBEE0\n020000001001FFFFFFB937\n020001000010FFFFFFB4FFFFFFAFFFFFFFAAFFFFFFA5FFFFFFA0FFFFFF9BFFFFFF96FFFFFF91FFFFFF8CFFFFFF87FFFFFF82FFFFFF7DFFFFFF78FFFFFF73FFFFFF6EFFFFFF6935\n020001001001FFFFFF648B\n0300000022DB\n",
        ),
    ];
    check_sheets(&rt, &table)
}

#[test]
fn a_sheet_wants_exactly_its_room(rt: HostRuntime) {
    let mut short = [b'.'; 60];
    assert_eq!(rt; sheet(b"1", 1, 1, &mut short), None);
    assert_eq!(rt; short, [b'.'; 60]);
    let mut exact = [b'.'; 61];
    assert_eq!(rt; sheet(b"1", 1, 1, &mut exact), Some(61));
}
