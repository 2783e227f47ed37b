// Copying rectangles out.
use planes::cell::Cell;
use planes::copy::copy_out;
use planes::flat::FlatStore;
use planes::rectangle::Rectangle;

// The plane of 3 rows and 4 columns with the numbers 0 to 11.
fn numbered() -> [Cell; 12] {
    [0, 1, 2, 3, 4, 5, 6, 7, 8, 9, 10, 11].map(|number| Cell { number, bit: false })
}

// First row, first column, height, width; the output's length; the fault's number, or 0; the output of -1s afterwards.
const COPIES: [(usize, usize, usize, usize, usize, u8, [i32; 6]); 12] = [
    (0, 0, 1, 1, 6, 0, [0, -1, -1, -1, -1, -1]),
    (1, 1, 2, 3, 6, 0, [5, 6, 7, 9, 10, 11]),
    (2, 0, 1, 4, 5, 0, [8, 9, 10, 11, -1, -1]),
    (0, 3, 3, 1, 3, 0, [3, 7, 11, -1, -1, -1]),
    (0, 0, 0, 1, 6, 10, [-1; 6]),
    (0, 0, 1, 0, 6, 10, [-1; 6]),
    (3, 0, 1, 1, 6, 10, [-1; 6]),
    (0, 2, 1, 3, 6, 10, [-1; 6]),
    (18446744073709551615, 0, 2, 1, 6, 10, [-1; 6]),
    (0, 1, 1, 18446744073709551615, 6, 10, [-1; 6]),
    (2, 3, 2, 2, 0, 10, [-1; 6]),
    (1, 1, 2, 3, 5, 15, [-1; 6]),
];

#[test]
fn rectangles_are_copied_or_declined(rt: HostRuntime) {
    for (first_row, first_column, height, width, room, number, expected) in COPIES {
        let mut cells = numbered();
        let mut output = [-1i32; 6];
        assert!(rt; room <= 6);
        let rectangle = Rectangle {
            first_row,
            first_column,
            height,
            width,
        };
        let answer = match copy_out(
            &FlatStore::new(&mut cells, 3, 4),
            rectangle,
            &mut output[0..room],
        ) {
            Ok(()) => 0,
            Err(fault) => fault.number(),
        };
        assert_eq!(rt; answer, number);
        assert_eq!(rt; output, expected);
    }
}
