// The frames of a sheet.
ghost use Rattle.std.specs.Prelude.{◌≡◌, ◌+◌, ◌*◌, ◌^◌, ◌<◌, ◌≤◌, length};
ghost use Rattle.frames.specs.Frames.{over};
ghost use Rattle.sheets.specs.Runs.{Inside};
ghost use Rattle.sheets.specs.Sheets.{head_frame, number_bytes, run_head as head_of_run, run_frame as frame_of_run, end_frame as frame_of_end};

use crate::runs::Run;
use frames::{four_bytes, two_bytes};
use planes::plane::{Plane, Store};

// What a sheet says of its plate: the issue, the rows and columns, the top, the levels and the kernel's code.
#[derive(Clone, Copy, PartialEq, Eq, Debug)]
pub struct Head {
    pub issue: u16,
    pub rows: u16,
    pub columns: u16,
    pub top: u16,
    pub levels: u8,
    pub code: u8,
}

impl Head {
    // 01, issue, rows, columns, top, levels and code.
    pub(crate) fn frame(self) -> [u8; 11]
        ensures is_the_heads_frame { result ≡ head_frame self }
    {
        let [i1, i0] = self.issue.to_be_bytes();
        let [r1, r0] = self.rows.to_be_bytes();
        let [c1, c0] = self.columns.to_be_bytes();
        let [p1, p0] = self.top.to_be_bytes();
        [1, i1, i0, r1, r0, c1, c0, p1, p0, self.levels, self.code]
    }
}

// 03 and the number of cells.
pub(crate) fn end_frame(cells: usize) -> [u8; 5]
    ensures is_the_ends_frame { result ≡ frame_of_end cells }
{
    let [n3, n2, n1, n0] = four_bytes(cells);
    [3, n3, n2, n1, n0]
}

// 02, row, first column and count.
fn run_head(run: Run) -> [u8; 6]
    requires { run.count ≤ 16 }
    ensures is_the_runs_head { result ≡ head_of_run run }
{
    let [r1, r0] = two_bytes(run.row);
    let [c1, c0] = two_bytes(run.first);
    [2, r1, r0, c1, c0, run.count as u8]
}

// A cell's number, in two's complement.
fn cell_bytes(number: i32) -> [u8; 4]
    ensures are_its_bytes { result ≡ number_bytes number }
{
    number.to_be_bytes()
}

// The number at a place inside.
fn number_at<S: Store>(store: &S, row: usize, column: usize) -> i32
    requires a_row { row < (S.Plane.picture store.now).height }
    requires a_column { column < (S.Plane.picture store.now).width }
    ensures is_the_number { result ≡ (S.Plane.picture store.now).number row column }
{
    store.read(row, column).unwrap()
}

// Writes bytes into a frame from a place on.
fn put(frame: &mut [u8], at: usize, bytes: &[u8])
    requires { at + length bytes.now ≤ length frame.old }
    ensures writes_the_bytes { frame.new ≡ over frame.old at bytes.now }
{
    frame[at..at + bytes.len()].copy_from_slice(bytes);
}

// Writes the frame of a run: 02, row, first column, count, and the numbers of its cells.
pub(crate) fn fill_frame<S: Store>(store: &S, run: Run, frame: &mut [u8])
    requires inside { Inside (S.Plane.picture store.now).height (S.Plane.picture store.now).width run }
    requires its_end { run.first + run.count < 2 ^ 64 }
    requires room { 6 + 4 * run.count ≤ length frame.old }
    ensures writes_the_frame { frame.new ≡ over frame.old 0 (frame_of_run (S.Plane.picture store.now).number run) }
{
    put(frame, 0, &run_head(run));
    for i in 0..run.count {
        let number = number_at(store, run.row, run.first + i);
        put(frame, 6 + 4 * i, &cell_bytes(number));
    }
}
