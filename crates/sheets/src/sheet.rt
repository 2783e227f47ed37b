// Writing a sheet.
ghost use Rattle.std.specs.Prelude.{◌≡◌, ◌+◌, ◌*◌, ◌^◌, ◌<◌, ◌≤◌, length, IfSome};
ghost use Rattle.frames.specs.Frames.{over, frame_line};
ghost use Rattle.sheets.specs.Runs.{Inside};
ghost use Rattle.sheets.specs.declared.frame.Head.{Head};
ghost use Rattle.sheets.specs.Sheets.{run_line, changed_of, lines_left, all_lines, sheet_of, HasRoom, Writes};

use crate::count::count_rows;
use crate::frame::{Head, end_frame, fill_frame};
use crate::runs::{Run, Runs};
use frames::write_line;
use planes::plane::{Plane, Store};

// Writes the line of a frame that is known to have room, and answers where it ends.
fn put_line(out: &mut [u8], at: usize, frame: &[u8]) -> usize
    requires { at + (2 * length frame.now + 3) ≤ length out.old }
    ensures writes_the_line { out.new ≡ over out.old at (frame_line frame.now) }
    ensures answers_its_end { result ≡ at + (2 * length frame.now + 3) }
{
    write_line(out, at, frame).unwrap()
}

// Writes the line of a run that is known to have room, and answers where it ends.
fn write_run<S: Store>(store: &S, run: Run, out: &mut [u8], at: usize) -> usize
    requires inside { Inside (S.Plane.picture store.now).height (S.Plane.picture store.now).width run }
    requires its_end { run.first + run.count < 2 ^ 64 }
    requires room { at + (15 + 8 * run.count) ≤ length out.old }
    ensures writes_the_line { out.new ≡ over out.old at (run_line (S.Plane.picture store.now).number run) }
    ensures answers_its_end { result ≡ at + (15 + 8 * run.count) }
{
    let mut frame = [0u8; 70];
    fill_frame(store, run, &mut frame);
    put_line(out, at, &frame[0..6 + 4 * run.count])
}

// Writes the lines of the runs that are left of a row, which are known to have room, and answers where they end.
fn write_row<S: Store>(runs: Runs<'_, S>, out: &mut [u8], start: usize) -> usize
    requires room { start + length (lines_left S.Plane S.Store.own runs.store.now runs.row runs.columns runs.column) ≤ length out.old }
    ensures writes_their_lines { out.new ≡ over out.old start (lines_left S.Plane S.Store.own runs.entry.store.now runs.entry.row runs.entry.columns runs.entry.column) }
    ensures answers_their_end { result ≡ start + length (lines_left S.Plane S.Store.own runs.entry.store.now runs.entry.row runs.entry.columns runs.entry.column) }
{
    let store = runs.store;
    let mut at = start;
    for run in runs {
        at = write_run(store, run, out, at);
    }
    at
}

// Writes the lines of all runs, which are known to have room, and answers where they end.
fn write_rows<S: Store>(store: &S, out: &mut [u8], start: usize) -> usize
    requires { start + length (all_lines S.Plane S.Store.own store.now) ≤ length out.old }
    ensures writes_the_lines { out.new ≡ over out.old start (all_lines S.Plane S.Store.own store.now) }
    ensures answers_their_end { result ≡ start + length (all_lines S.Plane S.Store.own store.now) }
{
    let mut at = start;
    for row in 0..store.rows() {
        at = write_row(Runs::of(store, row), out, at);
    }
    at
}

// How many cells the sheet of a store has, if it has at most so many bytes.
fn cells_that_fit<S: Store>(store: &S, room: usize) -> Option<usize>
    ensures tells_whether_there_is_room { (head : Head) → HasRoom (sheet_of S.Plane S.Store.own store.now head) room result }
    ensures counts_the_changed_cells { IfSome result (λ n. n ≡ length (changed_of S.Plane S.Store.own store.now)) }
{
    let counts = count_rows(store);
    if counts.fit(room) {
        Some(counts.cells as usize)
    } else {
        None
    }
}

// Writes the sheet of so many cells, which is known to have room, and answers its length.
fn put_sheet<S: Store>(store: &S, head: Head, cells: usize, out: &mut [u8]) -> usize
    requires room { length (sheet_of S.Plane S.Store.own store.now head) ≤ length out.old }
    requires its_cells { cells ≡ length (changed_of S.Plane S.Store.own store.now) }
    ensures writes_the_sheet { out.new ≡ over out.old 0 (sheet_of S.Plane S.Store.own store.now head) }
    ensures answers_its_length { result ≡ length (sheet_of S.Plane S.Store.own store.now head) }
{
    let at = put_line(out, 0, &head.frame());
    let at = write_rows(store, out, at);
    put_line(out, at, &end_frame(cells))
}

// Writes the sheet of a store's changed cells into the front of an output, and answers its length; none where it is longer than the
// output, and then nothing is written.
pub fn write_sheet<S: Store>(store: &S, head: Head, out: &mut [u8]) -> Option<usize>
    ensures writes_the_sheet_where_it_fits { Writes (sheet_of S.Plane S.Store.own store.now head) out.old out.new result }
{
    let cells = cells_that_fit(store, out.len())?;
    Some(put_sheet(store, head, cells, out))
}
