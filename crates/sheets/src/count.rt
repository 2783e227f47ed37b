// How many runs and cells a sheet has.
ghost use Rattle.std.specs.Prelude.{◌≡◌, ◌+◌, ◌*◌, ◌^◌, ◌<◌, length, nat_le};
ghost use Rattle.std.specs.List.{flat_map};
ghost use Rattle.sheets.specs.Runs.{named_by, runs_left, runs as runs_of};
ghost use Rattle.sheets.specs.Sheets.{changed_of};

use crate::runs::{Run, Runs};
use planes::plane::{Plane, Store};

#[derive(Clone, Copy)]
pub struct Counts {
    pub runs: u128,
    pub cells: u128,
}

impl Counts {
    const NONE: Counts = Counts { runs: 0, cells: 0 };

    // With one run more.
    fn with(self, run: Run) -> Counts
        requires runs { self.runs < 2 ^ 64 }
        requires cells { self.cells < 2 ^ 64 }
        ensures counts_the_run { result.runs ≡ self.runs + 1 }
        ensures counts_its_cells { result.cells ≡ self.cells + run.count }
    {
        Counts {
            runs: self.runs + 1,
            cells: self.cells + run.count as u128,
        }
    }

    // Whether a sheet of this many runs and cells has at most so many bytes.
    pub(crate) fn fit(self, room: usize) -> bool
        ensures tells_whether_the_sheet_fits { result ≡ nat_le (38 + 15 * self.runs + 8 * self.cells) room }
    {
        let room = room as u128;
        self.runs <= room && self.cells <= room && 38 + 15 * self.runs + 8 * self.cells <= room
    }
}

// The runs that are left of a row, and their cells.
fn count_row<S: Store>(runs: Runs<'_, S>) -> Counts
    ensures counts_the_runs { result.runs ≡ length (runs_left (S.Store.bits runs.entry.store.now) runs.entry.row runs.entry.columns runs.entry.column) }
    ensures counts_the_cells { result.cells ≡ length (flat_map (named_by (S.Plane.picture runs.entry.store.now).number)
        (runs_left (S.Store.bits runs.entry.store.now) runs.entry.row runs.entry.columns runs.entry.column)) }
    ensures has_few_runs { result.runs < 2 ^ 64 }
    ensures has_few_cells { result.cells < 2 ^ 64 }
{
    let mut counts = Counts::NONE;
    for run in runs {
        counts = counts.with(run);
    }
    counts
}

// The runs and the cells of a whole sheet; every such number has a place in 128 bits.
pub(crate) fn count_rows<S: Store>(store: &S) -> Counts
    ensures counts_the_runs { result.runs ≡ length (runs_of (S.Store.bits store.now) (S.Plane.picture store.now).height (S.Plane.picture store.now).width) }
    ensures counts_the_cells { result.cells ≡ length (changed_of S.Plane S.Store.own store.now) }
{
    let mut counts = Counts::NONE;
    for row in 0..store.rows() {
        let more = count_row(Runs::of(store, row));
        counts = Counts {
            runs: counts.runs + more.runs,
            cells: counts.cells + more.cells,
        };
    }
    counts
}
