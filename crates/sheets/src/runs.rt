// The runs of a row: cells next to each other whose bits are set, at most 16.
ghost use Rattle.std.specs.Prelude.{◌≡◌, ◌+◌, ◌^◌, ◌<◌, ◌≤◌, ◌++◌};
ghost use Rattle.std.specs.Option.{option_to_list};
ghost use Rattle.sheets.specs.Runs.{is_cut as cut, part as part_of, still_begun, ended as run_ended, begun_before, row_runs, runs_left};

use planes::plane::{Plane, Store};

// A run of cells of one row: its first column, and how many there are.
#[derive(Clone, Copy)]
pub struct Run {
    pub row: usize,
    pub first: usize,
    pub count: usize,
}

// What a cell is to the runs of its row: in none, in one that goes on, or the last of one.
#[derive(Clone, Copy)]
pub enum Part {
    Out,
    Inner,
    Last,
}

impl Part {
    // How many cells of a run lie before the next column.
    fn still_begun(self, begun: usize) -> usize
        requires { begun ≤ 15 }
        ensures is_one_more_inside_a_run { result ≡ still_begun self begun }
    {
        match self {
            Part::Out | Part::Last => 0,
            Part::Inner => begun + 1,
        }
    }

    // The run that ends at a cell, if one does.
    fn ended(self, row: usize, column: usize, begun: usize) -> Option<Run>
        requires in_the_row { begun ≤ column }
        requires a_few { begun ≤ 15 }
        ensures is_the_run_that_ends_here { result ≡ run_ended self row column begun }
    {
        match self {
            Part::Last => Some(Run {
                row,
                first: column - begun,
                count: begun + 1,
            }),
            Part::Out | Part::Inner => None,
        }
    }
}

// The runs of a row of a store, from left to right. Left are those that end at `column` or behind it; before it lie `begun` cells of a run that
// goes on, or none.
#[derive(Drop)]
pub(crate) struct Runs<'a, S: Store> {
    pub(crate) store: &'a S,
    row: usize,
    columns: usize,
    column: usize,
    begun: usize,
    ghost a_row: { row < (S.Plane.picture store.now).height },
    ghost all_columns: { columns ≡ (S.Plane.picture store.now).width },
    ghost in_the_row: { column ≤ columns },
    ghost so_many_begun: { begun ≡ begun_before (S.Store.bits store.now row) columns column },
}

impl<'a, S: Store> Runs<'a, S> {
    // All runs of a row.
    pub(crate) fn of(store: &'a S, row: usize) -> Runs<'a, S>
        requires { row < (S.Plane.picture store.now).height }
        ensures are_the_rows_runs { runs_left (S.Store.bits result.store.now) result.row result.columns result.column
            ≡ row_runs (S.Store.bits store.now row) row (S.Plane.picture store.now).width (S.Plane.picture store.now).width }
        ensures is_of_the_store { result.store.now ≡ store.now }
    {
        Runs {
            store,
            row,
            columns: store.columns(),
            column: 0,
            begun: 0,
        }
    }

    // The bit of a place of the row.
    fn bit(&self, column: usize) -> bool
        requires { column < self.now.columns }
        ensures is_the_bit { result ≡ S.Store.bits self.now.store.now self.now.row column }
    {
        self.store.bit(self.row, column).unwrap()
    }

    // Whether the run at the column is cut behind it.
    fn is_cut(&self) -> bool
        requires { self.now.column < self.now.columns }
        ensures is_cut_as_ruled { result ≡ cut self.now.begun (S.Store.bits self.now.store.now self.now.row) self.now.columns self.now.column }
    {
        self.begun == 15 || self.column + 1 == self.columns || !self.bit(self.column + 1)
    }

    // What the cell at the column is to the runs of the row.
    fn part(&self) -> Part
        requires { self.now.column < self.now.columns }
        ensures is_its_part { result ≡ part_of self.now.begun (S.Store.bits self.now.store.now self.now.row) self.now.columns self.now.column }
    {
        if !self.bit(self.column) {
            Part::Out
        } else if self.is_cut() {
            Part::Last
        } else {
            Part::Inner
        }
    }

    // Passes the cell at the column, and answers the run that ends there, if one does.
    fn pass(&mut self) -> Option<Run>
        requires { self.old.column < self.old.columns }
        ensures answers_what_ended { runs_left (S.Store.bits self.old.store.now) self.old.row self.old.columns self.old.column
            ≡ option_to_list result ++ runs_left (S.Store.bits self.new.store.now) self.new.row self.new.columns self.new.column }
        ensures passes_one_column { self.new.column ≡ self.old.column + 1 }
        ensures keeps_the_columns { self.new.columns ≡ self.old.columns }
    {
        let part = self.part();
        let ended = part.ended(self.row, self.column, self.begun);
        self.begun = part.still_begun(self.begun);
        self.column += 1;
        ended
    }
}

impl<'a, S: Store> Iterator for Runs<'a, S> {
    ghost use Rattle.std.specs.Iterator.{YieldsFirst, item_count};

    type Item = Run;

    ghost next_gives = { YieldsFirst (λ s. runs_left (S.Store.bits s.store.now) s.row s.columns s.column) };

    ghost remaining = { item_count (λ s. runs_left (S.Store.bits s.store.now) s.row s.columns s.column) };

    fn next(&mut self) -> Option<Run> {
        while self.column < self.columns {
            let ended = self.pass();
            if ended.is_some() {
                return ended;
            }
        }
        None
    }
}
