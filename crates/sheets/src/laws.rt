// What the runs of a sheet are, and how long a sheet is.
ghost use Rattle.sheets.specs.Laws.{TheRunsNameTheChangedCells, NoOtherRunsDo, ASheetHas};

// The runs name exactly the cells whose bits are set, each once and with its number, row by row from left to right. A run has 1 to 16 cells; it
// has 16, or ends where its row ends or where the next bit is unset. No other list of runs is such.
pub fn the_runs_name_the_changed_cells()
    ensures in_runs_of_at_most_sixteen { TheRunsNameTheChangedCells 16 }
    ensures as_no_other_runs_do { NoOtherRunsDo 16 }
{}

// A sheet has 38 bytes, 15 for each run and 8 for each cell.
pub fn a_sheet_has_its_bytes()
    ensures by_its_runs_and_cells { ASheetHas 38 15 8 }
{}
