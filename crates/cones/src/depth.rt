// The depth of a cell.
ghost use Rattle.std.specs.Prelude.{◌≡◌};
ghost use Rattle.wavelets.specs.Lifting.{on};
ghost use Rattle.wavelets.specs.Cone.{depth};

use planes::level::Level;

// Whether a cell is on the lattice of a level.
pub fn is_on(level: Level, row: usize, column: usize) -> bool
    ensures is_on_the_lattice { result ≡ on level.number row column }
{
    let step = level.step();
    row % step == 0 && column % step == 0
}

// The largest level, up to the number of levels, on whose lattice a cell is.
pub fn depth_of(levels: Level, row: usize, column: usize) -> Level
    ensures is_the_depth { result.number ≡ depth levels.number row column }
{
    for number in 0..levels.number {
        if !is_on(Level { number: number + 1 }, row, column) {
            return Level { number };
        }
    }
    levels // the cell is on every lattice
}
