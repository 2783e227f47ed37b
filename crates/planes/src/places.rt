// Places counted on a lattice and places of the plate, which are two types.
ghost use Rattle.std.specs.Prelude.{◌≡◌, ◌*◌, ◌^◌, ◌<◌, MatchOption};
ghost use Rattle.planes.specs.Places.{OnPlate};

use crate::level::Level;

// A place counted on the lattice of a level.
#[derive(Clone, Copy, PartialEq, Eq, Debug)]
pub struct LatticePlace {
    pub row: usize,
    pub column: usize,
}

// A place of the plate.
#[derive(Clone, Copy, PartialEq, Eq, Debug)]
pub struct PlatePlace {
    pub row: usize,
    pub column: usize,
}

// A row or a column of a lattice, counted on the plate; none where that is no usize.
fn scaled(place: usize, level: Level) -> Option<usize>
    ensures is_multiplied_or_too_large { MatchOption result (place * 2 ^ level.number < 2 ^ 64 → ⊥) (λ n. n ≡ place * 2 ^ level.number) }
{
    place.checked_mul(level.step())
}

impl LatticePlace {
    // The place of the plate on which this one lies: both counts multiplied by 2^k; none where that is too large to count.
    pub fn on_plate(self, level: Level) -> Option<PlatePlace>
        ensures is_multiplied_or_too_large { OnPlate level.number self.row self.column result }
    {
        let row = scaled(self.row, level)?;
        let column = scaled(self.column, level)?;
        Some(PlatePlace { row, column })
    }
}
