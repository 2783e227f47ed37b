// The levels, and the sides of their lattices.
ghost use Rattle.std.specs.Prelude.{◌≡◌, ◌^◌, ◌<◌, ◌≤◌, MatchOption};
ghost use Rattle.planes.specs.Lattices.{lattice_side};

// A level from 0 to 5: the lattice of level k has every 2^k-th row and column.
#[derive(Clone, Copy, PartialEq, Eq, PartialOrd, Ord)]
pub struct Level {
    pub number: usize,
    ghost at_most_five: { number ≤ 5 },
}

// 2 to a power.
fn power_of_two(exponent: usize) -> usize
    requires { exponent < 64 }
    ensures is_the_power { result ≡ 2 ^ exponent }
{
    1 << exponent
}

// A count divided by 2 to a power, rounded up.
fn divided_up(count: usize, exponent: usize) -> usize
    requires { exponent < 64 }
    ensures is_the_quotient_rounded_up { result ≡ lattice_side exponent count }
{
    if count == 0 {
        0
    } else {
        ((count - 1) >> exponent) + 1
    }
}

impl Level {
    // The level of a number, if there is such a one.
    pub fn new(number: usize) -> Option<Level>
        ensures is_the_level_up_to_five { MatchOption result (number ≤ 5 → ⊥) (λ level. (number ≤ 5) × (level.number ≡ number)) }
    {
        if number <= 5 {
            Some(Level { number })
        } else {
            None
        }
    }

    // How far apart two neighbouring rows or columns of the lattice are: 2^k.
    pub fn step(self) -> usize
        ensures is_the_power_of_two { result ≡ 2 ^ self.number }
    {
        power_of_two(self.number)
    }

    // How many of a side's rows or columns are on the lattice: the side divided by 2^k, rounded up.
    pub fn side(self, whole: usize) -> usize
        ensures is_the_lattices_side { result ≡ lattice_side self.number whole }
    {
        divided_up(whole, self.number)
    }
}
