// The 5/3 kernel of JPEG 2000, code 1.
ghost use Rattle.std.specs.Prelude.{◌≡◌, pos, ◌+ℤ◌};
ghost use Rattle.wavelets.specs.Lifting.{five_three};
ghost use Rattle.wavelets.proofs.Growth.{five_three_lawful};
ghost use Rattle.std.proofs.Common.{rules};

use crate::kernel::Kernel;

#[derive(Clone, Copy, PartialEq, Eq, Debug)]
pub struct FiveThree;

// The sum of two neighbours, and 2 more, by which a quarter of it is rounded to the nearest.
fn rounded_sum(left: i32, right: i32) -> i64
    ensures is_two_more { result ≡ left +ℤ right +ℤ pos 2 }
{
    left as i64 + right as i64 + 2
}

impl Kernel for FiveThree {
    ghost amounts = { λ _. five_three };

    ghost code = { λ _. 1 };

    ghost lawful = { λ k. five_three_lawful };

    ghost coded = { Prim.search rules };

    fn predict(&self, left: i32, right: i32) -> i64 {
        (left as i64 + right as i64) >> 1
    }

    fn update(&self, left: i32, right: i32) -> i64 {
        let sum = rounded_sum(left, right);
        sum >> 2
    }

    fn code(&self) -> u8 {
        1
    }
}
