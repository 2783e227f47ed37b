// The kernel of the S-transform, code 2.
ghost use Rattle.wavelets.specs.Lifting.{s_transform};
ghost use Rattle.wavelets.proofs.Growth.{s_transform_lawful};
ghost use Rattle.std.proofs.Common.{rules};

use crate::kernel::Kernel;

#[derive(Clone, Copy, PartialEq, Eq, Debug)]
pub struct STransform;

impl Kernel for STransform {
    ghost amounts = { λ _. s_transform };

    ghost code = { λ _. 2 };

    ghost lawful = { λ k. s_transform_lawful };

    ghost coded = { Prim.search rules };

    fn predict(&self, left: i32, _right: i32) -> i64 {
        left as i64
    }

    fn update(&self, _left: i32, right: i32) -> i64 {
        right as i64 >> 1
    }

    fn code(&self) -> u8 {
        2
    }
}
