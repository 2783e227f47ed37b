// A kernel that is chosen at run time.
ghost use Rattle.kernels.specs.Choices.{choice_amounts, choice_code};
ghost use Rattle.std.proofs.Common.{rules};

use crate::five_three::FiveThree;
use crate::kernel::Kernel;
use crate::s_transform::STransform;

#[derive(Clone, Copy, PartialEq, Eq, Debug)]
pub enum KernelChoice {
    FiveThree,
    STransform,
}

impl Kernel for KernelChoice {
    ghost amounts = { choice_amounts };

    ghost code = { choice_code };

    ghost lawful = { Prim.search rules };

    ghost coded = { Prim.search rules };

    fn predict(&self, left: i32, right: i32) -> i64 {
        match self {
            KernelChoice::FiveThree => FiveThree.predict(left, right),
            KernelChoice::STransform => STransform.predict(left, right),
        }
    }

    fn update(&self, left: i32, right: i32) -> i64 {
        match self {
            KernelChoice::FiveThree => FiveThree.update(left, right),
            KernelChoice::STransform => STransform.update(left, right),
        }
    }

    fn code(&self) -> u8 {
        match self {
            KernelChoice::FiveThree => FiveThree.code(),
            KernelChoice::STransform => STransform.code(),
        }
    }
}
