// The four steps of lifting, as cases of one type: a sweep is compiled for each.
ghost use Rattle.std.specs.Prelude.{◌≡◌, ◌≤◌, ◌+ℤ◌, ◌-ℤ◌, unsigned_abs};
ghost use Rattle.lifting.specs.Passes.{to_cell, StepRule, amount_of, step_rule};

use kernels::kernel::Kernel;

pub trait Step {
    ghost rule: { StepRule };

    // The parity of the places that the step changes.
    fn parity() -> usize
        ensures is_the_parity { result ≡ rule.parity }
        ensures is_even_or_odd { result ≤ 1 };

    // What the step makes of a number and its two neighbours.
    fn result<K: Kernel>(kernel: &K, number: i32, left: i32, right: i32) -> i32
        ensures is_the_result_as_a_cell { result ≡ to_cell (rule.result (K.Kernel.amounts kernel.now) number left right) };
}

// A number taken back to 32 bits.
pub fn to_cell(number: i64) -> i32
    ensures is_clamped { result ≡ to_cell number }
{
    number.clamp(-2147483648, 2147483647) as i32
}

// The amount of a step at the odd places or at the even ones, whose size the kernel's law bounds.
fn amount<const ODD: bool, K: Kernel>(kernel: &K, left: i32, right: i32) -> i64
    ensures is_the_amount { result ≡ amount_of ODD (K.Kernel.amounts kernel.now) left right }
    ensures is_at_most_the_neighbours { unsigned_abs result ≤ 2147483648 }
{
    if ODD {
        kernel.predict(left, right)
    } else {
        kernel.update(left, right)
    }
}

// The odd places are changed by the predict amount, and the even ones by the update amount; they are lowered by it, or raised.
#[derive(Clone, Copy)]
pub struct Change<const ODD: bool, const LOWERED: bool>;

pub type Predict = Change<true, true>;

pub type Update = Change<false, false>;

pub type UndoUpdate = Change<false, true>;

pub type UndoPredict = Change<true, false>;

impl<const ODD: bool, const LOWERED: bool> Step for Change<ODD, LOWERED> {
    ghost rule = { step_rule ODD LOWERED };

    fn parity() -> usize {
        if ODD { 1 } else { 0 }
    }

    fn result<K: Kernel>(kernel: &K, number: i32, left: i32, right: i32) -> i32 {
        let amount = amount::<ODD, K>(kernel, left, right);
        if LOWERED {
            to_cell(number as i64 - amount)
        } else {
            to_cell(number as i64 + amount)
        }
    }
}
