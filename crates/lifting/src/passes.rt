// The forward transform and its inverse, in place, over any store and kernel.
ghost use Rattle.std.specs.Prelude.{◌≡◌, false};
ghost use Rattle.wavelets.specs.Lifting.{round};
ghost use Rattle.lifting.specs.Passes.{worked, with_bits, cell_forward, cell_undo, rounds_put, ShowsTheTransform, ShowsTheRoundsBelow, ForwardIsTheTransform, UndoingLeavesTheRoundsBelow};
ghost use Rattle.lifting.specs.Walks.{lattice_puts};

use crate::levels::{LiftLevel, UndoLevel};
use crate::pass::Pass;
use kernels::kernel::Kernel;
use layers::level::LevelLayer;
use planes::level::Level;
use planes::plane::{Plane, Store};

// A pass over the lattice of a level, through the level layer; the cells off the lattice stay.
fn run_round<P: Pass, S: Store, K: Kernel>(store: S, kernel: &K, level: Level) -> S
    ensures does_the_round { S.Plane.picture result ≡ worked (λ R C. round (P.Pass.work (K.Kernel.amounts kernel.now)) R C level.number) (S.Plane.picture store) }
    ensures sets_the_bits_of_what_it_puts { S.Store.bits result ≡ with_bits (lattice_puts P.Pass.puts level.number (S.Plane.picture store).height (S.Plane.picture store).width) (S.Store.bits store) }
    ensures leaves_what_lies_under { S.Store.frame false store result }
{
    let layer = P::run(
        LevelLayer {
            below: store,
            level,
        },
        kernel,
    );
    layer.into_below()
}

// The transform: the rounds of the levels 0 to `level` − 1, in this order.
pub fn forward<S: Store, K: Kernel>(store: S, kernel: &K, level: Level) -> S
    ensures does_the_rounds { S.Plane.picture result ≡ worked (cell_forward (K.Kernel.amounts kernel.now) level.number) (S.Plane.picture store) }
    ensures shows_the_transform_within_the_budget { ShowsTheTransform (K.Kernel.amounts kernel.now) level.number (S.Plane.picture store) (S.Plane.picture result) }
    ensures sets_the_bits_of_what_it_puts { S.Store.bits result ≡ with_bits (rounds_put (S.Plane.picture store).height (S.Plane.picture store).width 0 level.number) (S.Store.bits store) }
    ensures leaves_what_lies_under { S.Store.frame false store result }
{
    let mut store = store;
    for number in 0..level.number {
        store = run_round::<LiftLevel, S, K>(store, kernel, Level { number });
    }
    store
}

// The inverse, as far as a level: the rounds of the levels `from` − 1 down to `down_to` are undone, in this order; none where
// `down_to` is `from` or more.
pub fn inverse<S: Store, K: Kernel>(store: S, kernel: &K, from: Level, down_to: Level) -> S
    ensures undoes_the_rounds { S.Plane.picture result ≡ worked (cell_undo (K.Kernel.amounts kernel.now) from.number down_to.number) (S.Plane.picture store) }
    ensures shows_the_rounds_below_within_the_budget { ShowsTheRoundsBelow (K.Kernel.amounts kernel.now) from.number down_to.number (S.Plane.picture store) (S.Plane.picture result) }
    ensures sets_the_bits_of_what_it_puts { S.Store.bits result ≡ with_bits (rounds_put (S.Plane.picture store).height (S.Plane.picture store).width down_to.number from.number) (S.Store.bits store) }
    ensures leaves_what_lies_under { S.Store.frame false store result }
{
    let mut store = store;
    for number in (down_to.number..from.number).rev() {
        store = run_round::<UndoLevel, S, K>(store, kernel, Level { number });
    }
    store
}

// Where no number on the way is larger in size than 2^31 − 1, the rounds in 32 bits are those of the transform.
pub fn nothing_is_clamped_where_all_results_fit()
    ensures in_the_transform { ForwardIsTheTransform }
    ensures in_undoing_it { UndoingLeavesTheRoundsBelow }
{}
