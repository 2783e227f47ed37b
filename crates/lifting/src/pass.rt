// A pass over a whole plane, as a type, and one pass after another.
ghost use Rattle.std.specs.Prelude.{◌≡◌, ℕ, Bool, false, ◌||◌};
ghost use Rattle.planes.specs.Planes.{Cells};
ghost use Rattle.wavelets.specs.Lifting.{Amounts, PlaneWork};
ghost use Rattle.lifting.specs.Passes.{worked, with_bits};

use kernels::kernel::Kernel;
use planes::plane::{Plane, Store};

// The store comes and goes by value, so that its fields can stay in registers while the pass runs.
pub trait Pass {
    // What the pass makes of the numbers.
    ghost work: { Amounts → PlaneWork };

    // The places of an R × C plane that it puts.
    ghost puts: { ℕ → ℕ → Cells Bool };

    fn run<S: Store, K: Kernel>(store: S, kernel: &K) -> S
        ensures does_the_work { S.Plane.picture result ≡ worked (work (K.Kernel.amounts kernel.now)) (S.Plane.picture store) }
        ensures sets_the_bits_of_what_it_puts { S.Store.bits result ≡ with_bits (puts (S.Plane.picture store).height (S.Plane.picture store).width) (S.Store.bits store) }
        ensures leaves_what_lies_under { S.Store.frame false store result };
}

// The pass F, and after it the pass G.
#[derive(Clone, Copy)]
pub struct Then<F, G>(F, G);

impl<F: Pass, G: Pass> Pass for Then<F, G> {
    ghost work = { λ K R C x. G.Pass.work K R C (F.Pass.work K R C x) };

    ghost puts = { λ R C r c. G.Pass.puts R C r c || F.Pass.puts R C r c };

    fn run<S: Store, K: Kernel>(store: S, kernel: &K) -> S {
        G::run(F::run(store, kernel), kernel)
    }
}
