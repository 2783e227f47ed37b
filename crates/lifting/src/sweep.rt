// One step of lifting on every line of a direction, row by row.
ghost use Rattle.std.specs.Prelude.{◌≡◌, true, false};
ghost use Rattle.planes.specs.Planes.{Within, written, marked};
ghost use Rattle.lifting.specs.Passes.{swept};
ghost use Rattle.lifting.specs.Walks.{changes, changed};

use crate::axis::Axis;
use crate::pass::Pass;
use crate::step::Step;
use kernels::kernel::Kernel;
use planes::places::LatticePlace;
use planes::plane::{Plane, Store};

// The number at a place inside.
fn number_at<P: Plane>(plane: &P, at: LatticePlace) -> i32
    requires { Within (P.Plane.picture plane.now) at.row at.column }
    ensures is_the_number { result ≡ (P.Plane.picture plane.now).number at.row at.column }
{
    plane.read(at.row, at.column).unwrap()
}

// What the step makes of a place that it changes.
fn result_at<P: Plane, K: Kernel, A: Axis, T: Step>(plane: &P, kernel: &K, at: LatticePlace) -> i32
    requires { changes A.Axis.direction T.Step.rule.parity (P.Plane.picture plane.now).height (P.Plane.picture plane.now).width at.row at.column ≡ true }
    ensures is_the_result { result ≡ changed A.Axis.direction T.Step.rule (K.Kernel.amounts kernel.now)
        (P.Plane.picture plane.now).height (P.Plane.picture plane.now).width (P.Plane.picture plane.now).number at.row at.column }
{
    let left = number_at(plane, A::left(at));
    let right = number_at(plane, A::right(plane.rows(), plane.columns(), at));
    T::result(kernel, number_at(plane, at), left, right)
}

// Puts what the step makes of a place that it changes.
fn change_place<S: Store, K: Kernel, A: Axis, T: Step>(store: &mut S, kernel: &K, at: LatticePlace)
    requires { changes A.Axis.direction T.Step.rule.parity (S.Plane.picture store.old).height (S.Plane.picture store.old).width at.row at.column ≡ true }
    ensures writes_the_result { S.Plane.picture store.new ≡ written (S.Plane.picture store.old) at.row at.column
        (changed A.Axis.direction T.Step.rule (K.Kernel.amounts kernel.now)
        (S.Plane.picture store.old).height (S.Plane.picture store.old).width (S.Plane.picture store.old).number at.row at.column) }
    ensures sets_the_bit { S.Store.bits store.new ≡ marked (S.Store.bits store.old) at.row at.column }
    ensures leaves_what_lies_under { S.Store.frame false store.old store.new }
{
    let number = result_at::<S, K, A, T>(store, kernel, at);
    store.put(at.row, at.column, number).unwrap();
}

// One step on every line of a direction.
#[derive(Clone, Copy)]
pub struct Sweep<A, T>(A, T);

impl<A: Axis, T: Step> Pass for Sweep<A, T> {
    ghost work = { swept A.Axis.direction T.Step.rule };

    ghost puts = { changes A.Axis.direction T.Step.rule.parity };

    fn run<S: Store, K: Kernel>(store: S, kernel: &K) -> S {
        let mut store = store;
        let parity = T::parity();
        let rows = A::rows(parity, store.rows());
        let columns = A::columns(parity, store.columns());
        for row in 0..rows {
            for column in 0..columns {
                change_place::<S, K, A, T>(&mut store, kernel, A::place(parity, row, column));
            }
        }
        store
    }
}
