// Lifting the columns and the rows of a plane, and undoing it.
ghost use Rattle.lifting.specs.Passes.{cell_level, cell_unlevel};
ghost use Rattle.lifting.specs.Walks.{lift_puts, undo_puts};

use crate::axis::{Horizontal, Vertical};
use crate::pass::{Pass, Then};
use crate::step::{Predict, UndoPredict, UndoUpdate, Update};
use crate::sweep::Sweep;
use kernels::kernel::Kernel;
use planes::plane::{Plane, Store};

type LiftLines<A> = Then<Sweep<A, Predict>, Sweep<A, Update>>;

type UndoLines<A> = Then<Sweep<A, UndoUpdate>, Sweep<A, UndoPredict>>;

// The columns are lifted, and then the rows.
#[derive(Clone, Copy)]
pub struct LiftLevel;

impl Pass for LiftLevel {
    ghost work = { cell_level };

    ghost puts = { lift_puts };

    fn run<S: Store, K: Kernel>(store: S, kernel: &K) -> S {
        Then::<LiftLines<Vertical>, LiftLines<Horizontal>>::run(store, kernel)
    }
}

// The rows are undone, and then the columns.
#[derive(Clone, Copy)]
pub struct UndoLevel;

impl Pass for UndoLevel {
    ghost work = { cell_unlevel };

    ghost puts = { undo_puts };

    fn run<S: Store, K: Kernel>(store: S, kernel: &K) -> S {
        Then::<UndoLines<Horizontal>, UndoLines<Vertical>>::run(store, kernel)
    }
}
