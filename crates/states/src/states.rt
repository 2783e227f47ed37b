// A plane at work, over a store by value: a flat store, or one that is lent. What its numbers are is in its type, and its store is
// private: no store becomes such a plane but by having every number written.
ghost use Rattle.std.specs.Prelude.{◌≡◌, min, false, length};
ghost use Rattle.overlays.specs.Overlays.{overlaid_picture, overlaid_bits};
ghost use Rattle.overlays.specs.Samples.{samples_at, pictured};
ghost use Rattle.overlays.specs.Samples.{has_sample, patch};
ghost use Rattle.lifting.specs.Passes.{worked, with_bits, cell_forward, cell_undo, rounds_put, ShowsTheTransform, ShowsTheRoundsBelow};
ghost use Rattle.states.specs.States.{everywhere, padded};

use crate::sources::{Listed, Padded};
use faults::fault::Fault;
use kernels::kernel::Kernel;
use lifting::passes::{forward, inverse};
use overlays::overlay::overlay;
use overlays::sources::Patch;
use planes::level::Level;
use planes::plane::{Plane, Store};
use planes::rectangle::Rectangle;

#[derive(Drop)]
pub struct WorkPlane<S, N> {
    store: S,
    numbers: N,
}

// The numbers are samples.
#[derive(Clone, Copy)]
pub struct SampleNumbers;

// The numbers are the cells of a transform at a level.
#[derive(Clone, Copy)]
pub struct CellNumbers {
    level: Level,
}

// The numbers are what the first rounds of a transform leave, as many as the level says: its lattice shows that resolution.
#[derive(Clone, Copy)]
pub struct ResolutionNumbers {
    level: Level,
}

pub type Samples<S> = WorkPlane<S, SampleNumbers>;

pub type Cells<S> = WorkPlane<S, CellNumbers>;

pub type Resolution<S> = WorkPlane<S, ResolutionNumbers>;

// Each can be read, and not put to; and its store can be taken back.
impl<S: Plane, N> Plane for WorkPlane<S, N> {
    ghost picture = { λ s. S.Plane.picture s.store };

    fn rows(&self) -> usize {
        self.store.rows()
    }

    fn columns(&self) -> usize {
        self.store.columns()
    }

    fn read(&self, row: usize, column: usize) -> Result<i32, Fault> {
        self.store.read(row, column)
    }
}

impl<S, N: Drop> WorkPlane<S, N> {
    pub fn into_store(self) -> S
        ensures is_the_store { result ≡ self.store }
    {
        let WorkPlane { store, numbers: _ } = self;
        store
    }
}

impl<S: Store> WorkPlane<S, SampleNumbers> {
    // Writes samples into a store, row by row; 0 where there are no more.
    pub fn write(store: S, samples: &[u16]) -> Samples<S>
        ensures writes_every_sample { S.Plane.picture result.store ≡ overlaid_picture everywhere (pictured (S.Plane.picture store).width (samples_at samples.now)) (S.Plane.picture store) }
        ensures sets_every_bit { S.Store.bits result.store ≡ overlaid_bits (S.Plane.picture store) everywhere (S.Store.bits store) }
        ensures leaves_what_lies_under { S.Store.frame false store result.store }
    {
        let mut store = store;
        let columns = store.columns();
        overlay(&mut store, &Listed { columns, samples });
        WorkPlane {
            store,
            numbers: SampleNumbers,
        }
    }

    // Replaces the samples of a rectangle, row by row, as far as there are new ones.
    pub fn replace(self, rectangle: Rectangle, samples: &[u16]) -> Samples<S>
        ensures writes_the_samples { S.Plane.picture result.store ≡ overlaid_picture (has_sample rectangle (length samples.now)) (patch rectangle (samples_at samples.now)) (S.Plane.picture self.store) }
        ensures sets_their_bits { S.Store.bits result.store ≡ overlaid_bits (S.Plane.picture self.store) (has_sample rectangle (length samples.now)) (S.Store.bits self.store) }
        ensures leaves_what_lies_under { S.Store.frame false self.store result.store }
    {
        let WorkPlane { store, numbers: _ } = self;
        let mut store = store;
        overlay(&mut store, &Patch { rectangle, samples });
        WorkPlane {
            store,
            numbers: SampleNumbers,
        }
    }

    // Lifts the samples to the cells of a level.
    pub fn lift<K: Kernel>(self, kernel: &K, level: Level) -> Cells<S>
        ensures has_the_level { result.numbers.level.number ≡ level.number }
        ensures does_the_rounds { S.Plane.picture result.store ≡ worked (cell_forward (K.Kernel.amounts kernel.now) level.number) (S.Plane.picture self.store) }
        ensures shows_the_transform_within_the_budget { ShowsTheTransform (K.Kernel.amounts kernel.now) level.number (S.Plane.picture self.store) (S.Plane.picture result.store) }
        ensures sets_the_bits_of_what_it_puts { S.Store.bits result.store ≡ with_bits (rounds_put (S.Plane.picture self.store).height (S.Plane.picture self.store).width 0 level.number) (S.Store.bits self.store) }
        ensures leaves_what_lies_under { S.Store.frame false self.store result.store }
    {
        let WorkPlane { store, numbers: _ } = self;
        let store = forward(store, kernel, level);
        WorkPlane {
            store,
            numbers: CellNumbers { level },
        }
    }
}

impl<S: Store> WorkPlane<S, CellNumbers> {
    // Copies the cells of a plane, which are those of a level, into a store; 0 where the plane has none.
    pub fn copy<P: Plane>(store: S, plane: &P, level: Level) -> Cells<S>
        ensures has_the_level { result.numbers.level.number ≡ level.number }
        ensures writes_every_cell { S.Plane.picture result.store ≡ overlaid_picture everywhere (padded (P.Plane.picture plane.now)) (S.Plane.picture store) }
        ensures sets_every_bit { S.Store.bits result.store ≡ overlaid_bits (S.Plane.picture store) everywhere (S.Store.bits store) }
        ensures leaves_what_lies_under { S.Store.frame false store result.store }
    {
        let mut store = store;
        overlay(&mut store, &Padded { plane });
        WorkPlane {
            store,
            numbers: CellNumbers { level },
        }
    }

    // Undoes the levels down to one; nothing where that is the cells' own level or more.
    pub fn undo<K: Kernel>(self, kernel: &K, down_to: Level) -> Resolution<S>
        ensures has_the_lesser_level { result.numbers.level.number ≡ min down_to.number self.numbers.level.number }
        ensures undoes_the_rounds { S.Plane.picture result.store ≡ worked (cell_undo (K.Kernel.amounts kernel.now) self.numbers.level.number down_to.number) (S.Plane.picture self.store) }
        ensures shows_the_rounds_below_within_the_budget { ShowsTheRoundsBelow (K.Kernel.amounts kernel.now) self.numbers.level.number down_to.number (S.Plane.picture self.store) (S.Plane.picture result.store) }
        ensures sets_the_bits_of_what_it_puts { S.Store.bits result.store ≡ with_bits (rounds_put (S.Plane.picture self.store).height (S.Plane.picture self.store).width down_to.number self.numbers.level.number) (S.Store.bits self.store) }
        ensures leaves_what_lies_under { S.Store.frame false self.store result.store }
    {
        let WorkPlane { store, numbers } = self;
        let level = numbers.level;
        let store = inverse(store, kernel, level, down_to);
        WorkPlane {
            store,
            numbers: ResolutionNumbers {
                level: down_to.min(level),
            },
        }
    }

    // Undoes every level, back to samples.
    pub fn restore<K: Kernel>(self, kernel: &K) -> Samples<S>
        ensures undoes_every_round { S.Plane.picture result.store ≡ worked (cell_undo (K.Kernel.amounts kernel.now) self.numbers.level.number 0) (S.Plane.picture self.store) }
        ensures shows_the_samples_within_the_budget { ShowsTheRoundsBelow (K.Kernel.amounts kernel.now) self.numbers.level.number 0 (S.Plane.picture self.store) (S.Plane.picture result.store) }
        ensures sets_the_bits_of_what_it_puts { S.Store.bits result.store ≡ with_bits (rounds_put (S.Plane.picture self.store).height (S.Plane.picture self.store).width 0 self.numbers.level.number) (S.Store.bits self.store) }
        ensures leaves_what_lies_under { S.Store.frame false self.store result.store }
    {
        let WorkPlane { store, numbers } = self;
        let level = numbers.level;
        let store = inverse(store, kernel, level, Level { number: 0 });
        WorkPlane {
            store,
            numbers: SampleNumbers,
        }
    }
}

impl<S: Store> WorkPlane<S, ResolutionNumbers> {
    // How many rounds are left.
    pub fn level(&self) -> Level
        ensures is_the_level { result.number ≡ self.now.numbers.level.number }
    {
        self.numbers.level
    }
}
