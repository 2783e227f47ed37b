// Planes at work over the flat store, by value and lent.
ghost use Rattle.std.specs.Prelude.{◌≡◌};
ghost use Rattle.overlays.specs.Overlays.{overlaid_picture};
ghost use Rattle.overlays.specs.Samples.{samples_at, pictured};
ghost use Rattle.lifting.specs.Passes.{worked, cell_forward};
ghost use Rattle.states.specs.States.{everywhere};

use kernels::kernel::Kernel;
use planes::cell::Cell;
use planes::flat::FlatStore;
use planes::level::Level;
use planes::plane::{Plane, Store};
use states::lent::Lent;
use states::states::{Cells, Samples};

// Samples in a store that is lent, lifted.
fn lifted_loan<'a, S: Store, K: Kernel>(
    store: &'a mut S,
    kernel: &K,
    level: Level,
    samples: &[u16],
) -> Lent<'a, S>
    ensures is_the_same_loan { result.below.ghost_name ≡ store.entry.ghost_name }
    ensures shows_the_samples_lifted { S.Plane.picture result.below.now ≡ worked (cell_forward (K.Kernel.amounts kernel.now) level.number)
        (overlaid_picture everywhere (pictured (S.Plane.picture store.old).width (samples_at samples.now)) (S.Plane.picture store.old)) }
{
    Samples::write(Lent { below: store }, samples)
        .lift(kernel, level)
        .into_store()
}

// Writes samples into a store and lifts them.
pub fn lift_samples<S: Store, K: Kernel>(store: &mut S, kernel: &K, level: Level, samples: &[u16])
    ensures shows_the_samples_lifted { S.Plane.picture store.new ≡ worked (cell_forward (K.Kernel.amounts kernel.now) level.number)
        (overlaid_picture everywhere (pictured (S.Plane.picture store.old).width (samples_at samples.now)) (S.Plane.picture store.old)) }
{
    let _lent = lifted_loan(store, kernel, level, samples);
}

// The same in a buffer of cell records.
pub fn lift_into<K: Kernel>(
    cells: &mut [Cell],
    rows: usize,
    columns: usize,
    kernel: &K,
    level: Level,
    samples: &[u16],
) {
    lift_samples(
        &mut FlatStore::new(cells, rows, columns),
        kernel,
        level,
        samples,
    );
}

// Copies the cells of a buffer into another, and undoes them there, down to a level.
pub fn undo_copy<K: Kernel>(
    cells: &mut [Cell],
    scratch: &mut [Cell],
    rows: usize,
    columns: usize,
    kernel: &K,
    level: Level,
    down_to: Level,
) {
    let plate = FlatStore::new(cells, rows, columns);
    let copy = Cells::copy(FlatStore::new(scratch, rows, columns), &plate, level);
    let _resolution = copy.undo(kernel, down_to);
}

// Undoes cells to samples and lifts them again.
pub fn lift_again<K: Kernel>(
    cells: &mut [Cell],
    scratch: &mut [Cell],
    rows: usize,
    columns: usize,
    kernel: &K,
    level: Level,
) {
    let plate = FlatStore::new(cells, rows, columns);
    let copy = Cells::copy(FlatStore::new(scratch, rows, columns), &plate, level);
    let samples = copy.restore(kernel);
    let _cells = samples.lift(kernel, level);
}
