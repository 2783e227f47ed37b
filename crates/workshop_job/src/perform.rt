// A list of calls on a plate over any store, and what it prints.
ghost use Rattle.std.specs.Prelude.{IfOk};
ghost use Rattle.plates.specs.Runs.{just_made};
ghost use Rattle.workshop_job.specs.Performances.{Performed};

use crate::endings::endings_lines;
use answers::lines::answer_lines;
use answers::stores::store_text;
use kernels::kernel::Kernel;
use planes::plane::Store;
use plates::calls::Turn;
use plates::run::run;
use scripts::script::Ending;
use std::alloc::{AllocError, Global};

// Executes the calls on a plate just made, then the endings, and hands back the text and the store.
pub fn perform<S: Store + Drop, K: Kernel + Drop>(
    heap: Global,
    number: u32,
    store: S,
    kernel: K,
    turns: &mut [Turn],
    endings: &[Ending],
) -> Result<(Vec<u8>, S), AllocError>
    ensures after_every_call_nothing_differs { IfOk result (λ x. Performed (just_made S.Plane S.Store.own K.Kernel number store kernel) (K.Kernel.code kernel) turns.old turns.new endings.now (S.Plane.picture x.1) (S.Store.bits x.1) x.0.items) }
{
    let plate = run(number, store, kernel, turns);
    let mut text = answer_lines(heap, turns)?.into_bytes();
    text.extend_from_slice(&endings_lines(heap, &plate, endings)?)?;
    let store = plate.into_store();
    text.extend_from_slice(store_text(heap, &store)?.as_bytes())?;
    Ok((text, store))
}
