// A whole list of calls on a plate just made.
ghost use Rattle.std.specs.Prelude.{◌≡◌, [], Some};
ghost use Rattle.plates.specs.Shows.{seen, setting_of};
ghost use Rattle.plates.specs.Runs.{just_made, Stepped, Steps, Ran};

use crate::calls::{Answer, Call, Turn};
use crate::lease::Lease;
use crate::state::Plate;
use faults::fault::Fault;
use kernels::kernel::Kernel;
use planes::plane::Store;

// The numbers of a lease that was given.
fn leased(lease: Lease) -> Answer
    ensures are_the_leases_numbers { result ≡ Answer.Leased lease.plate lease.serial }
{
    let (plate, serial) = lease.spent();
    Answer::Leased(plate, serial)
}

// One call of a list.
fn step<S: Store, K: Kernel>(plate: &mut Plate<S, K>, call: &mut Call) -> Result<Answer, Fault>
    ensures does_the_call { Stepped call.old call.new (Some result) (seen S.Plane S.Store.own K.Kernel plate.old) (seen S.Plane S.Store.own K.Kernel plate.new) }
    ensures keeps_the_kernel { plate.new.kernel ≡ plate.old.kernel }
{
    match call {
        Call::Lay { plan, samples } => plate.lay(*plan, samples).map(|_| Answer::Done),
        Call::Lease {
            first,
            height,
            width,
        } => plate.lease(*first, *height, *width).map(leased),
        Call::Settle {
            plate: number,
            serial,
            samples,
            scratch,
        } => {
            let lease = Lease::given(*number, *serial);
            plate.settle(lease, samples, scratch).map(Answer::Settled)
        }
        Call::Surrender {
            plate: number,
            serial,
        } => plate
            .surrender(Lease::given(*number, *serial))
            .map(|_| Answer::Done),
        Call::Recall => Ok(Answer::Recalled(plate.recall())),
        Call::Preview {
            card,
            first,
            height,
            width,
            scratch,
            output,
        } => plate
            .preview(card, *first, *height, *width, scratch, output)
            .map(|_| Answer::Done),
        Call::Read { card, at } => plate.read(card, *at).map(Answer::CellRead),
        Call::Clear => plate.clear().map(|_| Answer::Done),
    }
}

// One call of a list, and its answer beside it.
fn turn_over<S: Store, K: Kernel>(plate: &mut Plate<S, K>, turn: &mut Turn)
    ensures does_the_call { Stepped turn.old.call turn.new.call turn.new.answer (seen S.Plane S.Store.own K.Kernel plate.old) (seen S.Plane S.Store.own K.Kernel plate.new) }
    ensures keeps_the_kernel { plate.new.kernel ≡ plate.old.kernel }
{
    turn.answer = Some(step(plate, &mut turn.call));
}

// The calls of a list, one after the other.
fn play<S: Store, K: Kernel>(plate: &mut Plate<S, K>, turns: &mut [Turn])
    ensures does_each_call { Steps (seen S.Plane S.Store.own K.Kernel plate.old) turns.old turns.new (seen S.Plane S.Store.own K.Kernel plate.new) }
    ensures keeps_the_kernel { plate.new.kernel ≡ plate.old.kernel }
{
    for turn in turns {
        turn_over(plate, turn);
    }
}

// Makes a plate, executes a list of calls on it, and hands the plate back. Each call's answer then stands beside it.
pub fn run<S: Store, K: Kernel>(number: u32, store: S, kernel: K, turns: &mut [Turn]) -> Plate<S, K>
    ensures after_every_call_nothing_differs { Ran (setting_of (just_made S.Plane S.Store.own K.Kernel number store kernel)) [] (just_made S.Plane S.Store.own K.Kernel number store kernel) turns.old turns.new (seen S.Plane S.Store.own K.Kernel result) }
    ensures has_the_kernel { result.kernel ≡ kernel }
{
    let mut plate = Plate::new(number, store, kernel);
    play(&mut plate, turns);
    plate
}
