// The checks of laying, settling and previewing: each declines by the first row of its table that holds, and changes nothing.
ghost use Rattle.std.specs.Prelude.{◌≡◌, ◌*◌, ◌^◌, ◌<◌, ◌≤◌, true, is_ok, IfOk, Some, None, nat_lt, position};
ghost use Rattle.wavelets.specs.Lifting.{within_budget};
ghost use Rattle.model.specs.Calls.{samples_of, laying, settling, previewing};
ghost use Rattle.faults.specs.Tables.{first_fault};
ghost use Rattle.model.specs.Plain.{samples_table};
ghost use Rattle.plates.specs.Plans.{lawful_plan};
ghost use Rattle.plates.specs.Shows.{seen, own_fault, fault_in};

use crate::plate::level_in_hand;
use crate::state::Plate;
use faults::fault::{Fault, Layer};
use kernels::kernel::Kernel;
use model::card::Card;
use model::plan::Plan;
use planes::grid::is_covered;
use planes::level::Level;
use planes::plane::{Plane, Store};
use planes::rectangle::Rectangle;

// 9 to the power of the levels.
fn growth(levels: Level) -> usize
    ensures is_the_power_of_nine { result ≡ 9 ^ levels.number }
    ensures is_small { result ≤ 59049 }
{
    9usize.pow(levels.number as u32)
}

fn is_within_budget(top: usize, levels: Level) -> bool
    requires { top ≤ 65535 }
    ensures tells_the_budget { result ≡ within_budget top levels.number }
{
    top * growth(levels) <= 2147483647
}

// The index of the first sample over the top, if there is one.
fn first_sample_over(samples: &[u16], top: usize) -> Option<usize>
    ensures is_the_first_over { result ≡ position (λ x. nat_lt top x) samples.now }
{
    samples.iter().position(|sample| *sample as usize > top)
}

impl<S: Store, K: Kernel> Plate<S, K> {
    // Answers the levels of the plan.
    pub(crate) fn check_laying(&self, plan: Plan, samples: &[u16]) -> Result<Level, Fault>
        ensures declines_by_the_first_row_that_holds { fault_in result ≡ own_fault (seen S.Plane S.Store.own K.Kernel self.now) (laying plan (samples_of samples.now)) }
        ensures passes_a_lawful_plan { is_ok result ≡ true → lawful_plan plan ≡ true }
        ensures passes_no_lease { is_ok result ≡ true → self.now.lease ≡ None }
        ensures answers_the_levels { IfOk result (λ levels. levels.number ≡ plan.levels) }
    {
        if self.lease.is_some() {
            return Err(Fault::LeaseOut);
        }
        if plan.rows == 0 || plan.rows > 4096 || plan.columns == 0 || plan.columns > 4096 {
            return Err(Fault::Size(Layer::Plate));
        }
        let levels = Level::new(plan.levels).ok_or(Fault::Levels(Layer::Plate))?;
        if plan.top == 0 || plan.top > 65535 {
            return Err(Fault::Top(Layer::Plate));
        }
        if !is_within_budget(plan.top, levels) {
            return Err(Fault::Budget);
        }
        if self.store.rows() != plan.rows || self.store.columns() != plan.columns {
            return Err(Fault::StoreDiffers);
        }
        check_samples(samples, plan.rows * plan.columns, plan.top)?;
        Ok(levels)
    }

    // Answers the plan and the rectangle that is leased.
    pub(crate) fn check_settling(
        &self,
        plate: u32,
        serial: u32,
        samples: &[u16],
        records: usize,
    ) -> Result<(Plan, Rectangle), Fault>
        ensures declines_by_the_first_row_that_holds { fault_in result ≡ own_fault (seen S.Plane S.Store.own K.Kernel self.now) (settling plate serial (samples_of samples.now) records) }
        ensures answers_the_plan_and_the_rectangle { IfOk result (λ x. (self.now.plan ≡ Some x.0) × (self.now.lease ≡ Some x.1)) }
    {
        let plan = self.plan.ok_or(Fault::WrongLease)?;
        let rectangle = self.lease.ok_or(Fault::WrongLease)?;
        if plate != self.number || serial != self.serial {
            return Err(Fault::WrongLease);
        }
        check_samples(samples, rectangle.height * rectangle.width, plan.top)?;
        if records < plan.rows * plan.columns {
            return Err(Fault::ScratchShort);
        }
        Ok((plan, rectangle))
    }

    // Answers the plan and the level in hand.
    pub(crate) fn check_preview(
        &self,
        card: &Card,
        rectangle: Rectangle,
        records: usize,
        room: usize,
    ) -> Result<(Plan, Level), Fault>
        ensures declines_by_the_first_row_that_holds { fault_in result ≡ own_fault (seen S.Plane S.Store.own K.Kernel self.now) (previewing card.now rectangle records room) }
        ensures answers_the_plan_and_the_level { IfOk result (λ x. (self.now.plan ≡ Some x.0) × (x.1.number ≡ card.now.level)) }
    {
        let plan = self.plan.ok_or(Fault::Unlaid)?;
        let level = level_in_hand(card, plan).ok_or(Fault::LevelInHand)?;
        if rectangle.leaves(level.side(plan.rows), level.side(plan.columns)) {
            return Err(Fault::Rectangle(Layer::Plate));
        }
        if !is_covered(rectangle.height, rectangle.width, room) {
            return Err(Fault::OutputShort(Layer::Plate));
        }
        if records < plan.rows * plan.columns {
            return Err(Fault::ScratchShort);
        }
        Ok((plan, level))
    }
}

// Declines samples whose count differs from the area, or of which one exceeds the top.
fn check_samples(samples: &[u16], area: usize, top: usize) -> Result<(), Fault>
    ensures declines_by_the_first_row_that_holds { fault_in result ≡ first_fault (samples_table (samples_of samples.now) area top) }
{
    if samples.len() != area {
        return Err(Fault::SampleCount);
    }
    match first_sample_over(samples, top) {
        Some(index) => Err(Fault::Sample(Layer::Plate, index)),
        None => Ok(()),
    }
}
