// The calls of a plate. Each is a check, which declines by the first row of the call's table that holds and changes nothing, and then an effect,
// which cannot decline.
ghost use Rattle.std.specs.Prelude.{◌≡◌, ◌*◌, ◌^◌, ◌<◌, ◌≤◌, true, false, ◌⊎◌, is_ok, IfOk, Some, None, MatchOption};
ghost use Rattle.model.specs.Calls.{leasing, surrendering, recalling, reading, clearing, done, recalled};
ghost use Rattle.model.specs.Plain.{fresh};
ghost use Rattle.plates.specs.Shows.{seen, setting_of, own_fault, Shows, Follows, fault_in, answered, leased_as, cell_as, rectangle_at, CellBelow};
ghost use Rattle.plates.specs.Plans.{lawful_state};
ghost use Rattle.plates.specs.Runs.{just_made};

use crate::lease::Lease;
use crate::state::Plate;
use faults::fault::{Fault, Layer};
use kernels::kernel::Kernel;
use model::card::Card;
use model::plan::Plan;
use planes::cell::Cell;
use planes::level::Level;
use planes::places::{LatticePlace, PlatePlace};
use planes::plane::{Plane, Store};
use planes::rectangle::Rectangle;

impl<S: Store, K: Kernel> Plate<S, K> {
    // A plate just made: unlaid, over a store as it is.
    pub fn new(number: u32, store: S, kernel: K) -> Self
        ensures shows_the_fresh_plain_plate { Shows (setting_of (seen S.Plane S.Store.own K.Kernel result)) (fresh (setting_of (seen S.Plane S.Store.own K.Kernel result))) (seen S.Plane S.Store.own K.Kernel result) }
        ensures is_just_made { seen S.Plane S.Store.own K.Kernel result ≡ just_made S.Plane S.Store.own K.Kernel number store kernel }
        ensures has_the_number { result.number ≡ number }
        ensures keeps_the_store { result.store ≡ store }
        ensures keeps_the_kernel { result.kernel ≡ kernel }
    {
        Plate {
            number,
            store,
            kernel,
            plan: None,
            lease: None,
            serial: 0,
        }
    }

    // The store, once the plate is no more.
    pub fn into_store(self) -> S
    where
        K: Drop,
        ensures hands_the_store_back_as_it_is { result ≡ self.store }
    {
        let Plate {
            number: _,
            store,
            kernel: _,
            plan: _,
            lease: _,
            serial: _,
        } = self;
        store
    }

    // Ends the lease that is out, if one is, and answers its serial.
    pub fn recall(&mut self) -> Option<u32>
        ensures leaves_the_store { self.new.store ≡ self.old.store }
        ensures follows_the_plain_plate { Follows recalling (seen S.Plane S.Store.own K.Kernel self.old) (seen S.Plane S.Store.own K.Kernel self.new) (recalled result) }
        ensures keeps_the_kernel { self.new.kernel ≡ self.old.kernel }
    {
        self.lease.take()?;
        Some(self.serial)
    }

    // Declines where the lease of these two numbers is not the one that is out.
    fn check_surrender(&self, plate: u32, serial: u32) -> Result<(), Fault>
        ensures declines_by_the_first_row_that_holds { fault_in result ≡ own_fault (seen S.Plane S.Store.own K.Kernel self.now) (surrendering plate serial) }
    {
        if self.lease.is_none() || plate != self.number || serial != self.serial {
            return Err(Fault::WrongLease);
        }
        Ok(())
    }

    // Ends the lease, unsettled.
    pub fn surrender(&mut self, lease: Lease) -> Result<(), Fault>
        ensures declines_by_its_own_table { fault_in result ≡ own_fault (seen S.Plane S.Store.own K.Kernel self.old) (surrendering lease.plate lease.serial) }
        ensures leaves_the_store { self.new.store ≡ self.old.store }
        ensures follows_the_plain_plate { Follows (surrendering lease.plate lease.serial) (seen S.Plane S.Store.own K.Kernel self.old) (seen S.Plane S.Store.own K.Kernel self.new) (answered (λ _. done) result) }
        ensures keeps_the_kernel { self.new.kernel ≡ self.old.kernel }
    {
        let (plate, serial) = lease.spent();
        self.check_surrender(plate, serial)?;
        self.lease = None;
        Ok(())
    }

    fn check_leasing(&self, rectangle: Rectangle) -> Result<(), Fault>
        ensures declines_by_the_first_row_that_holds { fault_in result ≡ own_fault (seen S.Plane S.Store.own K.Kernel self.now) (leasing rectangle) }
        ensures passes_a_lawful_lease { is_ok result ≡ true → lawful_state self.now.plan (Some rectangle) ≡ true }
        ensures passes_a_serial_to_give { is_ok result ≡ true → self.now.serial < 65535 }
    {
        let plan = self.plan.ok_or(Fault::Unlaid)?;
        if rectangle.leaves(plan.rows, plan.columns) {
            return Err(Fault::Rectangle(Layer::Plate));
        }
        if self.lease.is_some() {
            return Err(Fault::LeaseOut);
        }
        if self.serial >= 65535 {
            return Err(Fault::SerialsSpent);
        }
        Ok(())
    }

    // Leases a rectangle of the plate under the next serial.
    pub fn lease(&mut self, first: PlatePlace, height: usize, width: usize) -> Result<Lease, Fault>
        ensures declines_by_its_own_table { fault_in result ≡ own_fault (seen S.Plane S.Store.own K.Kernel self.old) (leasing (rectangle_at first height width)) }
        ensures leaves_the_store { self.new.store ≡ self.old.store }
        ensures follows_the_plain_plate { Follows (leasing (rectangle_at first height width)) (seen S.Plane S.Store.own K.Kernel self.old) (seen S.Plane S.Store.own K.Kernel self.new) (answered leased_as result) }
        ensures keeps_the_kernel { self.new.kernel ≡ self.old.kernel }
    {
        let rectangle = Rectangle {
            first_row: first.row,
            first_column: first.column,
            height,
            width,
        };
        self.check_leasing(rectangle)?;
        self.serial += 1;
        self.lease = Some(rectangle);
        Ok(Lease::given(self.number, self.serial))
    }

    fn check_clearing(&self) -> Result<(), Fault>
        ensures declines_by_the_first_row_that_holds { fault_in result ≡ own_fault (seen S.Plane S.Store.own K.Kernel self.now) clearing }
    {
        self.plan.ok_or(Fault::Unlaid)?;
        Ok(())
    }

    // Unsets all change bits.
    pub fn clear(&mut self) -> Result<(), Fault>
        ensures declines_by_its_own_table { fault_in result ≡ own_fault (seen S.Plane S.Store.own K.Kernel self.old) clearing }
        ensures declined_leaves_the_store { is_ok result ≡ false → self.new.store ≡ self.old.store }
        ensures follows_the_plain_plate { Follows clearing (seen S.Plane S.Store.own K.Kernel self.old) (seen S.Plane S.Store.own K.Kernel self.new) (answered (λ _. done) result) }
        ensures keeps_the_kernel { self.new.kernel ≡ self.old.kernel }
    {
        self.check_clearing()?;
        self.store.clear();
        Ok(())
    }

    // Answers the level in hand.
    fn check_reading(&self, card: &Card, at: LatticePlace) -> Result<Level, Fault>
        ensures declines_by_the_first_row_that_holds { fault_in result ≡ own_fault (seen S.Plane S.Store.own K.Kernel self.now) (reading card.now at.row at.column) }
        ensures answers_the_level { IfOk result (λ level. level.number ≡ card.now.level) }
    {
        let plan = self.plan.ok_or(Fault::Unlaid)?;
        let level = level_in_hand(card, plan).ok_or(Fault::LevelInHand)?;
        if at.row >= level.side(plan.rows) || at.column >= level.side(plan.columns) {
            return Err(Fault::Outside);
        }
        Ok(level)
    }

    // The number and the bit of the cell at a place of the level in hand.
    pub fn read(&self, card: &Card, at: LatticePlace) -> Result<Cell, Fault>
        ensures declines_by_its_own_table { fault_in result ≡ own_fault (seen S.Plane S.Store.own K.Kernel self.now) (reading card.now at.row at.column) }
        ensures follows_the_plain_plate { Follows (reading card.now at.row at.column) (seen S.Plane S.Store.own K.Kernel self.now) (seen S.Plane S.Store.own K.Kernel self.now) (answered cell_as result) }
    {
        let level = self.check_reading(card, at)?;
        Ok(cell_at(&self.store, level, at))
    }
}

// The card's level, unless it exceeds the levels of the plan.
pub(crate) fn level_in_hand(card: &Card, plan: Plan) -> Option<Level>
    ensures is_the_level_up_to_the_plans { MatchOption result ((plan.levels < card.now.level) ⊎ (5 < card.now.level)) (λ level. (level.number ≡ card.now.level) × (level.number ≤ plan.levels)) }
{
    if card.level > plan.levels {
        return None;
    }
    Level::new(card.level)
}

// The number and the bit of a cell; 0 and unset outside.
fn cell_at<S: Store>(store: &S, level: Level, at: LatticePlace) -> Cell
    ensures is_the_cell_below { CellBelow S.Plane S.Store.own store.now level.number at.row at.column result.number result.bit }
{
    let rows = store.rows();
    let columns = store.columns();
    match on_store(rows, columns, level, at) {
        Some(place) => Cell {
            number: store.read(place.row, place.column).unwrap_or(0),
            bit: store.bit(place.row, place.column).unwrap_or(false),
        },
        None => Cell::BLANK,
    }
}

// The place of a plate of some rows and columns under a place of a level, if there is one.
fn on_store(rows: usize, columns: usize, level: Level, at: LatticePlace) -> Option<PlatePlace>
    ensures is_the_place_below { MatchOption result
        (at.row * 2 ^ level.number < rows → at.column * 2 ^ level.number < columns → ⊥)
        (λ p. (p.row ≡ at.row * 2 ^ level.number) × (p.column ≡ at.column * 2 ^ level.number)) }
{
    at.on_plate(level)
}
