// The level layer: the lattice of a level of any store, which is a store itself.
ghost use Rattle.std.specs.Prelude.{◌≡◌, ◌*◌, ◌^◌, true, false, MatchResult};
ghost use Rattle.faults.specs.declared.fault.Fault.TheVariants as faults;
ghost use Rattle.planes.specs.Planes.{Within, PutsNumber, PutsBit, unmarked};
ghost use Rattle.layers.specs.Layers.{sampled, lattice, LayerFrame, layer_still, layer_onward, SetsLevel};

use faults::fault::{Fault, Layer};
use planes::level::Level;
use planes::places::{LatticePlace, PlatePlace};
use planes::plane::{Plane, Store};

// A store seen through the lattice of a level: place (i, j) is cell (i × 2^k, j × 2^k) below.
#[derive(Drop)]
pub struct LevelLayer<S> {
    pub below: S,
    pub level: Level,
}

impl<S: Plane> LevelLayer<S> {
    // The layer at level 0.
    pub fn new(below: S) -> LevelLayer<S>
        ensures stands_on_the_store { result.below ≡ below }
        ensures has_level_zero { result.level.number ≡ 0 }
    {
        LevelLayer {
            below,
            level: Level { number: 0 },
        }
    }

    // The store below, as it is.
    pub fn into_below(self) -> S
        ensures is_the_store_below { result ≡ self.below }
    {
        let LevelLayer { below, level: _ } = self;
        below
    }

    // Goes to a level.
    pub fn go_to(&mut self, level: Level)
        ensures leaves_the_store_as_it_was { self.new.below ≡ self.old.below }
        ensures has_the_level { self.new.level.number ≡ level.number }
    {
        self.level = level;
    }

    // Goes to the level of a number; declined where it is over 5, and then nothing changes.
    pub fn set_level(&mut self, number: usize) -> Result<(), Fault>
        ensures leaves_the_store_as_it_was { self.new.below ≡ self.old.below }
        ensures sets_the_level_up_to_five { SetsLevel self.old.level.number number self.new.level.number result }
    {
        let level = Level::new(number).ok_or(Fault::Levels(Layer::Plane))?;
        self.go_to(level);
        Ok(())
    }

    // The place below on which a place of the lattice lies; declined exactly when it is outside.
    fn place_below(&self, at: LatticePlace) -> Result<PlatePlace, Fault>
        ensures is_the_multiplied_place_inside { MatchResult result
            (λ on. Within (lattice self.now.level.number (S.Plane.picture self.now.below)) at.row at.column
            × Within (S.Plane.picture self.now.below) on.row on.column
            × (on.row ≡ at.row * 2 ^ self.now.level.number) × (on.column ≡ at.column * 2 ^ self.now.level.number))
            (λ fault. (Within (lattice self.now.level.number (S.Plane.picture self.now.below)) at.row at.column → ⊥)
            × (Within (S.Plane.picture self.now.below) (at.row * 2 ^ self.now.level.number) (at.column * 2 ^ self.now.level.number) → ⊥)
            × (fault ≡ faults.Outside)) }
    {
        let height = self.below.rows();
        let width = self.below.columns();
        let rows = self.level.side(height);
        let columns = self.level.side(width);
        if at.row < rows && at.column < columns {
            Ok(at.on_plate(self.level).unwrap())
        } else {
            Err(Fault::Outside)
        }
    }
}

// Puts a number at a place of the plate.
fn put_at<S: Store>(plate: &mut S, at: PlatePlace, number: i32) -> Result<(), Fault>
    ensures writes_the_number { PutsNumber (S.Plane.picture plate.old) at.row at.column number (S.Plane.picture plate.new) result }
    ensures sets_the_bit { PutsBit (S.Plane.picture plate.old) (S.Store.bits plate.old) at.row at.column (S.Store.bits plate.new) result }
    ensures leaves_what_lies_under { S.Store.frame false plate.old plate.new }
{
    plate.put(at.row, at.column, number)
}

impl<S: Plane> Plane for LevelLayer<S> {
    ghost picture = { λ s. lattice s.level.number (S.Plane.picture s.below) };

    fn rows(&self) -> usize {
        self.level.side(self.below.rows())
    }

    fn columns(&self) -> usize {
        self.level.side(self.below.columns())
    }

    fn read(&self, row: usize, column: usize) -> Result<i32, Fault> {
        let at = self.place_below(LatticePlace { row, column })?;
        self.below.read(at.row, at.column)
    }
}

impl<S: Store> Store for LevelLayer<S> {
    ghost bits = { λ s. sampled s.level.number (S.Store.bits s.below) };

    // The level and the cells below that are off the lattice stay, and so does what lies under the store below.
    ghost frame = { λ cleared s t. LayerFrame cleared s.level.number t.level.number (S.Plane.picture s.below) (S.Plane.picture t.below) (S.Store.bits s.below) (S.Store.bits t.below)
        × S.Store.frame cleared s.below t.below };

    ghost still = { λ cleared s. (layer_still cleared s.level.number (S.Plane.picture s.below) (S.Store.bits s.below), S.Store.still cleared s.below) };

    ghost onward = { λ early late s t u a b. (
      layer_onward early late s.level.number t.level.number u.level.number
          (S.Plane.picture s.below) (S.Plane.picture t.below) (S.Plane.picture u.below) (S.Store.bits s.below) (S.Store.bits t.below) (S.Store.bits u.below) a.0 b.0,
      S.Store.onward early late s.below t.below u.below a.1 b.1,
    ) };

    fn put(&mut self, row: usize, column: usize, number: i32) -> Result<(), Fault>
        ensures writes_the_number { PutsNumber (lattice self.old.level.number (S.Plane.picture self.old.below)) row column number (lattice self.new.level.number (S.Plane.picture self.new.below)) result }
        ensures sets_the_bit { PutsBit (lattice self.old.level.number (S.Plane.picture self.old.below)) (sampled self.old.level.number (S.Store.bits self.old.below)) row column (sampled self.new.level.number (S.Store.bits self.new.below)) result }
        ensures leaves_what_lies_under { LayerFrame false self.old.level.number self.new.level.number (S.Plane.picture self.old.below) (S.Plane.picture self.new.below) (S.Store.bits self.old.below) (S.Store.bits self.new.below)
            × S.Store.frame false self.old.below self.new.below }
        ensures writes_the_number_below { PutsNumber (S.Plane.picture self.old.below) (row * 2 ^ self.old.level.number) (column * 2 ^ self.old.level.number) number (S.Plane.picture self.new.below) result }
        ensures sets_the_bit_below { PutsBit (S.Plane.picture self.old.below) (S.Store.bits self.old.below) (row * 2 ^ self.old.level.number) (column * 2 ^ self.old.level.number) (S.Store.bits self.new.below) result }
    {
        let at = self.place_below(LatticePlace { row, column })?;
        put_at(&mut self.below, at, number)
    }

    fn bit(&self, row: usize, column: usize) -> Result<bool, Fault> {
        let at = self.place_below(LatticePlace { row, column })?;
        self.below.bit(at.row, at.column)
    }

    fn clear(&mut self)
        ensures keeps_the_picture { lattice self.new.level.number (S.Plane.picture self.new.below) ≡ lattice self.old.level.number (S.Plane.picture self.old.below) }
        ensures unsets_every_bit { sampled self.new.level.number (S.Store.bits self.new.below) ≡ unmarked }
        ensures leaves_what_lies_under { LayerFrame true self.old.level.number self.new.level.number (S.Plane.picture self.old.below) (S.Plane.picture self.new.below) (S.Store.bits self.old.below) (S.Store.bits self.new.below)
            × S.Store.frame true self.old.below self.new.below }
        ensures keeps_the_picture_below { S.Plane.picture self.new.below ≡ S.Plane.picture self.old.below }
        ensures unsets_every_bit_below { S.Store.bits self.new.below ≡ unmarked }
    {
        self.below.clear();
    }
}
