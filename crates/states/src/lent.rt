// A store that is lent, as a store by value.
ghost use Rattle.std.specs.Prelude.{◌≡◌, refl};
ghost use Rattle.std.proofs.Common.{◌∙◌};

use faults::fault::Fault;
use planes::plane::{Plane, Store};

#[derive(Drop)]
pub struct Lent<'a, S> {
    pub below: &'a mut S,
}

impl<'a, S: Plane> Plane for Lent<'a, S> {
    ghost picture = { λ s. S.Plane.picture s.below.now };

    fn rows(&self) -> usize {
        self.below.rows()
    }

    fn columns(&self) -> usize {
        self.below.columns()
    }

    fn read(&self, row: usize, column: usize) -> Result<i32, Fault> {
        self.below.read(row, column)
    }
}

impl<'a, S: Store> Store for Lent<'a, S> {
    ghost bits = { λ s. S.Store.bits s.below.now };

    // It is the same loan, and what lies under the store is left.
    ghost frame = { λ cleared s t. (t.below.ghost_name ≡ s.below.ghost_name) × S.Store.frame cleared s.below.now t.below.now };

    ghost still = { λ cleared s. (refl, S.Store.still cleared s.below.now) };

    ghost onward = { λ early late s t u a b. (b.0 ∙ a.0, S.Store.onward early late s.below.now t.below.now u.below.now a.1 b.1) };

    fn put(&mut self, row: usize, column: usize, number: i32) -> Result<(), Fault> {
        self.below.put(row, column, number)
    }

    fn bit(&self, row: usize, column: usize) -> Result<bool, Fault> {
        self.below.bit(row, column)
    }

    fn clear(&mut self) {
        self.below.clear();
    }
}
