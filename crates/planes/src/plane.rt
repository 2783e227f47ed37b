// What a plane is, and what a store adds to it.
ghost use Rattle.std.specs.Prelude.{◌≡◌, Bool, true, false, ◌||◌};
ghost use Rattle.planes.specs.Planes.{Cells, Picture, Answers, PutsNumber, PutsBit, unmarked};

use faults::fault::Fault;

// Rows and columns with a number at each place.
pub trait Plane {
    // The sides, and the number at each place.
    ghost picture: { Self → Picture };

    fn rows(&self) -> usize
        ensures is_the_height { result ≡ (picture self.now).height };

    fn columns(&self) -> usize
        ensures is_the_width { result ≡ (picture self.now).width };

    // The number at a place; declined exactly when the place is outside.
    fn read(&self, row: usize, column: usize) -> Result<i32, Fault>
        ensures answers_the_number { Answers (picture self.now) row column ((picture self.now).number row column) result };
}

// A plane with a change bit at each place, to which numbers are put.
pub trait Store: Plane {
    // The change bit of each place.
    ghost bits: { Self → Cells Bool };

    // What lies under the store, besides the picture and the bits, is left as it was from one value to a later one.
    // The flag says whether clearings may have come between; without them it was puts alone.
    ghost frame: { Bool → Self → Self → Type 0 };

    ghost still: { (cleared : Bool) (s : Self) → frame cleared s s };

    ghost onward: { (early late : Bool) (s t u : Self) → frame early s t → frame late t u → frame (early || late) s u };

    // Sets the number of a place and its bit; declined exactly when the place is outside, and then nothing changes.
    fn put(&mut self, row: usize, column: usize, number: i32) -> Result<(), Fault>
        ensures writes_the_number { PutsNumber (Self.Plane.picture self.old) row column number (Self.Plane.picture self.new) result }
        ensures sets_the_bit { PutsBit (Self.Plane.picture self.old) (bits self.old) row column (bits self.new) result }
        ensures leaves_what_lies_under { frame false self.old self.new };

    // The change bit of a place; declined exactly when the place is outside.
    fn bit(&self, row: usize, column: usize) -> Result<bool, Fault>
        ensures answers_the_bit { Answers (Self.Plane.picture self.now) row column (bits self.now row column) result };

    // Unsets every bit and keeps all else.
    fn clear(&mut self)
        ensures keeps_the_picture { Self.Plane.picture self.new ≡ Self.Plane.picture self.old }
        ensures unsets_every_bit { bits self.new ≡ unmarked }
        ensures leaves_what_lies_under { frame true self.old self.new };
}
