// A fault in words.
ghost use Rattle.std.specs.Prelude.{◌≡◌, Some};
ghost use Rattle.faults.specs.Words.{fault_words, fault_sentence};

use crate::fault::Fault;
use std::fmt;

impl Fault {
    // What is wrong, for people.
    pub fn words(self) -> &'static str
        ensures are_the_faults_words { result.now ≡ fault_words self }
    {
        match self {
            Fault::Size(_) => "the rows or columns are 0 or over 4096",
            Fault::Levels(_) => "there are more than 5 levels",
            Fault::Top(_) => "the top is 0 or over 65535",
            Fault::Budget => "the top is too high for so many levels",
            Fault::StoreShort => "the store's memory is too short",
            Fault::StoreDiffers => "the store has other rows or columns",
            Fault::SampleCount => "the number of samples differs from the area",
            Fault::Sample(_, _) => "a sample exceeds the top",
            Fault::ScratchShort => "the scratch is too short",
            Fault::Rectangle(_) => "the rectangle is empty or leaves the plane",
            Fault::LeaseOut => "a lease is out",
            Fault::SerialsSpent => "all serials have been given",
            Fault::WrongLease => "this lease is not out on this plate",
            Fault::LevelInHand => "the level in hand exceeds the plate's levels",
            Fault::OutputShort(_) => "the output is too short",
            Fault::Outside => "the place is outside",
            Fault::PgmHeader(_) => "the PGM header does not fit",
            Fault::PgmRaster(_) => "the PGM raster is too short",
            Fault::Slot(_) => "a slot number is too large or repeats",
            Fault::Unlaid => "the plate is unlaid",
        }
    }
}

impl fmt::Display for Fault {
    ghost output = { λ f. Some (fault_sentence f) };

    fn fmt<W: fmt::Write>(&self, f: &mut fmt::Formatter<W>) -> fmt::Result {
        let number = self.number();
        let layer = self.layer().number();
        let place = self.place();
        let words = self.words();
        write!(f, "fault {number}, layer {layer}, place {place}: {words}")
    }
}
