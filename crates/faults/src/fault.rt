// The twenty faults, and the number, the layer and the place of each.
ghost use Rattle.std.specs.Prelude.{◌≡◌};
ghost use Rattle.faults.specs.Faults.{layer_number, fault_number, fault_layer, fault_place};

// Which part of the library judged the input.
#[derive(Clone, Copy, PartialEq, Eq, Debug)]
pub enum Layer {
    // Reading a PGM file.
    Pgm = 1,
    // Making and using stores and planes.
    Plane = 2,
    // Everything else: the plate's calls.
    Plate = 3,
}

// A case that several layers judge holds the layer that did, and one that has a place holds it.
#[derive(Clone, Copy, PartialEq, Eq, Debug)]
pub enum Fault {
    // The rows or the columns are 0 or over 4,096.
    Size(Layer),
    // The levels, or the level of a layer, are over 5.
    Levels(Layer),
    // The top is 0 or over 65,535.
    Top(Layer),
    // The top times 9 to the power of the levels is over 2,147,483,647.
    Budget,
    // A store's memory is too short.
    StoreShort,
    // The store's rows or columns differ from those asked for.
    StoreDiffers,
    // There are more or fewer samples than the plate or the leased rectangle has places.
    SampleCount,
    // A sample exceeds the top; its index, the first such.
    Sample(Layer, usize),
    // The scratch has fewer records than the plate has cells.
    ScratchShort,
    // The rectangle is empty, or leaves the lattice or the plane.
    Rectangle(Layer),
    // A lease is out.
    LeaseOut,
    // The last serial has been given.
    SerialsSpent,
    // The lease is not the one that is out on this plate.
    WrongLease,
    // The level in hand exceeds the plate's levels.
    LevelInHand,
    // The output is too short.
    OutputShort(Layer),
    // The place is outside the plane.
    Outside,
    // The PGM header does not fit; its first byte that does not, or the file's length.
    PgmHeader(usize),
    // The PGM raster is too short; the file's length.
    PgmRaster(usize),
    // A slot number is too large or repeats an earlier one; its index, the first such.
    Slot(usize),
    // The plate is unlaid.
    Unlaid,
}

impl Layer {
    // The number by which files name the layer.
    pub fn number(self) -> u8
        ensures is_the_layers_number { result ≡ layer_number self }
    {
        self as u8
    }
}

impl Fault {
    // The number by which files and people name the case; a case that holds a place has no discriminant to cast.
    pub fn number(self) -> u8
        ensures is_the_faults_number { result ≡ fault_number self }
    {
        match self {
            Fault::Size(_) => 1,
            Fault::Levels(_) => 2,
            Fault::Top(_) => 3,
            Fault::Budget => 4,
            Fault::StoreShort => 5,
            Fault::StoreDiffers => 6,
            Fault::SampleCount => 7,
            Fault::Sample(_, _) => 8,
            Fault::ScratchShort => 9,
            Fault::Rectangle(_) => 10,
            Fault::LeaseOut => 11,
            Fault::SerialsSpent => 12,
            Fault::WrongLease => 13,
            Fault::LevelInHand => 14,
            Fault::OutputShort(_) => 15,
            Fault::Outside => 16,
            Fault::PgmHeader(_) => 17,
            Fault::PgmRaster(_) => 18,
            Fault::Slot(_) => 19,
            Fault::Unlaid => 20,
        }
    }

    pub fn layer(self) -> Layer
        ensures is_the_layer_that_judged { result ≡ fault_layer self }
    {
        match self {
            Fault::PgmHeader(_) | Fault::PgmRaster(_) => Layer::Pgm,
            Fault::StoreShort | Fault::Outside | Fault::Slot(_) => Layer::Plane,
            Fault::Size(by)
            | Fault::Levels(by)
            | Fault::Top(by)
            | Fault::Rectangle(by)
            | Fault::OutputShort(by)
            | Fault::Sample(by, _) => by,
            _ => Layer::Plate,
        }
    }

    // The place, 0 where the case has none: a fault's frame always has one.
    pub fn place(self) -> usize
        ensures is_the_place_or_zero { result ≡ fault_place self }
    {
        match self {
            Fault::Sample(_, index) | Fault::Slot(index) => index,
            Fault::PgmHeader(byte) => byte,
            Fault::PgmRaster(length) => length,
            _ => 0,
        }
    }
}
