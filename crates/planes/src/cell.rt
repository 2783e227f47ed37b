// The record of one place in a buffer.
ghost use Rattle.std.specs.Prelude.{◌≡◌, true, false};

// A number and its change bit; laid out as in C, for callers in other languages.
#[repr(C)]
#[derive(Clone, Copy, PartialEq, Eq, Debug)]
pub struct Cell {
    pub number: i32,
    pub bit: bool,
}

impl Cell {
    // The record of a place at which nothing has been put.
    pub const BLANK: Cell = Cell {
        number: 0,
        bit: false,
    };

    // The record of a place to which a number was put.
    pub fn changed(number: i32) -> Cell
        ensures holds_the_number { result.number ≡ number }
        ensures has_its_bit_set { result.bit ≡ true }
    {
        Cell { number, bit: true }
    }

    // The same record with its bit unset.
    pub fn cleared(self) -> Cell
        ensures keeps_the_number { result.number ≡ self.number }
        ensures has_its_bit_unset { result.bit ≡ false }
    {
        Cell { bit: false, ..self }
    }
}
