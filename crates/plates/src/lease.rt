// A lease of a rectangle.
ghost use Rattle.std.specs.Prelude.{◌≡◌};

// Stands for one leased rectangle. It cannot be let go: one settles or surrenders it. Outside this crate it can be neither built nor
// taken apart, and within it only by `given` and `spent`.
pub struct Lease {
    plate: u32,
    serial: u32,
}

impl Lease {
    // The lease of a plate under a serial.
    pub(crate) fn given(plate: u32, serial: u32) -> Lease
        ensures has_the_plates_number { result.plate ≡ plate }
        ensures has_the_serial { result.serial ≡ serial }
    {
        Lease { plate, serial }
    }

    // The two numbers of a lease that is spent; each caller names them at once.
    pub(crate) fn spent(self) -> (u32, u32)
        ensures answers_the_plates_number { result.0 ≡ self.plate }
        ensures answers_the_serial { result.1 ≡ self.serial }
    {
        let Lease { plate, serial } = self;
        (plate, serial)
    }

    // The number of the plate that leased it.
    pub fn plate(&self) -> u32
        ensures is_the_plates_number { result ≡ self.now.plate }
    {
        self.plate
    }

    pub fn serial(&self) -> u32
        ensures is_the_serial { result ≡ self.now.serial }
    {
        self.serial
    }
}
