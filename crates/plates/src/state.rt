// What a plate holds.
ghost use Rattle.std.specs.Prelude.{◌≡◌, true};
ghost use Rattle.plates.specs.Plans.{lawful_state};

use kernels::kernel::Kernel;
use model::plan::Plan;
use planes::plane::Store;
use planes::rectangle::Rectangle;

// A plate over a store and a kernel: its number, its plan once it is laid, the rectangle of the lease that is out, and the last serial given.
#[derive(Drop)]
pub struct Plate<S: Store, K: Kernel> {
    pub(crate) number: u32,
    pub(crate) store: S,
    pub(crate) kernel: K,
    pub(crate) plan: Option<Plan>,
    pub(crate) lease: Option<Rectangle>,
    pub(crate) serial: u32,
    ghost lawful: { lawful_state plan lease ≡ true },
}
