// The transform of a plate.
use planes::level::Level;

// A kernel, and the number of levels.
#[derive(Drop)]
pub struct Transform<'k, K> {
    pub kernel: &'k K,
    pub levels: Level,
}
