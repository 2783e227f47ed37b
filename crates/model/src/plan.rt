// What a laying takes, besides the samples.

// Rows and columns of the plate, the top of its samples, and the levels of its transform.
#[derive(Clone, Copy, PartialEq, Eq, Debug)]
pub struct Plan {
    pub rows: usize,
    pub columns: usize,
    pub top: usize,
    pub levels: usize,
}
