// A tile file open for reading only: a plane, and no store.
use crate::file::Opened;

// The bytes of a file, borrowed.
pub type TileView<'a> = Opened<&'a [u8]>;
