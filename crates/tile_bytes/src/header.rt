// The head of a tile file: rows, columns and the slot number of each tile, two bytes each.
ghost use Rattle.std.specs.Prelude.{◌≡◌, ◌+◌, ◌*◌};
ghost use Rattle.frames.specs.Frames.{two_bytes};
ghost use Rattle.tile_bytes.specs.Bytes.{word, with_two};
ghost use Rattle.tile_bytes.specs.Layout.{slot_of};

use crate::bytes::{Offset, put_digits, word_at};
use crate::sides::Sides;

// The sides that the first four bytes hold.
pub fn sides_of(bytes: &[u8]) -> Sides
    ensures has_the_rows { result.rows ≡ word bytes.now 0 }
    ensures has_the_columns { result.columns ≡ word bytes.now 2 }
{
    Sides {
        rows: word_at(bytes, Offset { at: 0 }),
        columns: word_at(bytes, Offset { at: 2 }),
    }
}

pub fn write_sides(bytes: &mut [u8], sides: Sides)
    ensures writes_rows_then_columns { bytes.new ≡ with_two (with_two bytes.old 0 (two_bytes sides.rows)) 2 (two_bytes sides.columns) }
{
    put_digits(bytes, Offset { at: 0 }, &sides.rows.to_be_bytes());
    put_digits(bytes, Offset { at: 2 }, &sides.columns.to_be_bytes());
}

// Where the slot number of a tile lies.
fn slot_offset(tile: u32) -> Offset
    ensures is_the_tiles_entry { result.at ≡ 4 + 2 * tile }
{
    Offset {
        at: 4 + 2 * tile as usize,
    }
}

// The slot number of a tile.
pub fn slot_of(bytes: &[u8], tile: u32) -> u16
    ensures is_the_slot_number { result ≡ slot_of bytes.now tile }
{
    word_at(bytes, slot_offset(tile))
}

pub fn write_slot(bytes: &mut [u8], tile: u32, slot: u16)
    ensures writes_the_slot_number { bytes.new ≡ with_two bytes.old (4 + 2 * tile) (two_bytes slot) }
{
    put_digits(bytes, slot_offset(tile), &slot.to_be_bytes());
}
