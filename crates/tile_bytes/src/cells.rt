// The cell of a place: its number and its change bit, in the slot of its tile.
ghost use Rattle.std.specs.Prelude.{◌≡◌, ◌+◌, ◌*◌};
ghost use Rattle.tile_bytes.specs.Layout.{tile_count, slot_of, slot_start, slot_number, slot_bit, with_cell, without_cell_bit, PutChangesOneCell, UnsetChangesOneBit};

use crate::bits::{bit_at, clear_bit, set_bit};
use crate::bytes::{Offset, number_at, put_digits};
use crate::header::slot_of;
use crate::sides::{Sides, TilePlace};

// Where the slot of a tile starts.
fn slot_start(bytes: &[u8], sides: Sides, tile: u32) -> usize
    ensures is_the_start_of_the_slot { result ≡ slot_start (tile_count sides.rows sides.columns) (slot_of bytes.now tile) }
{
    sides.slot_start(slot_of(bytes, tile) as u32)
}

pub fn number_of(bytes: &[u8], sides: Sides, place: TilePlace) -> i32
    ensures is_the_cells_number { result ≡ slot_number (tile_count sides.rows sides.columns) bytes.now (slot_of bytes.now place.tile) place.cell }
{
    number_at(
        bytes,
        Offset {
            at: slot_start(bytes, sides, place.tile) + 4 * place.cell as usize,
        },
    )
}

pub fn bit_of(bytes: &[u8], sides: Sides, place: TilePlace) -> bool
    ensures is_the_cells_bit { result ≡ slot_bit (tile_count sides.rows sides.columns) bytes.now (slot_of bytes.now place.tile) place.cell }
{
    bit_at(
        bytes,
        Offset {
            at: slot_start(bytes, sides, place.tile) + 1024,
        },
        place.cell,
    )
}

// Writes a number and sets the bit.
pub fn put_cell(bytes: &mut [u8], sides: Sides, place: TilePlace, number: i32)
    ensures writes_the_number_and_sets_the_bit { bytes.new ≡ with_cell (tile_count sides.rows sides.columns) bytes.old (slot_of bytes.old place.tile) place.cell number }
{
    let start = slot_start(bytes, sides, place.tile);
    let number_start = Offset {
        at: start + 4 * place.cell as usize,
    };
    let bits_start = Offset { at: start + 1024 };
    put_digits(bytes, number_start, &number.to_be_bytes());
    set_bit(bytes, bits_start, place.cell);
}

// Unsets the bit of one cell.
pub fn clear_cell(bytes: &mut [u8], sides: Sides, place: TilePlace)
    ensures unsets_the_bit { bytes.new ≡ without_cell_bit (tile_count sides.rows sides.columns) bytes.old (slot_of bytes.old place.tile) place.cell }
{
    let start = slot_start(bytes, sides, place.tile);
    clear_bit(bytes, Offset { at: start + 1024 }, place.cell);
}

// What the two mean: one cell gets its number and its bit, or loses its bit, and all else stays.
pub fn one_cell_changes()
    ensures put_changes_one_cell { PutChangesOneCell }
    ensures unset_changes_one_bit { UnsetChangesOneBit }
{}
