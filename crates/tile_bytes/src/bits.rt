// One change bit of a tile's cell, set, asked and cleared by shift and mask: in byte m div 8, with weight 2^(m mod 8).
ghost use Rattle.std.specs.Prelude.{◌≡◌, ℕ, ◌+◌, ◌%◌, ◌/◌, ◌==◌, slice_set};
ghost use Rattle.tile_bytes.specs.Bytes.{byte};
ghost use Rattle.tile_bytes.specs.Bits.{has_bit, with_bit, without_bit, bit, with_mark, without_mark, OneBitIsSet, OneBitIsUnset};

use crate::bytes::{Offset, byte_at, put_byte};

fn is_odd(byte: u8) -> bool
    ensures tells_the_lowest_bit { result ≡ ((byte % 2) == 1) }
{
    byte & 1 == 1
}

// Whether the bit of a cell is set in its byte.
pub fn has_bit(byte: u8, cell: u8) -> bool
    ensures tells_the_bit { result ≡ has_bit byte cell }
{
    is_odd(byte >> (cell % 8))
}

// The byte with the bit of a cell set.
pub fn with_bit(byte: u8, cell: u8) -> u8
    ensures sets_the_bit { result ≡ with_bit byte cell }
{
    byte | (1 << (cell % 8))
}

// The byte with the bit of a cell unset.
pub fn without_bit(byte: u8, cell: u8) -> u8
    ensures unsets_the_bit { result ≡ without_bit byte cell }
{
    byte & !(1 << (cell % 8))
}

// What setting and unsetting mean: one bit of the byte is set or unset, and the seven others stay.
pub fn one_bit_changes()
    ensures one_bit_is_set { OneBitIsSet }
    ensures one_bit_is_unset { OneBitIsUnset }
{}

pub(crate) fn bit_at(bytes: &[u8], offset: Offset, cell: u8) -> bool
    ensures tells_the_cells_bit { result ≡ bit bytes.now offset.at cell }
{
    has_bit(byte_at(bytes, offset.at + (cell / 8) as usize), cell)
}

// Changes the byte that holds the bit of a cell.
fn change_byte<F: Fn(u8, u8) -> u8>(bytes: &mut [u8], offset: Offset, cell: u8, change: F)
    requires { F.IsAlwaysCallable change }
    ensures changes_the_cells_byte { (v : ℕ) × F.post change (byte bytes.old (offset.at + cell / 8)) cell v × (bytes.new ≡ slice_set bytes.old (offset.at + cell / 8) v) }
{
    let place = offset.at + (cell / 8) as usize;
    put_byte(bytes, place, change(byte_at(bytes, place), cell));
}

pub(crate) fn set_bit(bytes: &mut [u8], offset: Offset, cell: u8)
    ensures sets_the_cells_bit { bytes.new ≡ with_mark bytes.old offset.at cell }
{
    change_byte(bytes, offset, cell, with_bit);
}

pub(crate) fn clear_bit(bytes: &mut [u8], offset: Offset, cell: u8)
    ensures unsets_the_cells_bit { bytes.new ≡ without_mark bytes.old offset.at cell }
{
    change_byte(bytes, offset, cell, without_bit);
}
