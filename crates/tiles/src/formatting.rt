// Making a tile file of given sides, with every number 0 and no bit set.
ghost use Rattle.std.specs.Prelude.{◌+◌, ◌*◌, ◌≤◌, length};
ghost use Rattle.tile_bytes.specs.Layout.{tile_count, slots_end};
ghost use Rattle.tiles.specs.Formatting.{Judged, Numbered, Formatted, Formats, AFormattedFileIsBlank};

use crate::opening::has_bad_side;
use faults::fault::{Fault, Layer};
use tile_bytes::header::{write_sides, write_slot};
use tile_bytes::sides::Sides;
use tile_bytes::slots::zero_slots;

// The sides, if a file of some length can have them: a side is 0 or over 4,096, then the memory is too short.
fn judge(rows: usize, columns: usize, length: usize) -> Result<Sides, Fault>
    ensures are_the_sides_or_the_first_fault_that_holds { Judged rows columns length result }
{
    let sides = Sides::new(rows, columns)
        .filter(|sides| !has_bad_side(*sides))
        .ok_or(Fault::Size(Layer::Plane))?;
    if length < sides.file_length() {
        return Err(Fault::StoreShort);
    }
    Ok(sides)
}

// Gives each tile the slot of its own number.
fn number_slots(bytes: &mut [u8], tiles: u32)
    requires few_tiles { tiles ≤ 65536 }
    requires room { 4 + 2 * tiles ≤ length bytes.old }
    ensures gives_each_tile_its_slot { Numbered tiles bytes.old bytes.new }
{
    for tile in 0..tiles {
        write_slot(bytes, tile, tile as u16);
    }
}

// Writes the sides, the slot numbers and slots of zeros.
fn write_blank(bytes: &mut [u8], sides: Sides)
    requires few_rows { sides.rows ≤ 4096 }
    requires few_columns { sides.columns ≤ 4096 }
    requires room { slots_end (tile_count sides.rows sides.columns) ≤ length bytes.old }
    ensures formats_the_file { Formatted sides.rows sides.columns bytes.old bytes.new }
{
    write_sides(bytes, sides);
    number_slots(bytes, sides.tiles());
    zero_slots(bytes, sides);
}

// Formats a file; declined, it changes no byte.
pub fn format(bytes: &mut [u8], rows: usize, columns: usize) -> Result<(), Fault>
    ensures formats_the_file_or_declines { Formats rows columns bytes.old bytes.new result }
{
    let sides = judge(rows, columns, bytes.len())?;
    write_blank(bytes, sides);
    Ok(())
}

// What a formatted file is when it is opened.
pub fn a_formatted_file_is_blank()
    ensures a_formatted_file_is_blank { AFormattedFileIsBlank }
{}
