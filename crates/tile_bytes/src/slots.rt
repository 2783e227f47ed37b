// All slots of a file at once.
ghost use Rattle.std.specs.Prelude.{◌+◌};
ghost use Rattle.tile_bytes.specs.Layout.{tile_count, slot_start};
ghost use Rattle.tile_bytes.specs.Slots.{Zeroed, between, in_slots, holds_bits};

use crate::sides::Sides;

// Sets the bytes from one place to before another to 0.
fn zero(bytes: &mut [u8], first: usize, last: usize)
    ensures zeroes_the_bytes_between { Zeroed (between first last) bytes.old bytes.new }
{
    let end = last.min(bytes.len());
    if first < end {
        bytes[first..end].fill(0);
    }
}

// Sets the whole of every slot to 0.
pub fn zero_slots(bytes: &mut [u8], sides: Sides)
    ensures zeroes_every_slot { Zeroed (in_slots (tile_count sides.rows sides.columns) (tile_count sides.rows sides.columns)) bytes.old bytes.new }
{
    zero(bytes, sides.slot_start(0), sides.file_length());
}

// Sets the bytes of change bits of one slot to 0.
fn clear_slot(bytes: &mut [u8], sides: Sides, slot: u32)
    ensures zeroes_the_slots_bits { Zeroed
        (between (slot_start (tile_count sides.rows sides.columns) slot + 1024) (slot_start (tile_count sides.rows sides.columns) slot + 1056))
        bytes.old bytes.new }
{
    let start = sides.slot_start(slot);
    zero(bytes, start + 1024, start + 1056);
}

// Sets the bytes of change bits of every slot to 0.
pub fn clear_bits(bytes: &mut [u8], sides: Sides)
    ensures zeroes_the_bits_of_every_slot { Zeroed (holds_bits (tile_count sides.rows sides.columns) (tile_count sides.rows sides.columns)) bytes.old bytes.new }
{
    for slot in 0..sides.tiles() {
        clear_slot(bytes, sides, slot);
    }
}
