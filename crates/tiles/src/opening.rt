// Whether a tile file can be opened, and with which sides.
ghost use Rattle.std.specs.Prelude.{◌≡◌, ◌<◌, false, ◌||◌, nat_le, slice_index_or, MatchOption, MatchResult};
ghost use Rattle.planes.specs.Flat.{bad_side};
ghost use Rattle.tiles.specs.Opening.{rows_said, columns_said, first_bad_slot, tile_fault, height, width, AnOpenedFileIsSound};

use faults::fault::{Fault, Layer};
use tile_bytes::header::{sides_of, slot_of};
use tile_bytes::sides::Sides;

fn is_bad_side(side: u16) -> bool
    ensures is_none_or_over_the_limit { result ≡ bad_side side }
{
    side == 0 || side > 4096
}

pub(crate) fn has_bad_side(sides: Sides) -> bool
    ensures is_either { result ≡ (bad_side sides.rows || bad_side sides.columns) }
{
    is_bad_side(sides.rows) || is_bad_side(sides.columns)
}

// Whether a slot number is too large or among those seen.
fn is_bad_slot(slot: u16, tiles: u32, seen: &[bool; 65536]) -> bool
    ensures is_too_large_or_seen { result ≡ (nat_le tiles slot || slice_index_or seen.now slot false) }
{
    slot as u32 >= tiles || seen[slot as usize]
}

// The index of the first slot number that is too large or repeats an earlier one, if one does.
fn first_bad_slot(bytes: &[u8], tiles: u32) -> Option<u32>
    ensures is_the_first_bad_one { MatchOption result
        (first_bad_slot tiles bytes.now ≡ tiles)
        (λ i. (first_bad_slot tiles bytes.now ≡ i) × (i < tiles)) }
{
    let mut seen = [false; 65536];
    for index in 0..tiles {
        let slot = slot_of(bytes, index);
        if is_bad_slot(slot, tiles, &seen) {
            return Some(index);
        }
        seen[slot as usize] = true;
    }
    None
}

// The sides of a file, or the fault that opening it meets: under four bytes, a side that is 0 or over 4,096, too few bytes for the slots, a bad
// slot number.
fn judge(bytes: &[u8]) -> Result<Sides, Fault>
    ensures are_the_sides_or_the_first_fault_that_holds { MatchResult result
        (λ s. (tile_fault bytes.now ≡ None) × (s.rows ≡ rows_said bytes.now) × (s.columns ≡ columns_said bytes.now))
        (λ e. tile_fault bytes.now ≡ Some e) }
{
    let sides = sides_of(bytes);
    if bytes.len() < 4 {
        return Err(Fault::StoreShort);
    }
    if has_bad_side(sides) {
        return Err(Fault::Size(Layer::Plane));
    }
    if bytes.len() < sides.file_length() {
        return Err(Fault::StoreShort);
    }
    match first_bad_slot(bytes, sides.tiles()) {
        Some(index) => Err(Fault::Slot(index as usize)),
        None => Ok(sides),
    }
}

// The fault that opening a file would meet. A question: its answer is the fault, and it cannot fail.
pub fn fault(bytes: &[u8]) -> Option<Fault>
    ensures is_the_first_that_holds { result ≡ tile_fault bytes.now }
{
    judge(bytes).err()
}

// What a file without a fault is.
pub fn an_opened_file_is_sound()
    ensures an_opened_file_is_sound { AnOpenedFileIsSound }
{}

// The sides of the opened file, and none where there is a fault.
#[tactic(auto, unfolding(crate::specs::Opening::height, crate::specs::Opening::width))]
pub(crate) fn opened_sides(bytes: &[u8]) -> Sides
    ensures has_the_rows_or_none { result.rows ≡ height bytes.now }
    ensures has_the_columns_or_none { result.columns ≡ width bytes.now }
{
    judge(bytes).unwrap_or(Sides {
        rows: 0,
        columns: 0,
    })
}
