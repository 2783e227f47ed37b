// An open tile file: a plane over bytes that are owned or borrowed, and a store where they are owned.
ghost use Rattle.std.specs.Prelude.{◌≡◌, ◌<◌, true, false, ⊤, MatchResult};
ghost use Rattle.tiles.specs.Opening.{height, width};
ghost use Rattle.tiles.specs.Files.{file_picture, file_bits, FileFrame, file_still, file_onward, PutsFile, ClearsFile};
ghost use Rattle.faults.specs.declared.fault.Fault.TheVariants.{Outside};
ghost use Rattle.tile_bytes.specs.Layout.{tile_of, cell_of};
ghost use Rattle.planes.specs.Planes.{PutsNumber, PutsBit, unmarked};

use crate::opening::opened_sides;
use faults::fault::Fault;
use planes::plane::{Plane, Store};
use std::alloc::AllocError;
use std::convert::AsSlice;
use tile_bytes::cells::{bit_of, number_of, put_cell};
use tile_bytes::sides::{Sides, TilePlace};
use tile_bytes::slots::clear_bits;

// The bytes of a file and the sides that they have.
#[derive(Drop)]
pub struct Opened<B: AsSlice<u8>> {
    bytes: B,
    sides: Sides,
    ghost has_the_rows: { sides.rows ≡ height (B.items bytes) },
    ghost has_the_columns: { sides.columns ≡ width (B.items bytes) },
}

// The bytes of a file, owned: open for reading and writing.
pub type TileFile = Opened<Vec<u8>>;

impl<B: AsSlice<u8> + Copy> Copy for Opened<B> {}

impl<B: AsSlice<u8> + Copy> Clone for Opened<B> {
    ghost is_clone = { λ x y. y ≡ x };

    ghost is_infallible = { λ _. ⊤ };

    fn clone(&self) -> Result<Opened<B>, AllocError> {
        Ok(*self)
    }
}

impl<B: AsSlice<u8>> Opened<B> {
    // The tile and the cell of a place of the plate.
    fn place(&self, row: usize, column: usize) -> Result<TilePlace, Fault>
        ensures is_the_tile_and_the_cell_or_the_fault { MatchResult result
            (λ p. (row < self.now.sides.rows) × (column < self.now.sides.columns)
            × (p.tile ≡ tile_of self.now.sides.columns row column) × (p.cell ≡ cell_of row column))
            (λ e. ((row < self.now.sides.rows) × (column < self.now.sides.columns) → ⊥) × (e ≡ Outside)) }
    {
        self.sides.place(row, column).ok_or(Fault::Outside)
    }

    // The file, with no rows and no columns where there is a fault; every byte stays as it is.
    pub fn open(bytes: B) -> Opened<B>
        ensures has_the_rows_or_none { result.sides.rows ≡ height (B.items bytes) }
        ensures has_the_columns_or_none { result.sides.columns ≡ width (B.items bytes) }
        ensures keeps_every_byte { result.bytes ≡ bytes }
        ensures shows_every_byte { B.items result.bytes ≡ B.items bytes }
    {
        let sides = opened_sides(bytes.as_slice());
        Opened { bytes, sides }
    }
}

impl Opened<Vec<u8>> {
    // The bytes as they are now.
    pub fn into_bytes(self) -> Vec<u8>
        ensures hands_the_bytes_back { result ≡ self.bytes }
    {
        let Opened { bytes, sides: _ } = self;
        bytes
    }
}

impl<B: AsSlice<u8>> Plane for Opened<B> {
    ghost picture = { λ s. file_picture (B.items s.bytes) };

    fn rows(&self) -> usize {
        self.sides.rows as usize
    }

    fn columns(&self) -> usize {
        self.sides.columns as usize
    }

    fn read(&self, row: usize, column: usize) -> Result<i32, Fault> {
        let place = self.place(row, column)?;
        Ok(number_of(self.bytes.as_slice(), self.sides, place))
    }
}

impl Store for Opened<Vec<u8>> {
    ghost bits = { λ s. file_bits s.bytes.items };

    ghost frame = { λ cleared s t. FileFrame cleared s.bytes.items t.bytes.items };

    ghost still = { λ cleared s. file_still cleared s.bytes.items };

    ghost onward = { λ early late s t u a b. file_onward early late s.bytes.items t.bytes.items u.bytes.items a b };

    // The four bytes of the number and the byte of the bit are written, and no other.
    fn put(&mut self, row: usize, column: usize, number: i32) -> Result<(), Fault>
        ensures writes_the_number { PutsNumber (file_picture self.old.bytes.items) row column number (file_picture self.new.bytes.items) result }
        ensures sets_the_bit { PutsBit (file_picture self.old.bytes.items) (file_bits self.old.bytes.items) row column (file_bits self.new.bytes.items) result }
        ensures leaves_what_lies_under { FileFrame false self.old.bytes.items self.new.bytes.items }
        ensures writes_one_cell { PutsFile self.old.bytes.items row column number self.new.bytes.items result }
    {
        let sides = self.sides;
        let place = self.place(row, column)?;
        put_cell(&mut self.bytes, sides, place, number);
        Ok(())
    }

    fn bit(&self, row: usize, column: usize) -> Result<bool, Fault> {
        let place = self.place(row, column)?;
        Ok(bit_of(&self.bytes, self.sides, place))
    }

    // Every byte of bits of every slot becomes 0, also of the bits beyond the plate's edge.
    fn clear(&mut self)
        ensures keeps_the_picture { file_picture self.new.bytes.items ≡ file_picture self.old.bytes.items }
        ensures unsets_every_bit { file_bits self.new.bytes.items ≡ unmarked }
        ensures leaves_what_lies_under { FileFrame true self.old.bytes.items self.new.bytes.items }
        ensures zeroes_every_byte_of_bits { ClearsFile self.old.bytes.items self.new.bytes.items }
    {
        clear_bits(&mut self.bytes, self.sides);
    }
}
