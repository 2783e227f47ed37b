// The sides of a plate in tiles of 16 × 16 places.
ghost use Rattle.std.specs.Prelude.{◌≡◌, ◌+◌, ◌*◌, ◌/◌, ◌<◌, ◌≤◌, MatchOption};
ghost use Rattle.tile_bytes.specs.Layout.{tiles_along, tile_count, slot_start, slots_end, tile_of, cell_of};

// Rows and columns, as the first four bytes of a file hold them.
#[derive(Clone, Copy, PartialEq, Eq, Debug)]
pub struct Sides {
    pub rows: u16,
    pub columns: u16,
}

// A place of the plate: its tile, counted row by row, and its cell in the tile.
#[derive(Clone, Copy, PartialEq, Eq, Debug)]
pub struct TilePlace {
    pub tile: u32,
    pub cell: u8,
}

fn tiles_along(side: u16) -> u32
    ensures is_a_sixteenth_rounded_up { result ≡ tiles_along side }
{
    (side as u32 + 15) / 16
}

impl Sides {
    // The sides, if none is over 4,096, the longest of a plate.
    pub fn new(rows: usize, columns: usize) -> Option<Sides>
        ensures are_the_sides_up_to_4096 { MatchOption result
            ((rows ≤ 4096) × (columns ≤ 4096) → ⊥)
            (λ s. (rows ≤ 4096) × (columns ≤ 4096) × (s.rows ≡ rows) × (s.columns ≡ columns)) }
    {
        if rows <= 4096 && columns <= 4096 {
            Some(Sides {
                rows: rows as u16,
                columns: columns as u16,
            })
        } else {
            None
        }
    }

    // The number of tiles.
    pub fn tiles(self) -> u32
        ensures is_the_number_of_tiles { result ≡ tile_count self.rows self.columns }
    {
        tiles_along(self.rows) * tiles_along(self.columns)
    }

    // Where a slot starts: behind the head and the slots before it.
    pub(crate) fn slot_start(self, slot: u32) -> usize
        ensures is_where_the_slot_starts { result ≡ slot_start (tile_count self.rows self.columns) slot }
    {
        4 + 2 * self.tiles() as usize + 1056 * slot as usize
    }

    // The length of a file: the head and all slots.
    pub fn file_length(self) -> usize
        ensures is_where_the_last_slot_ends { result ≡ slots_end (tile_count self.rows self.columns) }
    {
        self.slot_start(self.tiles())
    }

    // The tile and the cell of a place, if the place is inside.
    pub fn place(self, row: usize, column: usize) -> Option<TilePlace>
        ensures is_the_tile_and_the_cell { MatchOption result
            ((row < self.rows) × (column < self.columns) → ⊥)
            (λ p. (row < self.rows) × (column < self.columns) × (p.tile ≡ tile_of self.columns row column) × (p.cell ≡ cell_of row column)) }
    {
        if row < self.rows as usize && column < self.columns as usize {
            let tile = (row / 16) as u32 * tiles_along(self.columns) + (column / 16) as u32;
            let cell = (row % 16 * 16 + column % 16) as u8;
            Some(TilePlace { tile, cell })
        } else {
            None
        }
    }
}
