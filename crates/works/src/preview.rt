// Previewing: a rectangle of a resolution of the picture is copied out.
ghost use Rattle.std.specs.Prelude.{◌≡◌, ◌≤◌, true, false, length, MatchOption};
ghost use Rattle.planes.specs.Copies.{copy_fault, Copies};
ghost use Rattle.layers.specs.Layers.{lattice};
ghost use Rattle.works.specs.Works.{SameSides, Uncovers, Previewed, previews_there};

use crate::transform::Transform;
use faults::fault::Fault;
use kernels::kernel::Kernel;
use layers::level::LevelLayer;
use planes::cell::Cell;
use planes::copy::{copy_fault, copy_out};
use planes::flat::FlatStore;
use planes::level::Level;
use planes::plane::{Plane, Store};
use planes::rectangle::Rectangle;
use states::states::Cells;

// Copies a rectangle of a level's lattice out.
fn copy_level<W: Plane + Drop>(
    plane: W,
    level: Level,
    rectangle: Rectangle,
    output: &mut [i32],
) -> Result<(), Fault>
    ensures copies_the_rectangle_or_declines { Copies (lattice level.number (W.Plane.picture plane)) rectangle output.old output.new result }
{
    let layer = LevelLayer {
        below: plane,
        level,
    };
    copy_out(&layer, rectangle, output)
}

// Whether a preview can be made: the level is among the levels, the rectangle lies on its lattice, the output has room for it, and
// the scratch has room for a flat store of the store's sides.
pub fn can_preview(
    rows: usize,
    columns: usize,
    levels: Level,
    level: Level,
    rectangle: Rectangle,
    room: usize,
    scratch: &[Cell],
) -> bool
    ensures is_whether_all_fits { result ≡ previews_there rows columns levels.number level.number rectangle room (length scratch.now) }
{
    level.number <= levels.number
        && copy_fault(level.side(rows), level.side(columns), rectangle, room).is_none()
        && FlatStore::fault(scratch, rows, columns).is_none()
}

impl<'k, K: Kernel> Transform<'k, K> {
    // Works out, in another store, the rounds below a level: the cells of a plane are copied and undone so far.
    fn uncovered<A: Plane, W: Store>(&self, from: &A, work: W, level: Level) -> W
        requires same_sides { SameSides (A.Plane.picture from.now) (W.Plane.picture work) }
        requires among_the_levels { level.number ≤ self.now.levels.number }
        ensures has_the_same_sides { SameSides (A.Plane.picture from.now) (W.Plane.picture result) }
        ensures shows_the_rounds_below { Uncovers (K.Kernel.amounts self.now.kernel.now) self.now.levels.number level.number (A.Plane.picture from.now) (W.Plane.picture result) }
    {
        Cells::copy(work, from, self.levels)
            .undo(self.kernel, level)
            .into_store()
    }

    // Previews: the rectangle of the picture's resolution at a level is written into the front of the output, row by row. Where a preview
    // cannot be made, it answers none and changes nothing. The scratch is left open.
    pub fn preview<S: Plane>(
        &self,
        store: &S,
        level: Level,
        rectangle: Rectangle,
        scratch: &mut [Cell],
        output: &mut [i32],
    ) -> Option<()>
        ensures previews_or_changes_nothing { MatchOption result
            ((previews_there (S.Plane.picture store.now).height (S.Plane.picture store.now).width self.now.levels.number level.number rectangle (length output.old) (length scratch.old) ≡ false)
            × (output.new ≡ output.old)
            × (scratch.new ≡ scratch.old))
            (λ _. (previews_there (S.Plane.picture store.now).height (S.Plane.picture store.now).width self.now.levels.number level.number rectangle (length output.old) (length scratch.old) ≡ true)
            × Previewed (K.Kernel.amounts self.now.kernel.now) self.now.levels.number level.number rectangle (S.Plane.picture store.now) output.old output.new) }
    {
        let rows = store.rows();
        let columns = store.columns();
        if !can_preview(
            rows,
            columns,
            self.levels,
            level,
            rectangle,
            output.len(),
            scratch,
        ) {
            return None;
        }
        let work = FlatStore::new(scratch, rows, columns);
        let work = self.uncovered(store, work, level);
        copy_level(work, level, rectangle, output).unwrap();
        Some(())
    }
}
