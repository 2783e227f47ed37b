// Sheets of a plate of four samples, over the flat store.
use faults::fault::{Fault, Layer};
use kernels::five_three::FiveThree;
use model::plan::Plan;
use planes::cell::Cell;
use planes::flat::FlatStore;
use planes::places::PlatePlace;
use planes::plane::Store;
use plates::state::Plate;
use std::process::Abort;
use std::test::Fail;

const ROW: Plan = Plan {
    rows: 1,
    columns: 4,
    top: 255,
    levels: 2,
};

fn check_sheet(
    rt: &impl Abort,
    plate: &Plate<FlatStore<'_>, FiveThree>,
    text: &[u8],
) -> Result<(), Fail> {
    let mut out = [b'.'; 100];
    let length = plate.sheet(1, &mut out)?;
    assert_eq!(rt; out.get(0..length), Some(text));
    assert_eq!(rt; out.get(length), Some(&b'.'));
    Ok(())
}

// Laid, cleared, and one sample replaced, whose cone has three cells.
#[test]
fn a_plate_tells_its_changed_cells(rt: HostRuntime) -> Result<(), Fail> {
    let mut cells = [Cell::BLANK; 4];
    let mut scratch = [Cell::BLANK; 4];
    let mut plate = Plate::new(7, FlatStore::new(&mut cells, 1, 4), FiveThree);
    plate.lay(ROW, &[10, 20, 30, 40])?;
    check_sheet(
        &rt,
        &plate,
        b"0100010001000400FF0201F7\n0200000000040000001600000000000000170000000AC3\n0300000004F9\n",
    )?;
    plate.clear()?;
    check_sheet(&rt, &plate, b"0100010001000400FF0201F7\n0300000000FD\n")?;
    let lease = plate.lease(PlatePlace { row: 0, column: 3 }, 1, 1)?;
    plate.settle(lease, &[44], &mut scratch)?;
    check_sheet(
        &rt,
        &plate,
        b"0100010001000400FF0201F7\n02000000000100000016E7\n020000000202000000180000000ED4\n0300000003FA\n",
    )
}

#[test]
fn sheets_are_declined_in_order(rt: HostRuntime) -> Result<(), Fail> {
    let mut cells = [Cell::BLANK; 4];
    let mut out = [b'.'; 84];
    let mut plate = Plate::new(7, FlatStore::new(&mut cells, 1, 4), FiveThree);
    assert_eq!(rt; plate.sheet(1, &mut out), Err(Fault::Unlaid));
    plate.lay(ROW, &[10, 20, 30, 40])?;
    assert_eq!(rt;
        plate.sheet(1, &mut out),
        Err(Fault::OutputShort(Layer::Plate))
    );
    assert_eq!(rt; out, [b'.'; 84]);
    Ok(())
}
