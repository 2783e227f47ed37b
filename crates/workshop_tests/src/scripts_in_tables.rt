// Scripts and the text that each prints; over a new tile file it is the same as over the flat store.
use scripts::script::{Opening, read_script};
use std::alloc::Global;
use std::process::Abort;
use std::test::Fail;
use workshop_job::filed::{perform_file, perform_new_file};
use workshop_job::flat::perform_flat;

// A sheet that does not fit, and one that fits exactly.
const SHEETS: &str = "plate 9 S 1 4\nlay 1 4 255 2 10 20 30 40\nsheet 1 84\nsheet 1 85\n";

const SHEETS_PRINT: &str =
    "ok\nfault 15 3 0 the output is too short\n0100010001000400FF0202F6\n020000000004000000190000000A000000140000000AB9\n0300000004F9\nstore 1 4\n25* 10* 20* 10*\n";

// Nothing is laid.
const UNLAID: &str = "plate 9 5/3 2 3\nrecall\nsheet 65535 4294967295";

const UNLAID_PRINT: &str =
    "recalled none\nfault 20 3 0 the plate is unlaid\nstore 2 3\n0 0 0\n0 0 0\n";

// Only the cells of the cone are in the sheet.
const EDITED: &str =
    "plate 7 S 1 4\nlay 1 4 255 2 10 20 30 40\nclear\nlease 0 3 1 1\nsettle 7 1 4 44\npreview 1 0 0 1 2 4 2\nread 2 0 0\nsheet 2 1000";

const EDITED_PRINT: &str =
    "ok\nok\nlease 7 1\nsettled 3\npreview 15 37\ncell 26 set\n0100020001000400FF0202F5\n0200000000010000001AE3\n020000000202000000160000000ED6\n0300000003FA\nstore 1 4\n26* 10 22* 14*\n";

// There can be no such store.
const NO_SIDE: &str = "plate 9 S 0 4\nrecall";

const TOO_LONG: &str = "plate 9 S 4096 4097\nrecall";

const NO_STORE_PRINT: &str = "fault 1 2 0 the rows or columns are 0 or over 4096\n";

// Where the cells of a new plate are kept.
#[derive(Clone, Copy)]
enum Kept {
    InRecords,
    InAFile,
}

// What a script prints whose plate is new.
fn check_printed(
    rt: &impl Abort,
    heap: Global,
    kept: Kept,
    text: &str,
    expected: &str,
) -> Result<(), Fail> {
    let mut script = read_script(heap, text.as_bytes())?;
    let Opening::Plate {
        number,
        kernel,
        rows,
        columns,
    } = script.opening
    else {
        assert!(rt; false, "no new plate");
        return Ok(());
    };
    let turns = &mut script.turns;
    let endings = &script.endings;
    let printed = match kept {
        Kept::InRecords => perform_flat(heap, number, kernel, rows, columns, turns, endings)?,
        Kept::InAFile => perform_new_file(
            heap, number, kernel, rows, columns, turns, endings,
        )?.text,
    };
    assert_eq!(rt; printed.as_slice(), expected.as_bytes());
    Ok(())
}

fn check_table(rt: &impl Abort, heap: Global, kept: Kept) -> Result<(), Fail> {
    check_printed(rt, heap, kept, SHEETS, SHEETS_PRINT)?;
    check_printed(rt, heap, kept, UNLAID, UNLAID_PRINT)?;
    check_printed(rt, heap, kept, EDITED, EDITED_PRINT)?;
    check_printed(rt, heap, kept, NO_SIDE, NO_STORE_PRINT)?;
    check_printed(rt, heap, kept, TOO_LONG, NO_STORE_PRINT)
}

#[test]
fn a_flat_store_prints_what_the_table_says(rt: HostRuntime) -> Result<(), Fail> {
    check_table(&rt, rt.alloc(), Kept::InRecords)
}

#[test]
fn a_tile_file_prints_the_same(rt: HostRuntime) -> Result<(), Fail> {
    check_table(&rt, rt.alloc(), Kept::InAFile)
}

// Three bytes are no tile file: the fault is all that is printed, and there is nothing to save.
#[test]
fn no_file_prints_its_fault(rt: HostRuntime) -> Result<(), Fail> {
    let heap = rt.alloc();
    let mut script = read_script(heap, b"open kept.tiles 9 S\nrecall\nsave kept.tiles")?;
    let Opening::Open {
        path: _,
        number,
        kernel,
    } = script.opening
    else {
        assert!(rt; false, "no file");
        return Ok(());
    };
    let bytes = vec![in heap; 0u8; 3]?;
    let done = perform_file(
        heap,
        number,
        kernel,
        bytes,
        &mut script.turns,
        &script.endings,
    )?;
    assert!(rt; done.file.is_none());
    let expected = "fault 5 2 0 the store's memory is too short\n";
    assert_eq!(rt; done.text.as_slice(), expected.as_bytes());
    Ok(())
}
