// A plate's file on disk: written, replaced and read back.
use std::test::Fail;
use std::{fs, process};
use tile_disk::{read_plate, write_plate};

#[test]
fn a_file_is_replaced_whole(rt: HostRuntime) -> Result<(), Fail> {
    let id = process::id(rt.process());
    let path = format!(in rt.alloc(); "/tmp/tile_disk_test_{id}")?;
    let beside = format!(in rt.alloc(); "/tmp/tile_disk_test_{id}.new")?;
    let path = path.as_str();
    assert!(rt; read_plate(&rt, path).is_err());
    write_plate(&rt, path, b"the first file")?;
    write_plate(&rt, path, b"the second")?;
    let bytes = read_plate(&rt, path)?;
    fs::remove_file(&rt, path)?;
    assert_eq!(rt; bytes.as_slice(), b"the second".as_slice());
    assert!(rt; read_plate(&rt, beside.as_str()).is_err());
    assert!(rt; write_plate(&rt, "/tmp/no such folder/plate", b"").is_err());
    Ok(())
}
