// Plates kept in tile files on disk.
#![tactic(auto)]

ghost use Rattle.std.specs.Prelude.{◌≡◌, ◌++◌, IfOk, string_bytes, codes};

use std::alloc::{AllocError, Allocator};
use std::fs::OpenFile;
use std::io::Write;
use std::rt::Files;
use std::{fs, io};

// The name of the file that is written beside another before it takes that one's place.
fn name_beside<A: Allocator>(heap: A, path: &str) -> Result<String<A>, AllocError>
    ensures is_the_path_with_an_ending { IfOk result (λ name. string_bytes name ≡ path.now ++ codes ".new") }
{
    format!(in heap; "{path}.new")
}

// Writes a whole file and waits until the disk has it.
fn write_through(rt: &impl Files, path: &str, bytes: &[u8]) -> io::Result<()> {
    let mut file = fs::create(rt, path)?;
    file.write_all(bytes)?;
    file.sync_all()
}

// The bytes of a plate's file.
pub fn read_plate<R: Files + Alloc>(rt: &R, path: &str) -> io::Result<Vec<u8, R::A>> {
    fs::read(rt, path)
}

// Replaces a plate's file by these bytes: they are written beside it first, and then take its name.
pub fn write_plate<R: Files + Alloc>(rt: &R, path: &str, bytes: &[u8]) -> io::Result<()> {
    let beside = name_beside(rt.alloc(), path)?;
    write_through(rt, beside.as_str(), bytes).inspect_err(|_| {
        let _ = fs::remove_file(rt, beside.as_str());
    })?;
    fs::rename(rt, beside.as_str(), path)
}
