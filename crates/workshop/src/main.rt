// Does the workshop's job from a script on standard input: makes or opens a plate, executes the calls on it, and prints what happened.
#![tactic(auto)]

use anyhow::anyhow;
use scripts::script::{Ending, Opening, Script, read_script};
use std::io::{Read, Write};
use std::process::ExitCode;
use tile_disk::{read_plate, write_plate};
use workshop_job::filed::{Performance, perform_file, perform_new_file};
use workshop_job::flat::perform_flat;

// Reports why the program ends early, in its own words alone.
fn main(rt: HostRuntime) -> ExitCode {
    match work(&rt) {
        Ok(()) => ExitCode::SUCCESS,
        Err(error) => {
            let _ = eprintln!(rt; "{error}");
            ExitCode::FAILURE
        }
    }
}

// The script that standard input states.
fn script_of(rt: &HostRuntime) -> anyhow::Result<Script> {
    let mut text = Vec::new(rt.alloc());
    rt.stdin().read_to_end(&mut text)?;
    Ok(read_script(rt.alloc(), &text)?)
}

// A path as text.
fn name_of(path: &[u8]) -> anyhow::Result<&str> {
    std::str::from_utf8(path).map_err(|_| anyhow!("a path is not text in UTF-8"))
}

// Whether a script ends with a saving, so that a new plate is kept in a tile file.
fn is_saved(endings: &[Ending]) -> bool {
    endings
        .iter()
        .any(|ending| matches!(ending, Ending::Save { .. }))
}

fn perform(rt: &HostRuntime, script: &mut Script) -> anyhow::Result<Performance> {
    let heap = rt.alloc();
    let turns = &mut script.turns;
    let endings = &script.endings;
    match &script.opening {
        Opening::Plate {
            number,
            kernel,
            rows,
            columns,
        } => {
            if is_saved(endings) {
                return Ok(perform_new_file(
                    heap, *number, *kernel, *rows, *columns, turns, endings,
                )?);
            }
            let text = perform_flat(heap, *number, *kernel, *rows, *columns, turns, endings)?;
            Ok(Performance { text, file: None })
        }
        Opening::Open {
            path,
            number,
            kernel,
        } => {
            let name = name_of(path)?;
            let bytes = read_plate(rt, name).map_err(|error| anyhow!("{name}: {error}"))?;
            Ok(perform_file(heap, *number, *kernel, bytes, turns, endings)?)
        }
    }
}

// Writes the file under each path that a saving names.
fn save(rt: &HostRuntime, endings: &[Ending], bytes: &[u8]) -> anyhow::Result<()> {
    for ending in endings {
        if let Ending::Save { path } = ending {
            let name = name_of(path)?;
            write_plate(rt, name, bytes).map_err(|error| anyhow!("{name}: {error}"))?;
        }
    }
    Ok(())
}

fn work(rt: &HostRuntime) -> anyhow::Result<()> {
    let mut script = script_of(rt)?;
    let performance = perform(rt, &mut script)?;
    rt.stdout().write_all(&performance.text)?;
    if let Some(bytes) = &performance.file {
        save(rt, &script.endings, bytes)?;
    }
    Ok(())
}
