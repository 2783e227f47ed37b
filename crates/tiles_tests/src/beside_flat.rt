// One list of calls on a plate over a tile file and over the flat store: the answers, the cells and the bits agree.
use faults::fault::Fault;
use kernels::five_three::FiveThree;
use model::card::Card;
use model::plan::Plan;
use planes::cell::Cell;
use planes::flat::FlatStore;
use planes::places::{LatticePlace, PlatePlace};
use planes::plane::{Plane, Store};
use plates::calls::{Call, Turn};
use plates::run::run;
use std::alloc::{AllocError, Global};
use std::process::Abort;
use std::test::Fail;
use tile_bytes::header::write_slot;
use tiles::file::TileFile;
use tiles::formatting::format;

// Samples without a pattern that tiles could repeat.
fn samples(heap: Global, count: usize, step: usize) -> Result<Vec<u16>, AllocError> {
    let mut samples = vec![in heap; 0u16; count]?;
    for (i, sample) in samples.iter_mut().enumerate() {
        *sample = (i.wrapping_mul(step) % 251) as u16;
    }
    Ok(samples)
}

// Lays 17 × 18 samples, settles a rectangle over the corner of four tiles, clears, settles another, and shows and reads what came of it.
fn turns(heap: Global) -> Result<[Turn; 8], AllocError> {
    let scratch = vec![in heap; Cell::BLANK; 306]?;
    let more = vec![in heap; Cell::BLANK; 306]?;
    let rest = vec![in heap; Cell::BLANK; 306]?;
    let output = vec![in heap; 0; 20]?;
    Ok([
        Turn::waiting(Call::Lay {
            plan: Plan {
                rows: 17,
                columns: 18,
                top: 255,
                levels: 3,
            },
            samples: samples(heap, 306, 37)?,
        }),
        Turn::waiting(Call::Lease {
            first: PlatePlace {
                row: 14,
                column: 13,
            },
            height: 3,
            width: 4,
        }),
        Turn::waiting(Call::Settle {
            plate: 7,
            serial: 1,
            samples: samples(heap, 12, 91)?,
            scratch,
        }),
        Turn::waiting(Call::Clear),
        Turn::waiting(Call::Lease {
            first: PlatePlace {
                row: 16,
                column: 17,
            },
            height: 1,
            width: 1,
        }),
        Turn::waiting(Call::Settle {
            plate: 7,
            serial: 2,
            samples: samples(heap, 1, 0)?,
            scratch: more,
        }),
        Turn::waiting(Call::Preview {
            card: Card { level: 2 },
            first: LatticePlace { row: 0, column: 0 },
            height: 4,
            width: 5,
            scratch: rest,
            output,
        }),
        Turn::waiting(Call::Read {
            card: Card { level: 1 },
            at: LatticePlace { row: 8, column: 8 },
        }),
    ])
}

// A blank file of 17 × 18, its four tiles in the slots 2, 0, 3 and 1, and three bytes after the last.
fn tile_file(heap: Global) -> Result<TileFile, Fail> {
    let mut bytes = vec![in heap; 170u8; 4239]?;
    format(&mut bytes, 17, 18)?;
    write_slot(&mut bytes, 0, 2);
    write_slot(&mut bytes, 1, 0);
    write_slot(&mut bytes, 2, 3);
    write_slot(&mut bytes, 3, 1);
    Ok(TileFile::open(bytes))
}

fn played<S: Store>(store: S, turns: &mut [Turn]) -> S {
    run(7, store, FiveThree, turns).into_store()
}

fn check_output(rt: &impl Abort, a: &Call, b: &Call) -> Result<(), Fail> {
    match (a, b) {
        (
            Call::Preview {
                card: _,
                first: _,
                height: _,
                width: _,
                scratch: _,
                output: x,
            },
            Call::Preview {
                card: _,
                first: _,
                height: _,
                width: _,
                scratch: _,
                output: y,
            },
        ) => {
            assert_eq!(rt; x.as_slice(), y.as_slice());
            Ok(())
        },
        _ => Ok(()),
    }
}

fn check_turns(rt: &impl Abort, a: &[Turn], b: &[Turn]) -> Result<(), Fail> {
    assert_eq!(rt; a.len(), b.len());
    for (x, y) in a.iter().zip(b.iter()) {
        assert_eq!(rt; x.answer, y.answer);
        assert!(rt; x.answer.is_some());
        check_output(rt, &x.call, &y.call)?;
    }
    Ok(())
}

fn check_alike<A: Store, B: Store>(rt: &impl Abort, a: &A, b: &B) {
    for row in 0..18 {
        for column in 0..19 {
            assert_eq!(rt; a.read(row, column), b.read(row, column));
            assert_eq!(rt; a.bit(row, column), b.bit(row, column));
        }
    }
}

fn check_after_the_slots(rt: &impl Abort, bytes: &[u8]) {
    assert!(rt; bytes.len() == 4239);
    assert_eq!(rt; &bytes[4236..4239], [170u8, 170, 170].as_slice());
}

#[test]
fn a_tile_file_answers_as_the_flat_store(rt: HostRuntime) -> Result<(), Fail> {
    let heap = rt.alloc();
    let mut cells = vec![in heap; Cell::BLANK; 306]?;
    let mut by_flat = turns(heap)?;
    let mut by_tiles = turns(heap)?;
    let flat = played(FlatStore::new(&mut cells, 17, 18), &mut by_flat);
    let tiles = played(tile_file(heap)?, &mut by_tiles);
    check_turns(&rt, &by_flat, &by_tiles)?;
    check_alike(&rt, &flat, &tiles);
    check_after_the_slots(&rt, &tiles.into_bytes());
    Ok(())
}
