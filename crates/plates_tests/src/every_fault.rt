// A list that meets every fault of every call but the last serial, on a row of four samples.
use faults::fault::{Fault, Layer};
use kernels::five_three::FiveThree;
use model::card::Card;
use model::plan::Plan;
use planes::cell::Cell;
use planes::flat::FlatStore;
use planes::places::{LatticePlace, PlatePlace};
use plates::calls::{Answer, Call, Turn};
use plates::run::run;
use std::alloc::{AllocError, Global};
use std::test::Fail;

// Samples of a row of so many columns, laid at some levels.
fn laying(
    heap: Global,
    rows: usize,
    columns: usize,
    top: usize,
    levels: usize,
    samples: &[u16],
) -> Result<Turn, AllocError> {
    Ok(Turn::waiting(Call::Lay {
        plan: Plan {
            rows,
            columns,
            top,
            levels,
        },
        samples: Vec::from_slice(heap, samples)?,
    }))
}

fn leasing(column: usize, width: usize) -> Turn {
    Turn::waiting(Call::Lease {
        first: PlatePlace { row: 0, column },
        height: 1,
        width,
    })
}

fn settling(
    heap: Global,
    serial: u32,
    samples: &[u16],
    records: usize,
) -> Result<Turn, AllocError> {
    Ok(Turn::waiting(Call::Settle {
        plate: 7,
        serial,
        samples: Vec::from_slice(heap, samples)?,
        scratch: vec![in heap; Cell::BLANK; records]?,
    }))
}

fn surrendering(serial: u32) -> Turn {
    Turn::waiting(Call::Surrender { plate: 7, serial })
}

fn previewing(
    heap: Global,
    level: usize,
    width: usize,
    records: usize,
    room: usize,
) -> Result<Turn, AllocError> {
    Ok(Turn::waiting(Call::Preview {
        card: Card { level },
        first: LatticePlace { row: 0, column: 0 },
        height: 1,
        width,
        scratch: vec![in heap; Cell::BLANK; records]?,
        output: vec![in heap; 0; room]?,
    }))
}

fn reading(level: usize, column: usize) -> Turn {
    Turn::waiting(Call::Read {
        card: Card { level },
        at: LatticePlace { row: 0, column },
    })
}

// What an unlaid plate answers to each call, and then to layings that are declined.
fn before_a_laying(heap: Global) -> Result<[(Turn, Fault); 13], AllocError> {
    let row: [u16; 4] = [10, 20, 30, 40];
    Ok([
        (leasing(0, 1), Fault::Unlaid),
        (previewing(heap, 0, 1, 4, 1)?, Fault::Unlaid),
        (reading(0, 0), Fault::Unlaid),
        (Turn::waiting(Call::Clear), Fault::Unlaid),
        (settling(heap, 1, &[44], 4)?, Fault::WrongLease),
        (surrendering(1), Fault::WrongLease),
        (laying(heap, 0, 4, 255, 2, &row)?, Fault::Size(Layer::Plate)),
        (
            laying(heap, 1, 4, 255, 6, &row)?,
            Fault::Levels(Layer::Plate),
        ),
        (laying(heap, 1, 4, 0, 2, &row)?, Fault::Top(Layer::Plate)),
        (laying(heap, 1, 4, 65535, 5, &row)?, Fault::Budget),
        (laying(heap, 2, 4, 255, 2, &row)?, Fault::StoreDiffers),
        (
            laying(heap, 1, 4, 255, 2, &[10, 20, 30])?,
            Fault::SampleCount,
        ),
        (
            laying(heap, 1, 4, 255, 2, &[10, 20, 300, 40])?,
            Fault::Sample(Layer::Plate, 2),
        ),
    ])
}

// What a laid plate answers while a lease is out and after it has ended by a fault.
fn with_a_lease(heap: Global) -> Result<[(Turn, Result<Answer, Fault>); 12], AllocError> {
    let row: [u16; 4] = [10, 20, 30, 40];
    let leased = |serial| Ok(Answer::Leased(7, serial));
    Ok([
        (laying(heap, 1, 4, 255, 2, &row)?, Ok(Answer::Done)),
        (leasing(3, 0), Err(Fault::Rectangle(Layer::Plate))),
        (leasing(3, 1), leased(1)),
        (leasing(3, 1), Err(Fault::LeaseOut)),
        (laying(heap, 1, 4, 255, 2, &row)?, Err(Fault::LeaseOut)),
        (settling(heap, 2, &[44], 4)?, Err(Fault::WrongLease)),
        (settling(heap, 1, &[44, 44], 4)?, Err(Fault::SampleCount)),
        (leasing(3, 1), leased(2)),
        (
            settling(heap, 2, &[256], 4)?,
            Err(Fault::Sample(Layer::Plate, 0)),
        ),
        (leasing(3, 1), leased(3)),
        (settling(heap, 3, &[44], 3)?, Err(Fault::ScratchShort)),
        (surrendering(3), Err(Fault::WrongLease)),
    ])
}

// What it answers to previews and readings that are declined.
fn looking(heap: Global) -> Result<[(Turn, Fault); 6], AllocError> {
    Ok([
        (previewing(heap, 3, 1, 4, 1)?, Fault::LevelInHand),
        (
            previewing(heap, 1, 3, 4, 3)?,
            Fault::Rectangle(Layer::Plate),
        ),
        (
            previewing(heap, 1, 2, 4, 1)?,
            Fault::OutputShort(Layer::Plate),
        ),
        (previewing(heap, 1, 2, 3, 2)?, Fault::ScratchShort),
        (reading(3, 0), Fault::LevelInHand),
        (reading(1, 2), Fault::Outside),
    ])
}

#[test]
fn every_fault_is_met(rt: HostRuntime) -> Result<(), Fail> {
    let heap = rt.alloc();
    let mut cells = [Cell::BLANK; 4];
    let mut turns = Vec::new(heap);
    let mut answers = Vec::new(heap);
    for (turn, fault) in before_a_laying(heap)? {
        turns.push(turn)?;
        answers.push(Err(fault))?;
    }
    for (turn, answer) in with_a_lease(heap)? {
        turns.push(turn)?;
        answers.push(answer)?;
    }
    for (turn, fault) in looking(heap)? {
        turns.push(turn)?;
        answers.push(Err(fault))?;
    }
    let plate = run(7, FlatStore::new(&mut cells, 1, 4), FiveThree, &mut turns);
    let _store = plate.into_store();
    for (turn, answer) in turns.iter().zip(answers.iter()) {
        assert_eq!(rt; turn.answer, Some(*answer));
    }
    Ok(())
}
