// A list of calls on a row of four samples: laid at two levels, its last sample replaced, and resolution 1 shown.
use faults::fault::{Fault, Layer};
use kernels::five_three::FiveThree;
use kernels::kernel::Kernel;
use kernels::s_transform::STransform;
use model::card::Card;
use model::plan::Plan;
use planes::cell::Cell;
use planes::flat::FlatStore;
use planes::places::{LatticePlace, PlatePlace};
use plates::calls::{Answer, Call, Turn};
use plates::run::run;
use std::alloc::{AllocError, Global};
use std::process::Abort;
use std::test::Fail;

const ROW: Plan = Plan {
    rows: 1,
    columns: 4,
    top: 255,
    levels: 2,
};

fn laying(heap: Global, plan: Plan) -> Result<Turn, AllocError> {
    Ok(Turn::waiting(Call::Lay {
        plan,
        samples: vec![in heap; 10, 20, 30, 40]?,
    }))
}

fn leasing(column: usize) -> Turn {
    Turn::waiting(Call::Lease {
        first: PlatePlace { row: 0, column },
        height: 1,
        width: 1,
    })
}

fn settling(heap: Global, serial: u32, records: usize) -> Result<Turn, AllocError> {
    let samples = vec![in heap; 44]?;
    let scratch = vec![in heap; Cell::BLANK; records]?;
    Ok(Turn::waiting(Call::Settle {
        plate: 7,
        serial,
        samples,
        scratch,
    }))
}

fn previewing(heap: Global, level: usize) -> Result<Turn, AllocError> {
    let scratch = vec![in heap; Cell::BLANK; 4]?;
    let output = vec![in heap; 0; 3]?;
    let first = LatticePlace { row: 0, column: 0 };
    Ok(Turn::waiting(Call::Preview {
        card: Card { level },
        first,
        height: 1,
        width: 2,
        scratch,
        output,
    }))
}

fn reading(column: usize) -> Turn {
    Turn::waiting(Call::Read {
        card: Card::new(),
        at: LatticePlace { row: 0, column },
    })
}

fn check_shown(rt: &impl Abort, turn: &Turn, numbers: [i32; 3]) -> Result<(), Fail> {
    match &turn.call {
        Call::Preview {
            card: _,
            first: _,
            height: _,
            width: _,
            scratch: _,
            output,
        } => {
            assert_eq!(rt; output.as_slice(), numbers.as_slice());
            Ok(())
        },
        _ => {
            assert!(rt; false, "not a preview");
            Ok(())
        },
    }
}

// Every call once, and what each answers; resolution 1 with the third number as it was.
fn check_run<K: Kernel + Drop>(
    rt: &impl Abort,
    heap: Global,
    kernel: K,
    resolution: [i32; 3],
) -> Result<(), Fail> {
    let mut cells = [Cell::BLANK; 4];
    let mut turns = [
        laying(heap, ROW)?,
        leasing(3),
        settling(heap, 1, 4)?,
        previewing(heap, 1)?,
        reading(3),
        Turn::waiting(Call::Clear),
        reading(3),
        leasing(0),
        Turn::waiting(Call::Surrender {
            plate: 7,
            serial: 2,
        }),
        Turn::waiting(Call::Recall),
    ];
    let plate = run(7, FlatStore::new(&mut cells, 1, 4), kernel, &mut turns);
    let _store = plate.into_store();
    assert_eq!(rt; turns[0].answer, Some(Ok(Answer::Done)));
    assert_eq!(rt; turns[1].answer, Some(Ok(Answer::Leased(7, 1))));
    assert_eq!(rt; turns[2].answer, Some(Ok(Answer::Settled(3))));
    assert_eq!(rt; turns[3].answer, Some(Ok(Answer::Done)));
    check_shown(rt, &turns[3], resolution)?;
    assert_eq!(rt;
        turns[4].answer,
        Some(Ok(Answer::CellRead(Cell {
            number: 14,
            bit: true
        })))
    );
    assert_eq!(rt; turns[5].answer, Some(Ok(Answer::Done)));
    assert_eq!(rt;
        turns[6].answer,
        Some(Ok(Answer::CellRead(Cell {
            number: 14,
            bit: false
        })))
    );
    assert_eq!(rt; turns[7].answer, Some(Ok(Answer::Leased(7, 2))));
    assert_eq!(rt; turns[8].answer, Some(Ok(Answer::Done)));
    assert_eq!(rt; turns[9].answer, Some(Ok(Answer::Recalled(None))));
    Ok(())
}

#[test]
fn five_three_answers_every_call(rt: HostRuntime) -> Result<(), Fail> {
    check_run(&rt, rt.alloc(), FiveThree, [10, 34, 0])
}

#[test]
fn s_transform_answers_every_call(rt: HostRuntime) -> Result<(), Fail> {
    check_run(&rt, rt.alloc(), STransform, [15, 37, 0])
}

// Declined calls leave a list's other calls as they are: no plate is laid, so all but laying and recall decline.
#[test]
fn an_unlaid_plate_declines(rt: HostRuntime) -> Result<(), Fail> {
    let heap = rt.alloc();
    let mut cells = [Cell::BLANK; 4];
    let mut turns = [
        leasing(0),
        settling(heap, 1, 4)?,
        Turn::waiting(Call::Surrender {
            plate: 7,
            serial: 1,
        }),
        Turn::waiting(Call::Recall),
        previewing(heap, 1)?,
        reading(0),
        Turn::waiting(Call::Clear),
        laying(
            heap,
            Plan {
                rows: 1,
                columns: 4,
                top: 255,
                levels: 6,
            },
        )?,
    ];
    let plate = run(7, FlatStore::new(&mut cells, 1, 4), FiveThree, &mut turns);
    let _store = plate.into_store();
    assert_eq!(rt; turns[0].answer, Some(Err(Fault::Unlaid)));
    assert_eq!(rt; turns[1].answer, Some(Err(Fault::WrongLease)));
    assert_eq!(rt; turns[2].answer, Some(Err(Fault::WrongLease)));
    assert_eq!(rt; turns[3].answer, Some(Ok(Answer::Recalled(None))));
    assert_eq!(rt; turns[4].answer, Some(Err(Fault::Unlaid)));
    check_shown(&rt, &turns[4], [0, 0, 0])?;
    assert_eq!(rt; turns[5].answer, Some(Err(Fault::Unlaid)));
    assert_eq!(rt; turns[6].answer, Some(Err(Fault::Unlaid)));
    assert_eq!(rt; turns[7].answer, Some(Err(Fault::Levels(Layer::Plate))));
    Ok(())
}

// The last serial is 65,535, whatever became of the leases before.
#[test]
fn serials_are_spent(rt: HostRuntime) -> Result<(), Fail> {
    let heap = rt.alloc();
    let mut cells = [Cell::BLANK; 4];
    let mut turns = Vec::new(heap);
    turns.push(laying(heap, ROW)?)?;
    for _ in 0..65535 {
        turns.push(leasing(0))?;
        turns.push(Turn::waiting(Call::Recall))?;
    }
    turns.push(leasing(0))?;
    let plate = run(7, FlatStore::new(&mut cells, 1, 4), FiveThree, &mut turns);
    let _store = plate.into_store();
    assert!(rt; turns.len() == 131072);
    assert_eq!(rt; turns[131069].answer, Some(Ok(Answer::Leased(7, 65535))));
    assert_eq!(rt;
        turns[131070].answer,
        Some(Ok(Answer::Recalled(Some(65535))))
    );
    assert_eq!(rt; turns[131071].answer, Some(Err(Fault::SerialsSpent)));
    Ok(())
}
