// Every command, as numbers, and the spaces, blank lines and comments around it.
use kernels::choice::KernelChoice;
use plates::calls::Call;
use scripts::script::{Ending, Opening, Script, read_script};
use std::alloc::Global;
use std::process::Abort;
use std::test::Fail;

fn kernel_code(kernel: KernelChoice) -> usize {
    match kernel {
        KernelChoice::FiveThree => 1,
        KernelChoice::STransform => 2,
    }
}

fn opening_numbers(opening: &Opening) -> [usize; 5] {
    match opening {
        Opening::Plate {
            number,
            kernel,
            rows,
            columns,
        } => [1, *number as usize, kernel_code(*kernel), *rows, *columns],
        Opening::Open {
            path,
            number,
            kernel,
        } => [2, path.len(), *number as usize, kernel_code(*kernel), 0],
    }
}

fn call_numbers(call: &Call) -> [usize; 8] {
    match call {
        Call::Lay { plan, samples } => {
            let last = samples.as_slice().last().copied().unwrap_or(0);
            [
                1,
                plan.rows,
                plan.columns,
                plan.top,
                plan.levels,
                samples.len(),
                last as usize,
                0,
            ]
        }
        Call::Lease {
            first,
            height,
            width,
        } => [2, first.row, first.column, *height, *width, 0, 0, 0],
        Call::Settle {
            plate,
            serial,
            samples,
            scratch,
        } => [
            3,
            *plate as usize,
            *serial as usize,
            scratch.len(),
            samples.len(),
            0,
            0,
            0,
        ],
        Call::Surrender { plate, serial } => [4, *plate as usize, *serial as usize, 0, 0, 0, 0, 0],
        Call::Recall => [5, 0, 0, 0, 0, 0, 0, 0],
        Call::Preview {
            card,
            first,
            height,
            width,
            scratch,
            output,
        } => [
            6,
            card.level,
            first.row,
            first.column,
            *height,
            *width,
            scratch.len(),
            output.len(),
        ],
        Call::Read { card, at } => [7, card.level, at.row, at.column, 0, 0, 0, 0],
        Call::Clear => [8, 0, 0, 0, 0, 0, 0, 0],
    }
}

fn ending_numbers(ending: &Ending) -> [usize; 3] {
    match ending {
        Ending::Sheet { issue, room } => [1, *issue as usize, *room],
        Ending::Save { path } => [2, path.len(), 0],
    }
}

fn check_opening(
    rt: &impl Abort,
    heap: Global,
    text: &[u8],
    numbers: [usize; 5],
) -> Result<(), Fail> {
    let script = read_script(heap, text)?;
    assert_eq!(rt; opening_numbers(&script.opening), numbers);
    Ok(())
}

// The only call of a script; its answer is still to come.
fn check_call(rt: &impl Abort, heap: Global, text: &[u8], numbers: [usize; 8]) -> Result<(), Fail> {
    let Script {
        opening: _,
        turns,
        endings: _,
    } = read_script(heap, text)?;
    assert!(rt; turns.len() == 1);
    assert_eq!(rt; turns[0].answer, None);
    assert_eq!(rt; call_numbers(&turns[0].call), numbers);
    Ok(())
}

// The last ending of a script.
fn check_ending(
    rt: &impl Abort,
    heap: Global,
    text: &[u8],
    numbers: [usize; 3],
) -> Result<(), Fail> {
    let script = read_script(heap, text)?;
    let count = script.endings.len();
    assert!(rt; count > 0);
    assert_eq!(rt; ending_numbers(&script.endings[count - 1]), numbers);
    Ok(())
}

#[test]
fn openings_are_read(rt: HostRuntime) -> Result<(), Fail> {
    let heap = rt.alloc();
    check_opening(&rt, heap, b"plate 7 5/3 2 3", [1, 7, 1, 2, 3])?;
    check_opening(
        &rt,
        heap,
        b"plate 4294967295 S 0 4294967295\n",
        [1, 4294967295, 2, 0, 4294967295],
    )?;
    check_opening(&rt, heap, b"open a.tile 007 S\n", [2, 6, 7, 2, 0])?;
    check_opening(
        &rt,
        heap,
        b"\n  # a comment\n#another\n  plate  7  5/3  2   3  \n\n",
        [1, 7, 1, 2, 3],
    )
}

#[test]
fn calls_are_read(rt: HostRuntime) -> Result<(), Fail> {
    let heap = rt.alloc();
    check_call(
        &rt,
        heap,
        b"plate 1 S 1 1\nlay 1 2 255 0 10 65535\n",
        [1, 1, 2, 255, 0, 2, 65535, 0],
    )?;
    check_call(
        &rt,
        heap,
        b"plate 1 S 1 1\nlay 1 2 255 0\n",
        [1, 1, 2, 255, 0, 0, 0, 0],
    )?;
    check_call(
        &rt,
        heap,
        b"plate 1 S 1 1\nlease 1 2 3 4\n",
        [2, 1, 2, 3, 4, 0, 0, 0],
    )?;
    check_call(
        &rt,
        heap,
        b"plate 1 S 1 1\nsettle 7 1 12 5 6 7\n",
        [3, 7, 1, 12, 3, 0, 0, 0],
    )?;
    check_call(
        &rt,
        heap,
        b"plate 1 S 1 1\nsurrender 7 65536\n",
        [4, 7, 65536, 0, 0, 0, 0, 0],
    )?;
    check_call(
        &rt,
        heap,
        b"plate 1 S 1 1\nrecall\n",
        [5, 0, 0, 0, 0, 0, 0, 0],
    )?;
    check_call(
        &rt,
        heap,
        b"plate 1 S 1 1\npreview 1 2 3 4 5 6 7\n",
        [6, 1, 2, 3, 4, 5, 6, 7],
    )?;
    check_call(
        &rt,
        heap,
        b"plate 1 S 1 1\nread 1 2 3\n",
        [7, 1, 2, 3, 0, 0, 0, 0],
    )?;
    check_call(
        &rt,
        heap,
        b"plate 1 S 1 1\n clear ",
        [8, 0, 0, 0, 0, 0, 0, 0],
    )
}

#[test]
fn endings_are_read(rt: HostRuntime) -> Result<(), Fail> {
    let heap = rt.alloc();
    check_ending(
        &rt,
        heap,
        b"plate 1 S 1 1\nclear\nsheet 65535 4294967295\n",
        [1, 65535, 4294967295],
    )?;
    check_ending(
        &rt,
        heap,
        b"plate 1 S 1 1\nsheet 1 2\nsave a/b.tile",
        [2, 8, 0],
    )
}
