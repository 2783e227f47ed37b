// Every mistake, with the number of its line.
use scripts::script::{Mistake, Trouble, Wrong, read_script};
use std::alloc::Global;
use std::process::Abort;
use std::test::Fail;

fn check_wrong(
    rt: &impl Abort,
    heap: Global,
    text: &[u8],
    line: usize,
    mistake: Mistake,
) -> Result<(), Fail> {
    let trouble = read_script(heap, text).err();
    assert_eq!(rt; trouble, Some(Trouble::Error(Wrong { line, mistake })));
    Ok(())
}

#[test]
fn words_and_numbers_are_judged(rt: HostRuntime) -> Result<(), Fail> {
    let heap = rt.alloc();
    check_wrong(&rt, heap, b"plates 1 S 1 1\n", 1, Mistake::NoSuchCommand)?;
    check_wrong(
        &rt,
        heap,
        b"plate 1 S 1 1\n\nPlate 1 S 1 1\n",
        3,
        Mistake::NoSuchCommand,
    )?;
    check_wrong(&rt, heap, b"plate 1 S 1\n", 1, Mistake::MissingWord)?;
    check_wrong(&rt, heap, b"plate 1 S 1 1 1\n", 1, Mistake::TooManyWords)?;
    check_wrong(&rt, heap, b"plate 1 s 1 1\n", 1, Mistake::NoSuchKernel)?;
    check_wrong(&rt, heap, b"plate x S 1 1\n", 1, Mistake::NotANumber)?;
    check_wrong(
        &rt,
        heap,
        b"plate 4294967296 S 1 1\n",
        1,
        Mistake::NotANumber,
    )?;
    check_wrong(
        &rt,
        heap,
        b"plate 1 S 1 1\nlease 1 2 3\n",
        2,
        Mistake::MissingWord,
    )?;
    check_wrong(
        &rt,
        heap,
        b"plate 1 S 1 1\nclear 0\n",
        2,
        Mistake::TooManyWords,
    )?;
    check_wrong(
        &rt,
        heap,
        b"plate 1 S 1 1\nlay 1 1 1\n",
        2,
        Mistake::MissingWord,
    )
}

#[test]
fn bounds_and_separators_are_judged(rt: HostRuntime) -> Result<(), Fail> {
    let heap = rt.alloc();
    check_wrong(
        &rt,
        heap,
        b"plate 1 S 1 1\nlay 1 1 1 0 65536\n",
        2,
        Mistake::SampleTooLarge,
    )?;
    check_wrong(
        &rt,
        heap,
        b"plate 1 S 1 1\nread 1\t2 3 4\n",
        2,
        Mistake::NotANumber,
    )?;
    check_wrong(
        &rt,
        heap,
        b"plate 1 S 1 1\nread 1 2 3\r\n",
        2,
        Mistake::NotANumber,
    )?;
    check_wrong(
        &rt,
        heap,
        b"plate 1 S 1 1\nsheet 65536 1\n",
        2,
        Mistake::IssueTooLarge,
    )?;
    check_wrong(&rt, heap, b"plate 1 S 1 1\nsave\n", 2, Mistake::MissingWord)?;
    check_wrong(&rt, heap, b"open a 1\n", 1, Mistake::MissingWord)
}

#[test]
fn the_order_of_commands_is_judged(rt: HostRuntime) -> Result<(), Fail> {
    let heap = rt.alloc();
    check_wrong(&rt, heap, b"", 1, Mistake::NoPlate)?;
    check_wrong(&rt, heap, b"# nothing\n\n", 3, Mistake::NoPlate)?;
    check_wrong(
        &rt,
        heap,
        b"\nclear\nplate 1 S 1 1\n",
        2,
        Mistake::OpeningMissing,
    )?;
    check_wrong(&rt, heap, b"save a\n", 1, Mistake::OpeningMissing)?;
    check_wrong(
        &rt,
        heap,
        b"plate 1 S 1 1\nopen a 1 S\n",
        2,
        Mistake::OpeningRepeated,
    )?;
    check_wrong(
        &rt,
        heap,
        b"plate 1 S 1 1\nsheet 1 1\nclear\n",
        3,
        Mistake::CallAfterEnding,
    )?;
    check_wrong(
        &rt,
        heap,
        b"plate 1 S 1 1\nclear 1\nplate 1 S 1 1\n",
        2,
        Mistake::TooManyWords,
    )
}
