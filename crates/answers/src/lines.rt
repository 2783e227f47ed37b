// The line of an answer.
ghost use Rattle.std.specs.Prelude.{◌≡◌, ◌*◌, take, Some, IfOk, string_bytes};
ghost use Rattle.answers.specs.Lines.{fault_line, preview_line, bit_words, line_of, answer_lines};

use faults::fault::Fault;
use planes::grid::is_covered;
use plates::calls::{Answer, Call, Turn};
use std::alloc::{AllocError, Global};
use std::fmt;

// The line of a fault: its number, layer, place and words.
#[derive(Clone, Copy)]
struct FaultLine(Fault);

impl fmt::Display for FaultLine {
    ghost output = { λ line. Some (fault_line line.0) };

    fn fmt<W: fmt::Write>(&self, f: &mut fmt::Formatter<W>) -> fmt::Result {
        let number = self.0.number();
        let layer = self.0.layer().number();
        let place = self.0.place();
        let words = self.0.words();
        writeln!(f, "fault {number} {layer} {place} {words}")
    }
}

// The first numbers of an output, a space before each.
fn numbers_shown(height: usize, width: usize, output: &[i32]) -> &[i32]
    ensures are_the_first { result.now ≡ take (height * width) output.now }
{
    if is_covered(height, width, output.len()) {
        &output[0..height * width]
    } else {
        output
    }
}

// The line of a preview: its numbers, a space before each.
#[derive(Clone, Copy)]
struct PreviewLine<'a>(&'a [i32]);

impl fmt::Display for PreviewLine<'_> {
    ghost output = { λ line. Some (preview_line line.0.now) };

    fn fmt<W: fmt::Write>(&self, f: &mut fmt::Formatter<W>) -> fmt::Result {
        f.write_str("preview")?;
        for number in self.0 {
            write!(f, " {number}")?;
        }
        writeln!(f)
    }
}

// Whether a bit is set, in words.
fn bit_words(bit: bool) -> &'static str
    ensures say_whether_it_is_set { result.now ≡ bit_words bit }
{
    if bit { " set\n" } else { " unset\n" }
}

// The line of a call and its answer.
#[derive(Clone, Copy)]
struct Line<'a>(&'a Turn);

impl fmt::Display for Line<'_> {
    ghost output = { λ line. Some (line_of line.0.now) };

    fn fmt<W: fmt::Write>(&self, f: &mut fmt::Formatter<W>) -> fmt::Result {
        match (self.0.answer, &self.0.call) {
            (None, _) => f.write_str("pending\n"),
            (Some(Err(fault)), _) => FaultLine(fault).fmt(f),
            (
                Some(Ok(Answer::Done)),
                Call::Preview {
                    height,
                    width,
                    output,
                    ..
                },
            ) => PreviewLine(numbers_shown(*height, *width, output)).fmt(f),
            (Some(Ok(Answer::Done)), _) => f.write_str("ok\n"),
            (Some(Ok(Answer::Leased(plate, serial))), _) => writeln!(f, "lease {plate} {serial}"),
            (Some(Ok(Answer::Settled(count))), _) => writeln!(f, "settled {count}"),
            (Some(Ok(Answer::Recalled(Some(serial)))), _) => writeln!(f, "recalled {serial}"),
            (Some(Ok(Answer::Recalled(None))), _) => f.write_str("recalled none\n"),
            (Some(Ok(Answer::CellRead(cell))), _) => {
                write!(f, "cell {}{}", cell.number, bit_words(cell.bit))
            },
        }
    }
}

// Number, layer, place and words of a fault.
pub fn fault_line(heap: Global, fault: Fault) -> Result<String, AllocError>
    ensures is_the_line_of_the_fault { IfOk result (λ s. string_bytes s ≡ fault_line fault) }
{
    FaultLine(fault).to_string(heap)
}

// The line of a call and its answer.
pub fn answer_line(heap: Global, turn: &Turn) -> Result<String, AllocError>
    ensures is_the_line_of_the_answer { IfOk result (λ s. string_bytes s ≡ line_of turn.now) }
{
    Line(turn).to_string(heap)
}

// The lines of the calls of a list, in their order.
pub fn answer_lines(heap: Global, turns: &[Turn]) -> Result<String, AllocError>
    ensures name_every_answer { IfOk result (λ s. string_bytes s ≡ answer_lines turns.now) }
{
    let mut text = String::new(heap);
    for turn in turns {
        text.push_str(&answer_line(heap, turn)?)?;
    }
    Ok(text)
}
