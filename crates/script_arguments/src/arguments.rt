// The words and the numbers after a command's name.
ghost use Rattle.std.specs.Prelude.{◌≡◌, Err, MatchResult, Option, vec_items};
ghost use Rattle.std.specs.Fn.{FnReturnsAt};
ghost use Rattle.std.specs.Option.{ok_or};
ghost use Rattle.script_words.specs.Words.{words};
ghost use Rattle.script_arguments.specs.declared.mistake.Mistake.TheVariants as mistake;
ghost use Rattle.script_arguments.specs.Arguments.{with, beside, first_word, first_number, first_kernel, no_more, numbers, samples};
ghost use Rattle.script_arguments.specs.Readings.{Reads, Takes};

use crate::flaw::Flaw;
use crate::mistake::Mistake;
use crate::names::kernel_of;
use kernels::choice::KernelChoice;
use script_words::numbers::number_of;
use script_words::pieces::{Words, next_word};
use std::alloc::Global;

// The first word, and the line after it.
pub fn first_word(line: &[u8]) -> Result<(&[u8], &[u8]), Mistake>
    ensures is_the_first_word_or_misses_it { Takes (λ w. w.now) result (first_word (words line.now)) }
{
    next_word(line).ok_or(Mistake::MissingWord)
}

// The first word as what a reading makes of it, and the line after it.
fn first_as<T, F: Fn(&[u8]) -> Option<T>>(
    line: &[u8],
    read: F,
    mistake: Mistake,
) -> Result<(T, &[u8]), Mistake>
    requires { F.IsAlwaysCallable read }
    ensures is_what_is_read_or_misses_it { MatchResult (first_word (words line.now)) (λ p. (o : Option T) × FnReturnsAt F.Fn read p.0 o × Takes (λ x. x) result (with (beside p.1) (ok_or o mistake))) (λ m. result ≡ Err m) }
{
    let (word, rest) = first_word(line)?;
    let value = read(word).ok_or(mistake)?;
    Ok((value, rest))
}

// The first word as a number, and the line after it.
pub fn first_number(line: &[u8]) -> Result<(u32, &[u8]), Mistake>
    ensures is_the_first_number_or_misses_it { Takes (λ n. n) result (first_number (words line.now)) }
{
    first_as(line, number_of, Mistake::NotANumber)
}

// The first word as a kernel, and the line after it.
pub fn first_kernel(line: &[u8]) -> Result<(KernelChoice, &[u8]), Mistake>
    ensures is_the_first_kernel_or_misses_it { Takes (λ k. k) result (first_kernel (words line.now)) }
{
    first_as(line, kernel_of, Mistake::NoSuchKernel)
}

// That no word is left.
pub fn no_more(line: &[u8]) -> Result<(), Mistake>
    ensures is_the_end_or_one_word_too_many { result ≡ no_more (words line.now) }
{
    match next_word(line) {
        None => Ok(()),
        Some(_) => Err(Mistake::TooManyWords),
    }
}

// Every word as a number.
#[tactic(auto, using(std::proofs::lemmas::Grind::common_steps, crate::proofs::Lists::words_as_numbers))]
pub fn numbers_of(heap: Global, line: &[u8]) -> Result<Vec<u32>, Flaw>
    ensures are_the_numbers_of_all_words { Reads vec_items result (ok_or (numbers (words line.now)) mistake.NotANumber) }
{
    let mut all = Vec::new(heap);
    for word in Words(line) {
        all.push(number_of(word).ok_or(Mistake::NotANumber)?)?;
    }
    Ok(all)
}

// Numbers as samples.
#[tactic(auto, using(std::proofs::lemmas::Bool::Decides::nat_tests, crate::proofs::Lists::numbers_as_samples))]
pub fn samples_of(heap: Global, numbers: &[u32]) -> Result<Vec<u16>, Flaw>
    ensures are_the_numbers_if_all_are_samples { Reads vec_items result (samples numbers.now) }
{
    let mut samples = Vec::with_capacity(heap, numbers.len())?;
    for number in numbers {
        let sample = u16::try_from(*number).map_err(|_| Mistake::SampleTooLarge)?;
        samples.push(sample)?;
    }
    Ok(samples)
}
