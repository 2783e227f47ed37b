// A mistake and want of memory in words.
ghost use Rattle.std.specs.Prelude.{◌≡◌, Some};
ghost use Rattle.script_arguments.specs.Mistakes.{mistake_words, error_words};

use crate::flaw::OrMemory;
use crate::mistake::Mistake;
use std::error::Error;
use std::fmt;

impl Mistake {
    // What is wrong, for people.
    pub fn words(self) -> &'static str
        ensures are_the_mistakes_words { result.now ≡ mistake_words self }
    {
        match self {
            Mistake::NoSuchCommand => "there is no such command",
            Mistake::MissingWord => "a word is missing",
            Mistake::TooManyWords => "there are too many words",
            Mistake::NotANumber => "a word is not a number up to 4294967295",
            Mistake::SampleTooLarge => "a sample is over 65535",
            Mistake::IssueTooLarge => "the issue is over 65535",
            Mistake::NoSuchKernel => "the kernel is neither 5/3 nor S",
            Mistake::OpeningMissing => "the first command must be plate or open",
            Mistake::OpeningRepeated => "plate or open comes once",
            Mistake::CallAfterEnding => "no call may follow sheet or save",
            Mistake::NoPlate => "the script has no plate",
        }
    }
}

impl fmt::Display for Mistake {
    ghost output = { λ m. Some (mistake_words m) };

    fn fmt<W: fmt::Write>(&self, f: &mut fmt::Formatter<W>) -> fmt::Result {
        f.write_str(self.words())
    }
}

impl<E: fmt::Display> fmt::Display for OrMemory<E> {
    ghost output = { error_words E.output };

    fn fmt<W: fmt::Write>(&self, f: &mut fmt::Formatter<W>) -> fmt::Result {
        match self {
            OrMemory::Error(error) => error.fmt(f),
            OrMemory::Memory => f.write_str("there is not enough memory"),
        }
    }
}

impl<E: fmt::Debug + fmt::Display + Drop> Error for OrMemory<E> {}
