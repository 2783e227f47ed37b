// What can be wrong with a line.

// Why a line is no command, or stands where it may not.
#[derive(Clone, Copy, PartialEq, Eq, Debug)]
pub enum Mistake {
    NoSuchCommand,
    MissingWord,
    TooManyWords,
    NotANumber,
    SampleTooLarge,
    IssueTooLarge,
    NoSuchKernel,
    OpeningMissing,
    OpeningRepeated,
    CallAfterEnding,
    NoPlate,
}
