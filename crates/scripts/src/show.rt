// A line in error in words.
ghost use Rattle.std.specs.Prelude.{Some};
ghost use Rattle.scripts.specs.Words.{wrong_words};

use crate::script::Wrong;
use std::fmt;

impl fmt::Display for Wrong {
    ghost output = { λ w. Some (wrong_words w) };

    fn fmt<W: fmt::Write>(&self, f: &mut fmt::Formatter<W>) -> fmt::Result {
        write!(f, "line {}: {}", self.line, self.mistake)
    }
}
