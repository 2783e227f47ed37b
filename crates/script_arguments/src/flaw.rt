// Why a line gives no command, before its number is known.
ghost use Rattle.std.specs.Prelude.{◌≡◌};
ghost use Rattle.script_arguments.specs.declared.flaw.OrMemory.TheVariants as flaw;

use crate::mistake::Mistake;
use std::alloc::{AllocError, AllocFailed};

// An error, or want of memory in its place.
#[derive(Clone, Copy, PartialEq, Eq, Debug, Drop)]
pub enum OrMemory<E> {
    Error(E),
    Memory,
}

// A mistake of the line, or want of memory.
pub type Flaw = OrMemory<Mistake>;

impl From<Mistake> for Flaw {
    ghost from_gives = { λ m r. r ≡ flaw.Error m };

    fn from(mistake: Mistake) -> Flaw {
        OrMemory::Error(mistake)
    }
}

impl<E> From<AllocError> for OrMemory<E> {
    ghost from_gives = { λ _ r. r ≡ flaw.Memory };

    fn from(_e: AllocError) -> OrMemory<E> {
        OrMemory::Memory
    }
}

impl<E, T: Drop> From<AllocFailed<T>> for OrMemory<E> {
    ghost from_gives = { λ _ r. r ≡ flaw.Memory };

    fn from(_e: AllocFailed<T>) -> OrMemory<E> {
        OrMemory::Memory
    }
}
