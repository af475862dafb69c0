//! How a run ends without an answer.
ghost use Rattle.std.specs.Prelude.{◌≡◌};
ghost use Rattle.chumsky_input.specs.declared.stop.Failure.TheVariants as failure;
ghost use Rattle.chumsky_input.specs.declared.stop.Fault.TheVariants as fault;
ghost use Rattle.chumsky_input.specs.declared.stop.Stop.TheVariants.{Memory};

use std::alloc::AllocError;

/// Why a run was refused. No combinator catches one: after a `Stop` the parser is as before, the state is what the
/// run left, and there is neither an output nor an error.
#[derive(Clone, Copy, Debug, PartialEq, Eq)]
pub enum Stop {
    /// A request for memory was refused.
    Memory = 1,
    /// A repetition without a cap met an item that consumed nothing, and would never have ended.
    NoProgress = 2,
    /// More rules were open at once than the limit allows.
    TooDeep = 3,
    /// More items were counted than a `usize` holds.
    CountTooLarge = 4,
}

/// Why a parser gives no output: it failed, and its errors are with the input that it was lent; or it was refused.
#[derive(Clone, Copy, Debug, PartialEq, Eq)]
pub enum Fault {
    Fail,
    Stop(Stop),
}

/// Why a closure of `custom` gives no output: it failed with an error, which counts as a failure where the closure
/// stands; or the run is refused, and the stop is passed on as it is.
///
/// `?` on a refused request for memory answers `Stop(Stop::Memory)`.
#[derive(Debug, PartialEq, Drop)]
pub enum Failure<E> {
    Error(E),
    Stop(Stop),
}

/// What a parser answers.
pub type PResult<O> = Result<O, Fault>;

impl From<AllocError> for Fault {
    ghost from_gives = { λ _ f. f ≡ fault.Stop Memory };

    #[inline]
    fn from(_error: AllocError) -> Fault {
        Fault::Stop(Stop::Memory)
    }
}

impl From<AllocError> for Stop {
    ghost from_gives = { λ _ s. s ≡ Memory };

    #[inline]
    fn from(_error: AllocError) -> Stop {
        Stop::Memory
    }
}

impl<E> From<AllocError> for Failure<E> {
    ghost from_gives = { λ _ f. f ≡ failure.Stop Memory };

    #[inline]
    fn from(_error: AllocError) -> Failure<E> {
        Failure::Stop(Stop::Memory)
    }
}

impl<E> From<Stop> for Failure<E> {
    ghost from_gives = { λ s f. f ≡ failure.Stop s };

    #[inline]
    fn from(stop: Stop) -> Failure<E> {
        Failure::Stop(stop)
    }
}
