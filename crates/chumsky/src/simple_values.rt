//! How a grammar makes values of which nothing is said.
ghost use Rattle.std.specs.Prelude.{IfOk, IsOk, ⊤};

use chumsky_recursive::leaves::Values;
use std::alloc::{AllocError, Global};

/// Value functions of which nothing is said, so that none writes a clause, and those that a grammar never calls are left out. In
/// `Leaves` they stand as `values: Simply(Depths)`; those of which something is said are an impl of `Values`.
pub trait SimpleValues<S: Drop, R> {
    type Value: Drop;

    /// The value of nothing: of a part that has none, and of one that is absent.
    fn unit(&self, alloc: Global) -> Result<Self::Value, AllocError>;

    /// The value of two parts, by the function of this number: that of `then_by`, and 0 of `then`.
    fn pair(
        &self,
        alloc: Global,
        number: usize,
        a: Self::Value,
        b: Self::Value,
    ) -> Result<Self::Value, AllocError>;

    /// The value of a list, of those of its items in order.
    fn list(&self, alloc: Global, items: Vec<Self::Value>) -> Result<Self::Value, AllocError>;

    /// A value through the mapper of this number; itself, where an impl doesn't say.
    fn map(
        &self,
        _alloc: Global,
        _mapper: usize,
        v: Self::Value,
    ) -> Result<Self::Value, AllocError> {
        Ok(v)
    }

    /// A value through the fallible mapper of this number; itself, where an impl doesn't say.
    fn try_map(
        &self,
        _alloc: Global,
        _mapper: usize,
        v: Self::Value,
        _span: S,
    ) -> Result<Result<Self::Value, R>, AllocError> {
        Ok(Ok(v))
    }
}

/// Values that are made by these functions.
#[derive(Drop)]
pub struct Simply<W>(pub W);

impl<S: Drop, R, W: SimpleValues<S, R>> Values<S, R> for Simply<W> {
    type Value = W::Value;

    fn pair(
        &self,
        alloc: Global,
        number: usize,
        a: W::Value,
        b: W::Value,
    ) -> Result<W::Value, AllocError> {
        self.0.pair(alloc, number, a, b)
    }

    fn option(&self, alloc: Global, v: Option<W::Value>) -> Result<W::Value, AllocError>
        ensures gives { IfOk result (λ _. ⊤) }
        ensures memory { ⊥ → IsOk result }
    {
        match v {
            Some(v) => Ok(v),
            None => self.0.unit(alloc),
        }
    }

    fn unit(&self, alloc: Global) -> Result<W::Value, AllocError> {
        self.0.unit(alloc)
    }

    fn map(&self, alloc: Global, mapper: usize, v: W::Value) -> Result<W::Value, AllocError> {
        self.0.map(alloc, mapper, v)
    }

    fn list(&self, alloc: Global, items: Vec<W::Value>) -> Result<W::Value, AllocError>
        ensures gives { IfOk result (λ _. ⊤) }
        ensures memory { ⊥ → IsOk result }
    {
        self.0.list(alloc, items)
    }

    fn try_map(
        &self,
        alloc: Global,
        mapper: usize,
        v: W::Value,
        span: S,
    ) -> Result<Result<W::Value, R>, AllocError> {
        self.0.try_map(alloc, mapper, v, span)
    }
}
