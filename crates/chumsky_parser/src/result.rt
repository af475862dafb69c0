//! What one run of a parser over a whole input gives.
ghost use Rattle.std.specs.Prelude.{◌≡◌, ◌==◌, ◌<◌, not, is_some, IsSome, Some, Err};
ghost use Rattle.std.specs.Option.{ok_or, option_copied};
ghost use Rattle.std.specs.Slice.Iter.{iter_rest};
ghost use Rattle.std.specs.Vec.{vec_len};

/// The output of a run, if there is one, and its errors in order. With no errors there is an output; with errors there
/// may be one too, since a parser can emit errors and go on.
///
/// Comparisons look at the output before the errors. A clone may be refused for memory.
#[derive(Clone, Debug, PartialEq, Eq, PartialOrd, Ord, Hash, Drop)]
pub struct ParseResult<T, E> {
    pub output: Option<T>,
    pub errors: Vec<E>,
}

impl<T, E> ParseResult<T, E> {
    /// Whether there is an output.
    #[inline]
    pub fn has_output(&self) -> bool
        ensures { result ≡ is_some self.now.output }
    {
        self.output.is_some()
    }

    /// Whether there are errors.
    #[inline]
    pub fn has_errors(&self) -> bool
        ensures { result ≡ not (vec_len self.now.errors == 0) }
    {
        !self.errors.is_empty()
    }

    /// The output, if there is one.
    #[inline]
    pub fn output(&self) -> Option<&T>
        ensures { option_copied result ≡ self.now.output }
    {
        self.output.as_ref()
    }

    /// The errors, in order.
    #[inline]
    pub fn errors(&self) -> std::slice::Iter<'_, E>
        ensures { iter_rest result ≡ self.now.errors.items }
    {
        self.errors.iter()
    }

    /// The output, if there is one, also where there are errors.
    #[inline]
    pub fn into_output(self) -> Option<T>
    where
        E: Drop,
        ensures { result ≡ self.output }
    {
        self.into_output_errors().0
    }

    /// The errors, in order. There are none where nothing went wrong.
    #[inline]
    pub fn into_errors(self) -> Vec<E>
    where
        T: Drop,
        ensures { result ≡ self.errors }
    {
        self.into_output_errors().1
    }

    /// The output and the errors.
    #[inline]
    pub fn into_output_errors(self) -> (Option<T>, Vec<E>)
        ensures output { result.0 ≡ self.output }
        ensures errors { result.1 ≡ self.errors }
    {
        (self.output, self.errors)
    }

    /// The output where there are no errors, and else the errors. An output beside errors is dropped.
    #[inline]
    pub fn into_result(self) -> Result<T, Vec<E>>
    where
        T: Drop,
        E: Drop,
        ensures no_errors { (vec_len self.errors ≡ 0) → result ≡ ok_or self.output self.errors }
        ensures errors { (0 < vec_len self.errors) → result ≡ Err self.errors }
    {
        if self.errors.is_empty() {
            self.output.ok_or(self.errors)
        } else {
            Err(self.errors)
        }
    }

    /// The output of a run without errors, emitted ones included. That there are none, and that there is an output, is
    /// the caller's to show; where it can't be shown, `into_result` asks at run time.
    #[inline]
    pub fn unwrap(self) -> T
    where
        E: Drop,
        requires errors { vec_len self.errors ≡ 0 }
        requires output { IsSome self.output }
        ensures { self.output ≡ Some result }
    {
        self.output.unwrap()
    }
}
