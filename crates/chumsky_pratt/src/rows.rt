//! Tuples and lists of operators as rows.
ghost use Rattle.std.specs.Prelude.{◌≡◌};

use crate::list::OperatorList;
use crate::row::{LastOperator, OperatorAnd};
use std::marker::PhantomData;

/// Some operators that make a row: a tuple of one to eight, or those of one type in a `Vec`, an array or a slice.
pub trait IntoRow {
    type Row;

    ghost row_is: { Self → Self.Row → Type 0 };

    /// The row of them, in their order.
    fn into_row(self) -> Self::Row
        ensures { row_is self result };
}

impl<A> IntoRow for (A,) {
    ghost use Rattle.chumsky_pratt.specs.Built.{last_operator, and_operators};

    type Row = LastOperator<A>;

    ghost row_is = { λ t row. row ≡ last_operator t.0 };

    #[inline]
    fn into_row(self) -> LastOperator<A> {
        let row = LastOperator { operator: self.0 };
        row
    }
}

impl<A, B> IntoRow for (A, B) {
    ghost use Rattle.chumsky_pratt.specs.Built.{last_operator, and_operators};

    type Row = OperatorAnd<A, LastOperator<B>>;

    ghost row_is = { λ t row. row ≡ and_operators t.0 (last_operator t.1) };

    #[inline]
    fn into_row(self) -> OperatorAnd<A, LastOperator<B>> {
        let row = LastOperator { operator: self.1 };
        let row = OperatorAnd {
            operator: self.0,
            others: row,
        };
        row
    }
}

impl<A, B, C> IntoRow for (A, B, C) {
    ghost use Rattle.chumsky_pratt.specs.Built.{last_operator, and_operators};

    type Row = OperatorAnd<A, OperatorAnd<B, LastOperator<C>>>;

    ghost row_is = { λ t row. row ≡ and_operators t.0 (and_operators t.1 (last_operator t.2)) };

    #[inline]
    fn into_row(self) -> OperatorAnd<A, OperatorAnd<B, LastOperator<C>>> {
        let row = LastOperator { operator: self.2 };
        let row = OperatorAnd {
            operator: self.1,
            others: row,
        };
        let row = OperatorAnd {
            operator: self.0,
            others: row,
        };
        row
    }
}

impl<A, B, C, D> IntoRow for (A, B, C, D) {
    ghost use Rattle.chumsky_pratt.specs.Built.{last_operator, and_operators};

    type Row = OperatorAnd<A, OperatorAnd<B, OperatorAnd<C, LastOperator<D>>>>;

    ghost row_is = { λ t row. row ≡ and_operators t.0 (and_operators t.1 (and_operators t.2 (last_operator t.3))) };

    #[inline]
    fn into_row(self) -> OperatorAnd<A, OperatorAnd<B, OperatorAnd<C, LastOperator<D>>>> {
        let row = LastOperator { operator: self.3 };
        let row = OperatorAnd {
            operator: self.2,
            others: row,
        };
        let row = OperatorAnd {
            operator: self.1,
            others: row,
        };
        let row = OperatorAnd {
            operator: self.0,
            others: row,
        };
        row
    }
}

impl<A, B, C, D, F> IntoRow for (A, B, C, D, F) {
    ghost use Rattle.chumsky_pratt.specs.Built.{last_operator, and_operators};

    type Row = OperatorAnd<A, OperatorAnd<B, OperatorAnd<C, OperatorAnd<D, LastOperator<F>>>>>;

    ghost row_is = { λ t row. row ≡ and_operators t.0 (and_operators t.1 (and_operators t.2 (and_operators t.3 (last_operator t.4)))) };

    #[inline]
    fn into_row(
        self,
    ) -> OperatorAnd<A, OperatorAnd<B, OperatorAnd<C, OperatorAnd<D, LastOperator<F>>>>> {
        let row = LastOperator { operator: self.4 };
        let row = OperatorAnd {
            operator: self.3,
            others: row,
        };
        let row = OperatorAnd {
            operator: self.2,
            others: row,
        };
        let row = OperatorAnd {
            operator: self.1,
            others: row,
        };
        let row = OperatorAnd {
            operator: self.0,
            others: row,
        };
        row
    }
}

impl<A, B, C, D, F, G> IntoRow for (A, B, C, D, F, G) {
    ghost use Rattle.chumsky_pratt.specs.Built.{last_operator, and_operators};

    type Row = OperatorAnd<
        A,
        OperatorAnd<B, OperatorAnd<C, OperatorAnd<D, OperatorAnd<F, LastOperator<G>>>>>,
    >;

    ghost row_is = { λ t row. row ≡ and_operators t.0 (and_operators t.1 (and_operators t.2 (and_operators t.3 (and_operators t.4 (last_operator t.5))))) };

    #[inline]
    fn into_row(
        self,
    ) -> OperatorAnd<
        A,
        OperatorAnd<B, OperatorAnd<C, OperatorAnd<D, OperatorAnd<F, LastOperator<G>>>>>,
    > {
        let row = LastOperator { operator: self.5 };
        let row = OperatorAnd {
            operator: self.4,
            others: row,
        };
        let row = OperatorAnd {
            operator: self.3,
            others: row,
        };
        let row = OperatorAnd {
            operator: self.2,
            others: row,
        };
        let row = OperatorAnd {
            operator: self.1,
            others: row,
        };
        let row = OperatorAnd {
            operator: self.0,
            others: row,
        };
        row
    }
}

impl<A, B, C, D, F, G, H> IntoRow for (A, B, C, D, F, G, H) {
    ghost use Rattle.chumsky_pratt.specs.Built.{last_operator, and_operators};

    type Row = OperatorAnd<
        A,
        OperatorAnd<
            B,
            OperatorAnd<C, OperatorAnd<D, OperatorAnd<F, OperatorAnd<G, LastOperator<H>>>>>,
        >,
    >;

    ghost row_is = { λ t row. row ≡ and_operators t.0 (and_operators t.1 (and_operators t.2 (and_operators t.3 (and_operators t.4 (and_operators t.5 (last_operator t.6)))))) };

    #[inline]
    fn into_row(
        self,
    ) -> OperatorAnd<
        A,
        OperatorAnd<
            B,
            OperatorAnd<C, OperatorAnd<D, OperatorAnd<F, OperatorAnd<G, LastOperator<H>>>>>,
        >,
    > {
        let row = LastOperator { operator: self.6 };
        let row = OperatorAnd {
            operator: self.5,
            others: row,
        };
        let row = OperatorAnd {
            operator: self.4,
            others: row,
        };
        let row = OperatorAnd {
            operator: self.3,
            others: row,
        };
        let row = OperatorAnd {
            operator: self.2,
            others: row,
        };
        let row = OperatorAnd {
            operator: self.1,
            others: row,
        };
        let row = OperatorAnd {
            operator: self.0,
            others: row,
        };
        row
    }
}

impl<A, B, C, D, F, G, H, J> IntoRow for (A, B, C, D, F, G, H, J) {
    ghost use Rattle.chumsky_pratt.specs.Built.{last_operator, and_operators};

    type Row = OperatorAnd<
        A,
        OperatorAnd<
            B,
            OperatorAnd<
                C,
                OperatorAnd<D, OperatorAnd<F, OperatorAnd<G, OperatorAnd<H, LastOperator<J>>>>>,
            >,
        >,
    >;

    ghost row_is = { λ t row. row ≡ and_operators t.0 (and_operators t.1 (and_operators t.2 (and_operators t.3 (and_operators t.4 (and_operators t.5 (and_operators t.6 (last_operator t.7))))))) };

    #[inline]
    fn into_row(
        self,
    ) -> OperatorAnd<
        A,
        OperatorAnd<
            B,
            OperatorAnd<
                C,
                OperatorAnd<D, OperatorAnd<F, OperatorAnd<G, OperatorAnd<H, LastOperator<J>>>>>,
            >,
        >,
    > {
        let row = LastOperator { operator: self.7 };
        let row = OperatorAnd {
            operator: self.6,
            others: row,
        };
        let row = OperatorAnd {
            operator: self.5,
            others: row,
        };
        let row = OperatorAnd {
            operator: self.4,
            others: row,
        };
        let row = OperatorAnd {
            operator: self.3,
            others: row,
        };
        let row = OperatorAnd {
            operator: self.2,
            others: row,
        };
        let row = OperatorAnd {
            operator: self.1,
            others: row,
        };
        let row = OperatorAnd {
            operator: self.0,
            others: row,
        };
        row
    }
}

impl<T> IntoRow for Vec<T> {
    type Row = OperatorList<T, Vec<T>>;

    ghost row_is = { λ t row. row.operators ≡ t };

    #[inline]
    fn into_row(self) -> OperatorList<T, Vec<T>> {
        OperatorList {
            operators: self,
            of: PhantomData,
        }
    }
}

impl<T, const N: usize> IntoRow for [T; N] {
    type Row = OperatorList<T, [T; N]>;

    ghost row_is = { λ t row. row.operators ≡ t };

    #[inline]
    fn into_row(self) -> OperatorList<T, [T; N]> {
        OperatorList {
            operators: self,
            of: PhantomData,
        }
    }
}

impl<'p, T> IntoRow for &'p [T] {
    type Row = OperatorList<T, &'p [T]>;

    ghost row_is = { λ t row. row.operators ≡ t };

    #[inline]
    fn into_row(self) -> OperatorList<T, &'p [T]> {
        OperatorList {
            operators: self,
            of: PhantomData,
        }
    }
}
