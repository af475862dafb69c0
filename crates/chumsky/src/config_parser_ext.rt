//! The builders of parsers that are configured by the context: `configure`, `try_configure`.
ghost use Rattle.std.specs.Prelude.{◌≡◌};

use crate::combinator::{Configure, Configurer, IterConfigure, TryConfigurer, TryIterConfigure};
use crate::extra::ParserExtra;
use crate::input::Tokens;
use chumsky_context::config::{Configurable, IsConfigParser};
use chumsky_context::config_iter::IsConfigIterParser;
use std::marker::PhantomData;

/// The builders of parsers that can be configured: `just`, `one_of`, and what `contextual` makes.
pub trait ConfigParserExt<I, O, E>: Configurable + Sized {
    /// Configures this parser at each run by what `configurer` makes of the default configuration and the context:
    /// `any().then_with_ctx(just('?').configure(|c, first| c.seq(*first)))` on `aa` gives `('a', 'a')`, and on `ab`
    /// `'a'` is expected at 1..2. It fails as the configured parser does.
    #[inline]
    final fn configure<F>(self, configurer: F) -> Configure<Self, F>
    where
        I: Tokens,
        E: ParserExtra<I>,
        F: Fn(Self::Config, &E::Context) -> Self::Config,
        ensures parser { result.parser ≡ self }
        ensures configurer { result.configurer ≡ configurer }
    {
        Configure {
            parser: self,
            configurer,
        }
    }

    /// Configures this parser as `configure` does, by a value of a type with an impl of `Configurer`. The parser's type
    /// can then be written down, and what is set is known where the parser is run.
    #[inline]
    final fn configure_by<F>(self, configurer: F) -> Configure<Self, F>
    where
        I: Tokens,
        E: ParserExtra<I>,
        F: Configurer<Self::Config, E::Context>,
        ensures parser { result.parser ≡ self }
        ensures configurer { result.configurer ≡ configurer }
    {
        Configure {
            parser: self,
            configurer,
        }
    }
}

impl<I, O, E, A: Configurable + IsConfigParser<I, O, E>> ConfigParserExt<I, O, E> for A {}

/// The builders of parsers of items that can be configured: `repeated`.
pub trait ConfigIterParserExt<I, O, E>: Configurable + Sized {
    /// Configures these items, where an iteration is made, by what `configurer` makes of the default configuration and
    /// the context: `number.ignore_with_ctx(just('x').repeated().configure(|c, n| c.exactly(*n)).count())` on `3xxx`
    /// gives `3`, and on `3xx` `'x'` is expected at 3..3. They fail as the configured items do.
    #[inline]
    final fn configure<F>(self, configurer: F) -> IterConfigure<Self, F, O>
    where
        I: Tokens,
        E: ParserExtra<I>,
        F: Fn(Self::Config, &E::Context) -> Self::Config,
        ensures parser { result.parser ≡ self }
        ensures configurer { result.configurer ≡ configurer }
    {
        IterConfigure {
            parser: self,
            configurer,
            of: PhantomData,
        }
    }

    /// Configures these items as `configure` does, by a value of a type with an impl of `Configurer`. The type of the
    /// items can then be written down, and what is set is known where they are run.
    #[inline]
    final fn configure_by<F>(self, configurer: F) -> IterConfigure<Self, F, O>
    where
        I: Tokens,
        E: ParserExtra<I>,
        F: Configurer<Self::Config, E::Context>,
        ensures parser { result.parser ≡ self }
        ensures configurer { result.configurer ≡ configurer }
    {
        IterConfigure {
            parser: self,
            configurer,
            of: PhantomData,
        }
    }

    /// Configures these items as `configure` does, by a closure that is handed the empty span where they begin too and
    /// may refuse: its error is then the failure there, and no iteration is made.
    /// `items.try_configure(|c, n, span| ..)` so refuses a count that is too large before the first item is read.
    #[inline]
    final fn try_configure<F>(self, configurer: F) -> TryIterConfigure<Self, F, O>
    where
        I: Tokens,
        E: ParserExtra<I>,
        F: Fn(Self::Config, &E::Context, I::Span) -> Result<Self::Config, E::Error>,
        ensures parser { result.parser ≡ self }
        ensures configurer { result.configurer ≡ configurer }
    {
        TryIterConfigure {
            parser: self,
            configurer,
            of: PhantomData,
        }
    }

    /// Configures these items as `try_configure` does, by a value of a type with an impl of `TryConfigurer`. The type
    /// of the items can then be written down, and what is set or refused is known where they are run.
    #[inline]
    final fn try_configure_by<F>(self, configurer: F) -> TryIterConfigure<Self, F, O>
    where
        I: Tokens,
        E: ParserExtra<I>,
        F: TryConfigurer<Self::Config, E::Context, I::Span, E::Error>,
        ensures parser { result.parser ≡ self }
        ensures configurer { result.configurer ≡ configurer }
    {
        TryIterConfigure {
            parser: self,
            configurer,
            of: PhantomData,
        }
    }
}

impl<I, O, E, A: Configurable + IsConfigIterParser<I, O, E>> ConfigIterParserExt<I, O, E> for A {}
