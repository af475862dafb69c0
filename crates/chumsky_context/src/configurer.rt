//! `Configurer` and `TryConfigurer`: what `configure` and `try_configure` are handed.
ghost use Rattle.std.specs.Prelude.{⊤, Result};
ghost use Rattle.chumsky_context.specs.Configured.{ReturnsWith, ReturnsWithin};

/// Makes a configuration of a default one and the context. Each closure `Fn(C, &X) -> C` does, and so can a type of one's
/// own: what its impl says in `gives` is known of the configuration where the parser is run.
pub trait Configurer<C, X> {
    /// That it may be called. Where nothing is said, it may.
    ghost callable: { Self → Type 0 } = { λ configurer. ⊤ };

    /// Which configurations it may make of a default one and a context.
    ghost gives: { Self → C → X → C → Type 0 };

    /// Makes the configuration for a run under `context`, from the default one.
    fn configured(&self, config: C, context: &X) -> C
        requires { callable self.now }
        ensures { gives self.now config context.now result };
}

impl<C, X, F: Fn(C, &X) -> C> Configurer<C, X> for F {
    ghost callable = { λ f. F.IsAlwaysCallable f };

    ghost gives = { λ f config context result. ReturnsWith F.Fn f config context result };

    #[inline]
    fn configured(&self, config: C, context: &X) -> C {
        (*self)(config, context)
    }
}

/// Makes a configuration of a default one, the context and a span, or refuses with an error. Each closure
/// `Fn(C, &X, S) -> Result<C, R>` does, and so can a type of one's own.
pub trait TryConfigurer<C, X, S, R> {
    /// That it may be called. Where nothing is said, it may.
    ghost callable: { Self → Type 0 } = { λ configurer. ⊤ };

    /// What it may answer to a default configuration, a context and a span.
    ghost gives: { Self → C → X → S → Result C R → Type 0 };

    /// Makes the configuration for an iteration under `context`, or refuses it with an error.
    fn try_configured(&self, config: C, context: &X, span: S) -> Result<C, R>
        requires { callable self.now }
        ensures { gives self.now config context.now span result };
}

impl<C, X, S, R, F: Fn(C, &X, S) -> Result<C, R>> TryConfigurer<C, X, S, R> for F {
    ghost callable = { λ f. F.IsAlwaysCallable f };

    ghost gives = { λ f config context span result. ReturnsWithin F.Fn f config context span result };

    #[inline]
    fn try_configured(&self, config: C, context: &X, span: S) -> Result<C, R> {
        (*self)(config, context, span)
    }
}
