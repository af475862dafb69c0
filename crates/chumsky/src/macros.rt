//! The macros.

/// A parser of one token, by arms as of a `match`: the first arm that fits stands, and gives its value. Where none fits,
/// and at the end of input, the parser fails, with an error that expected something else.
///
/// An arm is `pattern = extra if guard => value`, and each part after the pattern may be left out. The token is there by
/// value. `extra` is a name of one's own for the `MapExtra` over the token. An arm with no value gives `()`.
///
/// ```rust
/// let span: Select<_, &str, SimpleSpan, extra::Err<Rich<char>>> = select! {
///     'a' = extra => extra.span(),
///     c = extra if c == other => extra.span(),
/// };
/// ```
///
/// The input and the extra are known from the parsers around it, or from its type, as here.
#[macro_export]
macro_rules! select {
    ($($token:pat $(= $extra:ident)? $(if $guard:expr)? $(=> $value:expr)?),+ $(,)?) => {
        $crate::primitive::select(move |token, extra| match (token, extra) {
            $(($token $(, $extra)?, ..) $(if $guard)? => std::option::Option::Some({ () $(; $value)? }),)+
            _ => std::option::Option::None,
        })
    };
}

/// `select!` over references: the token is there by a reference into the input, and is neither moved nor cloned.
#[macro_export]
macro_rules! select_ref {
    ($($token:pat $(= $extra:ident)? $(if $guard:expr)? $(=> $value:expr)?),+ $(,)?) => {
        $crate::primitive::select_ref(move |token, extra| match (token, extra) {
            $(($token $(, $extra)?, ..) $(if $guard)? => std::option::Option::Some({ () $(; $value)? }),)+
            _ => std::option::Option::None,
        })
    };
}
