//! The parser that `choice` makes.
/// The first of several parsers that doesn't fail: those of a tuple, a slice, a `Vec` or an array. See `choice`.
#[derive(Clone, Copy, Drop)]
pub struct Choice<T> {
    pub parsers: T,
}
