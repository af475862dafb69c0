//! The parser type of `group`.
/// Parsers in turn, in a tuple or an array. See `group`.
#[derive(Clone, Copy, Drop)]
pub struct Group<T> {
    pub parsers: T,
}
