//! Values of JSON.

/// A value of JSON.
#[derive(Debug, Drop, PartialEq)]
pub enum Json {
    Null,
    Bool(bool),
    /// A number as it is written, as `-1.5e3`.
    Number(String),
    String(String),
    Array(Vec<Json>),
    /// Members in their order; a name may be there twice.
    Object(Vec<(String, Json)>),
}
