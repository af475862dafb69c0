//! What contracts say that name exactly which texts a function accepts: words for lists as they are written, for tables of words and
//! for numbers of so many digits, and their laws, in `specs/`. And parsers of which it is known which texts they accept: of formats
//! in which a length stands before what it counts (`prefixed`, `headed`, `so_many`), and over the whole of an input that another parser
//! gives (`nested`).
#![tactic(auto)]

pub mod context;
pub mod make;
pub mod nested;
pub mod prefixed;
pub mod so_many;
pub mod steady;
