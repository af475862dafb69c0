//! Functions whose contracts say exactly which texts they accept, and with which value.
#![tactic(auto)]

pub mod access;
pub mod bits;
pub mod csv;
pub mod date;
pub mod expressions;
pub mod fields;
pub mod json;
pub mod json_number;
pub mod json_string;
pub mod json_value;
pub mod level;
pub mod method;
pub mod nested;
pub mod number;
pub mod one_or_more;
pub mod owned;
pub mod pairs;
pub mod print_csv;
pub mod print_expression;
pub mod print_json;
pub mod print_pairs;
pub mod quoted;
pub mod rows;
pub mod switch;
pub mod timestamp;
pub mod trees;
pub mod version;
