//! Parsers of real size, each with its types, in a file of its own: a date, a line of settings, the header of a packet, a query
//! to the domain name system, the first line of an HTTP request, statements of which some may be wrong. Then whole languages,
//! which `programs` reads from any input: INI, and the lines of a log.
#![tactic(auto)]

pub mod date;
pub mod digits;
pub mod exact_log;
pub mod header;
pub mod ini;
pub mod log_lines;
pub mod query;
pub mod request;
pub mod sections;
pub mod setting;
pub mod statements;
pub mod words;
