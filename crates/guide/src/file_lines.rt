//! A line of a file, read by itself.
use chumsky::Stop;
use chumsky::prelude::*;
use chumsky::report::Report;
use std::alloc::{AllocError, Global};

/// A name and its number, as `size = 10`, of the line that begins at an offset of a file: its errors stand where the file has them.
pub fn setting_at<'src>(
    alloc: Global,
    offset: usize,
    line: &'src str,
) -> Result<ParseResult<(&'src str, &'src str), Rich<char>>, Stop> {
    let name = text::ascii::ident::<_, extra::Err<Rich<char>>>().padded();
    let value = text::int(10).padded();
    name.then_ignore(just('='))
        .then(value)
        .parse(alloc, text_at(offset, line))
}

/// What is wrong with the setting that begins at an offset of a file: a report of each error, which shows the line of the file.
pub fn wrong_setting(alloc: Global, file: &str, offset: usize) -> Result<Vec<String>, Stop> {
    let parsed = setting_at(alloc, offset, line_at(file, offset))?;
    reports(alloc, file, parsed.errors.as_slice()).map_err(|_| Stop::Memory)
}

/// The line that begins at an offset of a file.
fn line_at(file: &str, offset: usize) -> &str {
    match file.get(offset..) {
        Some(rest) => rest.lines().next().unwrap_or(""),
        None => "",
    }
}

/// A report of each error of a file.
fn reports(alloc: Global, file: &str, errors: &[Rich<char>]) -> Result<Vec<String>, AllocError> {
    let mut reports = Vec::new(alloc);
    for error in errors {
        let report = Report {
            name: "settings",
            text: file,
            error,
        };
        reports.push(format!(in alloc; "{report}")?)?;
    }
    Ok(reports)
}
