//! Expressions as text again.
ghost use Rattle.std.specs.Prelude.{◌≡◌, ◌++◌, IfOk, OnOk, string_bytes};
ghost use Rattle.std.specs.Str.{chars};
ghost use Rattle.exact.specs.Expressions.{form_of, gap_before, written};

use crate::expressions::Expression;
use std::alloc::{AllocError, Global};

/// Writes a space, but none before the first.
fn push_gap(text: &mut String, index: usize) -> Result<(), AllocError>
    ensures { OnOk result (chars (string_bytes text.new) ≡ chars (string_bytes text.old) ++ gap_before index) }
{
    if index == 0 {
        return Ok(());
    }
    text.push(' ')?;
    Ok(())
}

/// Writes an expression at the end of a text.
fn push_expression(text: &mut String, expression: &Expression<'_>) -> Result<(), AllocError>
    ensures { OnOk result (chars (string_bytes text.new) ≡ chars (string_bytes text.old) ++ written (form_of expression.now)) }
{
    match expression {
        Expression::Name(name) => {
            text.push_str(*name)?;
            Ok(())
        }
        Expression::Number(number) => {
            text.push_str(*number)?;
            Ok(())
        }
        Expression::List(expressions) => {
            text.push('(')?;
            for (index, inner) in expressions.iter().enumerate() {
                push_gap(text, index)?;
                push_expression(text, inner)?;
            }
            text.push(')')?;
            Ok(())
        }
    }
}

/// An expression as text, which `parse_expression` reads back.
pub fn print_expression(alloc: Global, expression: &Expression<'_>) -> Result<String, AllocError>
    ensures { IfOk result (λ text. chars (string_bytes text) ≡ written (form_of expression.now)) }
{
    let mut text = String::new(alloc);
    push_expression(&mut text, expression)?;
    Ok(text)
}
