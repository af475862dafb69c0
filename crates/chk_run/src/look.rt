//! Grammars that are looked at: `show NAME` prints one as EBNF, and `draw NAME` as a railroad diagram.
ghost use Rattle.std.specs.Prelude.{◌≡◌, ◌≤◌, None, IfSome, map, string_bytes};
ghost use Rattle.std.specs.Io.KnownBytes.{Appends};
ghost use Rattle.chumsky_debug.specs.Ebnf.{ebnf_text};
ghost use Rattle.chk_run.specs.declared.look.Form.TheVariants.{Show};

use crate::run::{ACCEPTED, Ended, FAILED, REFUSED, refuse};
use crate::show::Refusal;
use crate::{loops, settings};
use chumsky::Stop;
use chumsky::debug::DebugInfo;
use chumsky::prelude::*;
use std::alloc::Global;
use std::io::Write;

/// How a grammar is looked at.
#[derive(Clone, Copy)]
enum Form {
    /// As EBNF.
    Show,
    /// As a file of SVG.
    Draw,
}

/// Prints the grammar that the words ask to look at, if they do: those by rules, `loops` and `settings`, can be.
pub fn look<W: Write>(alloc: Global, words: &[String], out: &mut W) -> Option<Ended>
    ensures status { IfSome result (λ ended. ended.status ≤ REFUSED) }
    ensures unasked { result ≡ None → out.new ≡ out.old }
{
    let [word, name] = words else {
        return None;
    };
    let form = match word.as_str() {
        "show" => Form::Show,
        "draw" => Form::Draw,
        _ => return None,
    };
    match name.as_str() {
        "loops" => Some(look_at_loops(alloc, form, out)),
        "settings" => Some(look_at_settings(alloc, form, out)),
        _ => None,
    }
}

fn look_at_loops<W: Write>(alloc: Global, form: Form, out: &mut W) -> Ended
    ensures { result.status ≤ REFUSED }
{
    let mut rules = Rules::new(alloc);
    if loops::loops(&mut rules).is_err() {
        return refuse(out, Refusal::Run(Stop::Memory));
    }
    let info = DebugInfo {
        rules: &rules,
        rule_names: &loops::RULE_NAMES,
        leaf_names: &loops::LEAF_NAMES,
    };
    print_rules(alloc, form, info, out)
}

fn look_at_settings<W: Write>(alloc: Global, form: Form, out: &mut W) -> Ended
    ensures { result.status ≤ REFUSED }
{
    let mut rules = Rules::new(alloc);
    if settings::settings(&mut rules).is_err() {
        return refuse(out, Refusal::Run(Stop::Memory));
    }
    let info = DebugInfo {
        rules: &rules,
        rule_names: &settings::RULE_NAMES,
        leaf_names: &settings::LEAF_NAMES,
    };
    print_rules(alloc, form, info, out)
}

/// Prints rules.
fn print_rules<W: Write>(alloc: Global, form: Form, info: DebugInfo<'_>, out: &mut W) -> Ended
    ensures status { result.status ≤ REFUSED }
    ensures shown { form ≡ Show → result.status ≡ ACCEPTED → Appends (W.contents out.old) (W.contents out.new) (ebnf_text info.entry) }
{
    let written = match form {
        Form::Show => write!(out, "{}", info.to_ebnf()),
        Form::Draw => match info.to_railroad_svg(alloc) {
            Ok(svg) => write!(out, "{svg}"),
            Err(_) => return refuse(out, Refusal::Run(Stop::Memory)),
        },
    };
    match written {
        Ok(()) => Ended {
            status: ACCEPTED,
            told: true,
        },
        Err(_) => Ended {
            status: FAILED,
            told: false,
        },
    }
}
