//! Rules with the names that they are shown by.
ghost use Rattle.std.specs.Prelude.{◌≡◌, IfOk};

use crate::ebnf::Ebnf;
use crate::railroad::RailroadSvg;
use crate::size::sizes;
use chumsky_rules::rules::Rules;
use std::alloc::{AllocError, Global};

/// Rules, and what their rules and leaves are called where they are shown. Those of a grammar are `grammar.rules.rules`.
///
/// ```text
/// let info = DebugInfo { rules: &rules, rule_names: &["brackets"], leaf_names: &["'['", "']'"] };
/// println!(rt; "{}", info.to_ebnf())?;    // brackets ::= ('[' brackets ']')*
/// ```
#[derive(Clone, Copy)]
pub struct DebugInfo<'a> {
    pub rules: &'a Rules,
    /// The names of rules, by their numbers. The third of too few is called `rule2`.
    pub rule_names: &'a [&'a str],
    /// The names of leaves, by their numbers, with quotes where they are to have some. The third of too few is called `leaf2`.
    pub leaf_names: &'a [&'a str],
}

impl<'a> DebugInfo<'a> {
    /// The rules as EBNF, to be printed. It asks for no memory.
    pub fn to_ebnf(self) -> Ebnf<'a>
        ensures { result.info ≡ self.entry }
    {
        Ebnf { info: self }
    }

    /// The rules as a railroad diagram, to be printed as a file of SVG. It asks for memory, three numbers for each node.
    pub fn to_railroad_svg(self, alloc: Global) -> Result<RailroadSvg<'a>, AllocError>
        ensures { IfOk result (λ svg. svg.info ≡ self.entry) }
    {
        Ok(RailroadSvg {
            info: self,
            sizes: sizes(alloc, self)?,
        })
    }
}
