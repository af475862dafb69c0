//! Versions, as Semantic Versioning 2.0.0 has them.
ghost use Rattle.std.specs.Prelude.{◌≡◌};
ghost use Rattle.std.specs.Str.{chars};
ghost use Rattle.chumsky.specs.Accepted.{Exactly};
ghost use Rattle.chumsky_exact.specs.ReadBack.{GivesBack};
ghost use Rattle.exact.specs.Version.{Parts, IsVersion, HoldsVersion, parts_of, texts, listed};
ghost use Rattle.exact.specs.VersionLaws.{has_leading_zero};

use chumsky::Stop;
use chumsky::combinator::{Mapper, Tester, WordTester};
use chumsky::extra::{EmptyText, ParserExtra};
use chumsky::prelude::*;
use chumsky::text::{Kind, Lexeme, Word, word_of};
use chumsky::util::Plain;
use std::alloc::Global;

/// A version, as `1.0.0-rc.1+exp.sha`: its numbers, which no integer type bounds, and its identifiers, as they are written.
#[derive(Debug, Drop)]
pub struct Version<'src> {
    pub major: &'src str,
    pub minor: &'src str,
    pub patch: &'src str,
    /// None where the version is no pre-release.
    pub pre_release: Vec<&'src str>,
    /// None where it names no build.
    pub build: Vec<&'src str>,
}

/// What identifiers are made of: letters, digits and hyphens.
#[derive(Clone, Copy, Drop)]
pub struct InIdentifier;

impl Kind<char> for InIdentifier {
    ghost use Rattle.std.specs.Prelude.{[], ⊤};
    ghost use Rattle.exact.specs.Version.{in_identifier};

    ghost fits = { λ _. ⊤ };

    ghost holds = { λ _. in_identifier };

    ghost wants = { λ _. [] };

    fn test(&self, token: &char) -> bool {
        token.is_ascii_alphanumeric() || *token == '-'
    }

    fn expected(&self) -> Plain<'_> {
        Plain::Nothing
    }
}

impl Lexeme<char> for InIdentifier {
    type Rest = InIdentifier;

    ghost rest_after = { λ _ _. record {} };

    fn rest(&self, _first: &char) -> InIdentifier {
        InIdentifier
    }
}

/// Whether an identifier is digits with a zero before another.
fn has_leading_zero(identifier: &str) -> bool
    ensures { result ≡ has_leading_zero identifier.now }
{
    let bytes = identifier.as_bytes();
    if bytes.len() < 2 {
        return false;
    }
    if bytes[0] != b'0' {
        return false;
    }
    bytes.iter().all(|byte| byte.is_ascii_digit())
}

/// Lets through the identifiers that a pre-release may have.
#[derive(Clone, Copy, Drop)]
pub struct OfPreRelease;

impl<'src> Tester<&'src str> for OfPreRelease {
    ghost use Rattle.std.specs.Prelude.{◌≡◌, not};

    ghost gives = { λ _ identifier passes. passes ≡ not (has_leading_zero identifier.now) };

    fn passes(&self, identifier: &&'src str) -> bool {
        !has_leading_zero(*identifier)
    }
}

impl<'src, E: ParserExtra<&'src str>> WordTester<
    'src,
    &'src str,
    &'src str,
    E,
    Word<InIdentifier, &'src str, E>,
> for OfPreRelease {
    ghost use Rattle.exact.specs.VersionLaws.{fits_pre_release, fits-by_word};

    ghost tests = { λ _. fits_pre_release };

    ghost by_word = { λ f p w v x s g. fits-by_word w v x s.1 g };
}

/// What is read of a version.
pub type Read<'src> = (
    (((&'src str, &'src str), &'src str), Option<Vec<&'src str>>),
    Option<Vec<&'src str>>,
);

/// The identifiers, or none.
fn or_none<'src>(alloc: Global, identifiers: Option<Vec<&'src str>>) -> Vec<&'src str>
    ensures { texts result ≡ listed identifiers.entry }
{
    match identifiers {
        Some(identifiers) => identifiers,
        None => Vec::new(alloc),
    }
}

/// Makes a version of what is read.
#[derive(Clone, Copy, Drop)]
pub struct ToVersion {
    pub alloc: Global,
}

impl<'src> Mapper<Read<'src>, Version<'src>> for ToVersion {
    ghost use Rattle.std.specs.Prelude.{◌≡◌};
    ghost use Rattle.exact.specs.Version.{parts_of, parts_read};

    ghost gives = { λ _ read version. parts_of version ≡ parts_read read };

    fn apply(&self, read: Read<'src>) -> Version<'src> {
        let ((((major, minor), patch), pre_release), build) = read;
        Version {
            major,
            minor,
            patch,
            pre_release: or_none(self.alloc, pre_release),
            build: or_none(self.alloc, build),
        }
    }
}

/// The version that a text is, as `1.0.0`, `1.0.0-alpha.1` or `1.0.0-beta+exp.sha.5114f85`, just as Semantic Versioning 2.0.0
/// has it. Of any other text there is no output. Each way to write a version is read back.
pub fn parse_version<'src>(
    alloc: Global,
    text: &'src str,
) -> Result<ParseResult<Version<'src>, EmptyErr>, Stop>
    ensures exact { Exactly HoldsVersion (chars text.now) result }
    ensures read_back { (version : Parts) → IsVersion (chars text.now) version → GivesBack parts_of version result }
{
    let core = text::int::<&str, EmptyText>(10)
        .then_ignore(just('.'))
        .then(text::int(10))
        .then_ignore(just('.'))
        .then(text::int(10));
    let pre_identifier = word_of(InIdentifier).test_by(OfPreRelease);
    let pre_identifiers = pre_identifier.separated_by(just('.')).at_least(1);
    let pre_release = just('-').ignore_then(pre_identifiers.collect::<Vec<&str>>());
    let build_identifier = word_of(InIdentifier);
    let build_identifiers = build_identifier.separated_by(just('.')).at_least(1);
    let build = just('+').ignore_then(build_identifiers.collect::<Vec<&str>>());
    let version = core.then(pre_release.or_not()).then(build.or_not());
    version.map_by(ToVersion { alloc }).parse(alloc, text)
}
