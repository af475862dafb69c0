//! Addresses of four numbers below 256, by a rule.
ghost use Rattle.std.specs.Prelude.{◌≡◌, ℕ, ◌+◌, ◌*◌, ◌-◌, ◌<◌, ◌^◌, unwrap_or, Some, [], length, map, IfOk, IfErr, ⊤};
ghost use Rattle.std.specs.List.{All};
ghost use Rattle.std.specs.Result.{result_ok};
ghost use Rattle.std.specs.Str.{chars};
ghost use Rattle.chumsky_input.specs.declared.stop.Stop.TheVariants as stop;
ghost use Rattle.chumsky_text.specs.Decimals.{unsigned_of, below};
ghost use Rattle.chumsky.specs.Accepted.{Exactly};
ghost use Rattle.chumsky_grammars.specs.Compiled.{IsNode, IsOneRule};
ghost use Rattle.grammars.specs.Addresses.{IsAddress, address_expression, byte_of};
ghost use Rattle.grammars.specs.AddressesLaws.{AreAddressLeaves};

use chumsky::Stop;
use chumsky::combinator::Mapper;
use chumsky::extra::EmptyText;
use chumsky::prelude::*;
use chumsky::recursive::{BuildError, Leaves, Moving, Node, Values};
use chumsky_grammars::exact::{Judge, exact_by};
use either::Either;
use std::alloc::{AllocError, Global};

/// The leaves, by number.
const NUMBER: usize = 0;

const DOT: usize = 1;

/// Makes the number that digits write; where no `u32` holds it, the greatest.
#[derive(Clone, Copy, Drop)]
struct ToNumber;

impl<'src> Mapper<&'src str, u32> for ToNumber {
    ghost gives = { λ _ digits number. number ≡ unwrap_or (unsigned_of 32 digits.now) (2 ^ 32 - 1) };

    fn apply(&self, digits: &'src str) -> u32 {
        match digits.parse() {
            Ok(number) => number,
            Err(_) => u32::MAX,
        }
    }
}

/// Values are numbers, and addresses of several.
#[derive(Drop)]
struct Addresses;

impl Values<SimpleSpan, EmptyErr> for Addresses {
    type Value = u32;

    ghost pair_gives = { λ _ _ p v. p.0 * 256 + p.1 < 2 ^ 32 → v ≡ p.0 * 256 + p.1 };

    ghost try_gives = { λ _ _ number _ r. result_ok r ≡ below 8 number };

    /// The address of one number more.
    fn pair(&self, _alloc: Global, _number: usize, a: u32, b: u32) -> Result<u32, AllocError> {
        Ok(a.saturating_mul(256).saturating_add(b))
    }

    fn option(&self, _alloc: Global, _number: Option<u32>) -> Result<u32, AllocError>
        ensures { IfOk result (λ _. ⊤) }
    {
        Ok(0)
    }

    fn unit(&self, _alloc: Global) -> Result<u32, AllocError> {
        Ok(0)
    }

    fn map(&self, _alloc: Global, _mapper: usize, number: u32) -> Result<u32, AllocError> {
        Ok(number)
    }

    fn list(&self, _alloc: Global, _items: Vec<u32>) -> Result<u32, AllocError>
        ensures { IfOk result (λ _. ⊤) }
    {
        Ok(0)
    }

    /// The number, if it is below 256.
    fn try_map(
        &self,
        _alloc: Global,
        _mapper: usize,
        number: u32,
        _span: SimpleSpan,
    ) -> Result<Result<u32, EmptyErr>, AllocError> {
        if number < 256 {
            Ok(Ok(number))
        } else {
            Ok(Err(EmptyErr))
        }
    }
}

/// Of the digits that write a number below 256 that number is made, and of no others one.
#[derive(Clone, Copy, Drop)]
struct Bytes;

impl Judge<char, u32> for Bytes {
    ghost picks = { λ _. Some (λ _. byte_of) };
}

/// Four numbers below 256, with a dot before each but the first.
fn body(rules: &mut Rules) -> Result<Node, BuildError>
    requires empty { rules.old.nodes ≡ [] }
    ensures body { IfOk result (λ n. IsNode 2 address_expression rules.new.nodes n) }
    ensures bodies { rules.new.bodies ≡ rules.old.bodies }
{
    let number = rules.leaf(NUMBER)?;
    let byte = rules.try_map(number, 0)?;
    let dot = rules.leaf(DOT)?;
    let next = rules.then(dot, byte)?;
    let two = rules.then(byte, next)?;
    let three = rules.then(two, next)?;
    rules.then(three, next)
}

/// The one rule.
fn address_rules(alloc: Global) -> Result<(Rules, Recursive), Stop>
    ensures rules { IfOk result (λ p. IsOneRule 2 address_expression p.0 × (p.1 ≡ 0)) }
    ensures memory { IfErr result (λ why. why ≡ stop.Memory) }
{
    let mut rules = Rules::new(alloc);
    let Ok(address) = rules.declare() else {
        return Err(Stop::Memory);
    };
    let Ok(node) = body(&mut rules) else {
        return Err(Stop::Memory);
    };
    match rules.define(address, node) {
        Ok(()) => Ok((rules, address)),
        Err(_) => unreachable!(),
    }
}

/// The address of a text, by two leaves, of which the first takes digits and the second a dot.
fn parse_over<'src, P: Moving<'src, &'src str, u32, EmptyText>>(
    alloc: Global,
    text: &'src str,
    leaves: &[P],
) -> Result<ParseResult<u32, EmptyErr>, Stop>
    requires two { length leaves.now ≡ 2 }
    requires ready { All P.ready leaves.now }
    requires languages { AreAddressLeaves (map P.language leaves.now) }
    ensures { Exactly IsAddress (chars text.now) result }
{
    let (rules, address) = address_rules(alloc)?;
    let Some(limit) = text.len().checked_add(1) else {
        return Err(Stop::Memory);
    };
    let actions = Leaves {
        leaves,
        values: Addresses,
    };
    match close(&rules, address, &actions, limit) {
        Ok(grammar) => exact_by(grammar, Bytes).parse(alloc, text),
        Err(_) => unreachable!(),
    }
}

/// The address that a text such as `127.0.0.1` is, as a number whose bytes are its four numbers, the first the highest. They are
/// below 256, in decimal digits without zeros before them; of another text there is no output.
pub fn parse_address(alloc: Global, text: &str) -> Result<ParseResult<u32, EmptyErr>, Stop>
    ensures { Exactly IsAddress (chars text.now) result }
{
    let leaves = [
        Either::Left(text::int::<&str, EmptyText>(10).map_by(ToNumber)),
        Either::Right(just('.').to(0)),
    ];
    parse_over(alloc, text, &leaves)
}
