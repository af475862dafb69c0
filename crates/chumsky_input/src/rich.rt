//! An error that says what was expected and what was found.
ghost use Rattle.std.specs.Prelude.{◌≡◌, ℕ, ◌%◌, ◌≤◌, ⊤, List, [], ◌∷◌, ◌++◌, Option, Some, None, IfOk, IfSome, OnOk, OnErr, IsOk, MatchOption, map, option_map, option_copied, option_to_list, string_bytes};
ghost use Rattle.std.specs.Iterator.{IsFinite, Drains};
ghost use Rattle.std.specs.Int.{bit_at};
ghost use Rattle.std.specs.List.{filter_map, list_any};
ghost use Rattle.std.specs.Slice.Iter.{iter_rest};
ghost use Rattle.chumsky_input.specs.Maybe.{maybe_value};
ghost use Rattle.chumsky_input.specs.Keeping.{kept_event, KeepsEvent};
ghost use Rattle.chumsky_input.specs.Wanted.{Label, Token, plain_wanted, sole_wanted, wanted_same};
ghost use Rattle.chumsky_input.specs.declared.rich.RichPattern.TheVariants as pattern;
ghost use Rattle.chumsky_input.specs.Rich.{RichSeen, rich_seen, rich_span, rich_found, rich_patterns, rich_message, rich_expectation, rich_merged, Empty, add_new, pattern_same, pattern_seen, pattern_wanted, wanted_pattern, MarksBucket, MarksToken, AreMarked};
ghost use Rattle.chumsky_input.specs.RichLaws.{pattern_same_laws};

use crate::error::Error;
use crate::input::Tokens;
use crate::input_ref::Located;
use crate::many::{MANY, append_many, push_by_key};
use crate::same::SameClone;
use crate::span::SimpleSpan;
use crate::util::{DefaultExpected, Expectation, MaybeRef, Plain, Sole, token_of};
use std::alloc::{AllocError, Global};
use std::collections::BTreeMap;
use std::fmt::Display;

/// Something that would have been accepted.
#[derive(Clone, Debug, Drop)]
pub enum RichPattern<T> {
    /// That token.
    Token(T),
    /// Any token.
    Any,
    /// Some token that the parser didn't name.
    SomethingElse,
    EndOfInput,
    /// What a label names.
    Label(String),
}

impl<T: PartialEq> PartialEq for RichPattern<T> {
    ghost eq = { pattern_same T.eq };

    ghost laws = { pattern_same_laws T.eq T.laws };

    #[inline]
    fn eq(&self, other: &Self) -> bool {
        match (self, other) {
            (RichPattern::Token(one), RichPattern::Token(two)) => *one == *two,
            (RichPattern::Any, RichPattern::Any) => true,
            (RichPattern::SomethingElse, RichPattern::SomethingElse) => true,
            (RichPattern::EndOfInput, RichPattern::EndOfInput) => true,
            (RichPattern::Label(one), RichPattern::Label(two)) => *one == *two,
            _ => false,
        }
    }
}

/// What was expected and what was found, or a message.
#[derive(Clone, Debug, PartialEq, Drop)]
enum RichReason<T> {
    Expected(Vec<RichPattern<T>>, Option<T>),
    Custom(String),
}

/// An error that says where it stands, and what was expected and found there. A custom error has a message in place of
/// the last two.
#[derive(Clone, Debug, PartialEq, Drop)]
pub struct Rich<T> {
    span: SimpleSpan,
    reason: RichReason<T>,
}

impl<T> Rich<T> {
    /// A custom error: it shows its message alone, with no found token and no patterns.
    #[inline]
    pub fn custom(span: SimpleSpan, message: String) -> Self
        ensures span { rich_span result ≡ span }
        ensures found { rich_found result ≡ None }
        ensures patterns { rich_patterns result ≡ [] }
        ensures message { rich_message result ≡ Some (string_bytes message) }
    {
        Rich {
            span,
            reason: RichReason::Custom(message),
        }
    }

    /// The same with a message that is made of anything that prints: `Rich::custom_in(alloc, span, "no such day")?`.
    pub fn custom_in<M: Display + Drop>(
        alloc: Global,
        span: SimpleSpan,
        message: M,
    ) -> Result<Self, AllocError>
        ensures span { IfOk result (λ e. rich_span e ≡ span) }
        ensures found { IfOk result (λ e. rich_found e ≡ None) }
        ensures patterns { IfOk result (λ e. rich_patterns e ≡ []) }
        ensures message { IfOk result (λ e. (text : List ℕ) × (rich_message e ≡ Some text) × IfSome (M.output message) (λ printed. text ≡ printed)) }
    {
        let message = String::format(alloc, message)?;
        Ok(Rich::custom(span, message))
    }

    /// Where the error stands.
    #[inline]
    pub fn span(&self) -> &SimpleSpan
        ensures { result.now ≡ rich_span self.now }
    {
        &self.span
    }

    /// The token that was found. None at the end of input, and of a custom error.
    #[inline]
    pub fn found(&self) -> Option<&T>
        ensures { option_copied result ≡ rich_found self.now }
    {
        match &self.reason {
            RichReason::Expected(_, Some(token)) => Some(token),
            _ => None,
        }
    }

    /// What was expected, each once. Of a custom error nothing.
    #[inline]
    pub fn expected(&self) -> std::slice::Iter<'_, RichPattern<T>>
        ensures { iter_rest result ≡ rich_patterns self.now }
    {
        match &self.reason {
            RichReason::Expected(patterns, _) => patterns.iter(),
            RichReason::Custom(_) => {
                let none: &[RichPattern<T>] = &[];
                none.iter()
            }
        }
    }

    /// The message of a custom error.
    #[inline]
    pub fn reason(&self) -> Option<&str>
        ensures { option_copied result ≡ rich_message self.now }
    {
        match &self.reason {
            RichReason::Expected(_, _) => None,
            RichReason::Custom(message) => Some(message.as_str()),
        }
    }
}

impl<T: Drop> Rich<T> {
    /// The same error, where what a label names was expected, and nothing else: `error.with_label(alloc, "a month")?`. A
    /// custom error loses its message.
    pub fn with_label(self, alloc: Global, label: &str) -> Result<Self, AllocError>
        ensures span { IfOk result (λ e. rich_span e ≡ rich_span self) }
        ensures found { IfOk result (λ e. rich_found e ≡ rich_found self) }
        ensures patterns { IfOk result (λ e. map pattern_wanted (rich_patterns e) ≡ Label label.now ∷ []) }
        ensures message { IfOk result (λ e. rich_message e ≡ None) }
    {
        let Rich { span, reason } = self;
        let found = match reason {
            RichReason::Expected(_, found) => found,
            RichReason::Custom(_) => None,
        };
        let mut patterns = Vec::new(alloc);
        patterns.push(RichPattern::Label(String::from_str(alloc, label)?))?;
        Ok(Rich {
            span,
            reason: RichReason::Expected(patterns, found),
        })
    }
}

impl<T: SameClone + Drop, I: Tokens<Token = T, Span = SimpleSpan>> Error<I> for Rich<T> {
    ghost Seen = { RichSeen T.Seen };

    ghost seen = { rich_seen T.seen };

    ghost expectation = { rich_expectation T.seen T.same };

    ghost merged = { rich_merged T.same };

    ghost takes_no_memory = { Empty };

    fn expected_found<'a, X: Iterator + Drop>(
        alloc: Global,
        expected: X,
        found: Option<MaybeRef<'a, T>>,
        span: SimpleSpan,
    ) -> Result<Self, AllocError>
    where
        X::Item: Expectation<T> + Drop,
        requires can { X.can_next expected }
        requires ends { IsFinite (X.remaining expected) }
        ensures error { IfOk result (λ e. (xs : List X.Item) × Drains X.next_gives expected xs × (rich_seen T.seen e ≡ rich_expectation T.seen T.same (map X.Item.expectation xs) (option_map maybe_value found.entry) span)) }
        ensures memory { Empty → IsOk result }
    {
        let patterns = patterns_of(alloc, expected)?;
        let found = match found {
            Some(token) => Some(token_of(token)?),
            None => None,
        };
        Ok(Rich {
            span,
            reason: RichReason::Expected(patterns, found),
        })
    }

    fn merge(self, other: Self) -> Result<Self, AllocError>
        ensures error { IfOk result (λ e. rich_seen T.seen e ≡ rich_merged T.same (rich_seen T.seen self) (rich_seen T.seen other)) }
        ensures memory { Empty → IsOk result }
    {
        let Rich { span, reason } = self;
        let Rich {
            span: other_span,
            reason: other_reason,
        } = other;
        match reason {
            RichReason::Custom(message) => Ok(Rich {
                span,
                reason: RichReason::Custom(message),
            }),
            RichReason::Expected(mut patterns, found) => match other_reason {
                RichReason::Custom(message) => Ok(Rich {
                    span: other_span,
                    reason: RichReason::Custom(message),
                }),
                RichReason::Expected(others, _) => {
                    append_new(&mut patterns, others)?;
                    Ok(Rich {
                        span,
                        reason: RichReason::Expected(patterns, found),
                    })
                }
            },
        }
    }

    #[inline(always)]
    fn keep_expected(
        kept: &mut Option<Located<Self>>,
        place: usize,
        alloc: Global,
        expected: &Sole<'_, T>,
        found: Option<&T>,
        span: SimpleSpan,
    ) -> Result<(), AllocError>
        requires near { MatchOption kept.old ⊤ (λ older. older.place ≤ place) }
        ensures keeps { KeepsEvent (rich_merged T.same) Empty (record { place = place; error = rich_expectation T.seen T.same (sole_wanted expected.now) (option_copied found.entry) span }) (kept_event (rich_seen T.seen) kept.old) (kept_event (rich_seen T.seen) kept.new) result }
        ensures refused { OnErr result (kept_event (rich_seen T.seen) kept.new ≡ kept_event (rich_seen T.seen) kept.old) }
    {
        match kept {
            None => {
                let error = rich_of_one(alloc, *expected, found, span)?;
                *kept = Some(Located { place, error });
                Ok(())
            }
            Some(older) => {
                if older.place < place {
                    replace_by_one(&mut older.error, alloc, *expected, found, span)?;
                    older.place = place;
                    Ok(())
                } else {
                    merge_one(&mut older.error, alloc, *expected)?;
                    Ok(())
                }
            }
        }
    }
}

/// The error where at most one thing was expected.
#[inline(never)]
fn rich_of_one<T: SameClone + Drop>(
    alloc: Global,
    expected: Sole<'_, T>,
    found: Option<&T>,
    span: SimpleSpan,
) -> Result<Rich<T>, AllocError>
    ensures { IfOk result (λ e. rich_seen T.seen e ≡ rich_expectation T.seen T.same (sole_wanted expected.entry) (option_copied found.entry) span) }
{
    let found = token_found(found)?;
    let mut patterns = Vec::new(alloc);
    set_to(&mut patterns, pattern_of_one(alloc, expected)?)?;
    Ok(Rich {
        span,
        reason: RichReason::Expected(patterns, found),
    })
}

/// Makes an error that of another place, where at most one thing was expected. A refusal changes nothing that counts.
#[inline(always)]
fn replace_by_one<T: SameClone + Drop>(
    error: &mut Rich<T>,
    alloc: Global,
    expected: Sole<'_, T>,
    found: Option<&T>,
    span: SimpleSpan,
) -> Result<(), AllocError>
    ensures replaces { OnOk result (rich_seen T.seen error.new ≡ rich_expectation T.seen T.same (sole_wanted expected.entry) (option_copied found.entry) span) }
    ensures refused { OnErr result (rich_seen T.seen error.new ≡ rich_seen T.seen error.old) }
{
    match &mut error.reason {
        RichReason::Expected(patterns, older_found) => {
            let found = token_found(found)?;
            set_to(patterns, pattern_of_one(alloc, expected)?)?;
            *older_found = found;
            error.span = span;
        }
        RichReason::Custom(_) => *error = rich_of_one(alloc, expected, found, span)?,
    }
    Ok(())
}

/// Takes one more expectation of the same place into an error. A refusal changes nothing that counts.
#[inline(always)]
fn merge_one<T: SameClone + Drop>(
    error: &mut Rich<T>,
    alloc: Global,
    expected: Sole<'_, T>,
) -> Result<(), AllocError>
    ensures merges { OnOk result ((f : Option T) (span : SimpleSpan) → rich_seen T.seen error.new ≡ rich_merged T.same (rich_seen T.seen error.old) (rich_expectation T.seen T.same (sole_wanted expected.entry) f span)) }
    ensures refused { OnErr result (rich_seen T.seen error.new ≡ rich_seen T.seen error.old) }
{
    match &mut error.reason {
        RichReason::Expected(patterns, _) => match expected {
            Sole::Token(token) => add_token(patterns, token),
            Sole::Other(what) => add_plain(patterns, alloc, what),
        },
        RichReason::Custom(_) => Ok(()),
    }
}

/// A token of one's own of what was found.
#[inline(always)]
fn token_found<T: SameClone>(found: Option<&T>) -> Result<Option<T>, AllocError>
    ensures { IfOk result (λ o. option_map T.seen o ≡ option_map T.seen (option_copied found.entry)) }
{
    match found {
        Some(token) => Ok(Some(token.clone()?)),
        None => Ok(None),
    }
}

/// Appends the pattern of a token, if the patterns lack it. A refusal leaves them as they are.
#[inline(always)]
fn add_token<T: SameClone + Drop>(
    patterns: &mut Vec<RichPattern<T>>,
    token: &T,
) -> Result<(), AllocError>
    ensures adds { OnOk result (map (pattern_seen T.seen) patterns.new.items ≡ add_new (wanted_same T.same) (map (pattern_seen T.seen) patterns.old.items) (Token (T.seen token.now) ∷ [])) }
    ensures refused { OnErr result (patterns.new.items ≡ patterns.old.items) }
{
    if !is_named(token, patterns.as_slice()) {
        let own = token_of(MaybeRef::Ref(token))?;
        append(patterns, RichPattern::Token(own))?;
    }
    Ok(())
}

/// Whether one of the patterns is that of a token.
#[inline(always)]
fn is_named<T: PartialEq>(token: &T, patterns: &[RichPattern<T>]) -> bool
    ensures { result ≡ list_any (λ x. pattern_same T.eq x (pattern.Token token.now)) patterns.now }
{
    for pattern in patterns {
        if let RichPattern::Token(other) = pattern
            && *other == *token
        {
            return true;
        }
    }
    false
}

/// Appends the pattern of what is no token, if the patterns lack it. A refusal leaves them as they are.
#[inline(never)]
fn add_plain<T: SameClone + Drop>(
    patterns: &mut Vec<RichPattern<T>>,
    alloc: Global,
    what: Plain<'_>,
) -> Result<(), AllocError>
    ensures adds { OnOk result (map (pattern_seen T.seen) patterns.new.items ≡ add_new (wanted_same T.same) (map (pattern_seen T.seen) patterns.old.items) (filter_map (wanted_pattern T.seen) (plain_wanted what.entry))) }
    ensures refused { OnErr result (patterns.new.items ≡ patterns.old.items) }
{
    match pattern_of_plain(alloc, what)? {
        Some(pattern) => {
            push_new(patterns, pattern)?;
            Ok(())
        }
        None => Ok(()),
    }
}

/// The pattern that shows what alone was expected, as it counts.
#[inline(always)]
fn pattern_of_one<T: SameClone>(
    alloc: Global,
    expected: Sole<'_, T>,
) -> Result<Option<RichPattern<T>>, AllocError>
    ensures { IfOk result (λ o. option_to_list (option_map (pattern_seen T.seen) o) ≡ filter_map (wanted_pattern T.seen) (sole_wanted expected.entry)) }
{
    match expected {
        Sole::Token(token) => Ok(Some(RichPattern::Token(token.clone()?))),
        Sole::Other(what) => pattern_of_plain(alloc, what),
    }
}

/// The pattern that shows what is no token.
#[inline(never)]
fn pattern_of_plain<T: SameClone>(
    alloc: Global,
    what: Plain<'_>,
) -> Result<Option<RichPattern<T>>, AllocError>
    ensures { IfOk result (λ o. option_to_list (option_map (pattern_seen T.seen) o) ≡ filter_map (wanted_pattern T.seen) (plain_wanted what.entry)) }
{
    match what {
        Plain::Nothing => Ok(None),
        Plain::Any => Ok(Some(RichPattern::Any)),
        Plain::SomethingElse => Ok(Some(RichPattern::SomethingElse)),
        Plain::NothingElse => Ok(None),
        Plain::EndOfInput => Ok(Some(RichPattern::EndOfInput)),
        Plain::Label(text) => Ok(Some(RichPattern::Label(String::from_str(alloc, text)?))),
    }
}

/// The pattern that shows an expectation, as it counts.
#[inline(always)]
fn pattern_of<T: SameClone, X: Expectation<T>>(
    alloc: Global,
    expected: &X,
) -> Result<Option<RichPattern<T>>, AllocError>
    ensures { IfOk result (λ o. option_map (pattern_seen T.seen) o ≡ wanted_pattern T.seen (X.expectation expected.now)) }
{
    if let Some(label) = expected.label() {
        return Ok(Some(RichPattern::Label(String::from_str(alloc, label)?)));
    }
    match expected.as_expected() {
        DefaultExpected::Token(token) => Ok(Some(RichPattern::Token(token_of(token)?))),
        DefaultExpected::Any => Ok(Some(RichPattern::Any)),
        DefaultExpected::SomethingElse => Ok(Some(RichPattern::SomethingElse)),
        DefaultExpected::NothingElse => Ok(None),
        DefaultExpected::EndOfInput => Ok(Some(RichPattern::EndOfInput)),
    }
}

/// The patterns that show some expectations, each once, in the order of their first arrival.
fn patterns_of<T: SameClone + Drop, X: Iterator + Drop>(
    alloc: Global,
    expected: X,
) -> Result<Vec<RichPattern<T>>, AllocError>
where
    X::Item: Expectation<T> + Drop,
    requires can { X.can_next expected }
    requires ends { IsFinite (X.remaining expected) }
    ensures { IfOk result (λ v. (xs : List X.Item) × Drains X.next_gives expected xs × (map (pattern_seen T.seen) v.items ≡ add_new (wanted_same T.same) [] (filter_map (wanted_pattern T.seen) (map X.Item.expectation xs)))) }
{
    let (least, most) = expected.size_hint();
    let count = most.unwrap_or(least);
    if count > MANY {
        many_patterns_of(alloc, expected)
    } else {
        few_patterns_of(alloc, expected, room_for(count))
    }
}

/// The same of few, which are told apart by the bits of their buckets.
#[inline]
fn few_patterns_of<T: SameClone + Drop, X: Iterator + Drop>(
    alloc: Global,
    expected: X,
    room: usize,
) -> Result<Vec<RichPattern<T>>, AllocError>
where
    X::Item: Expectation<T> + Drop,
    requires can { X.can_next expected }
    requires ends { IsFinite (X.remaining expected) }
    ensures { IfOk result (λ v. (xs : List X.Item) × Drains X.next_gives expected xs × (map (pattern_seen T.seen) v.items ≡ add_new (wanted_same T.same) [] (filter_map (wanted_pattern T.seen) (map X.Item.expectation xs)))) }
{
    let mut patterns = Vec::with_capacity(alloc, room)?;
    let mut marks = 0;
    for item in expected {
        if let Some(pattern) = pattern_of(alloc, &item)? {
            push_pattern(&mut patterns, &mut marks, pattern)?;
        }
    }
    Ok(patterns)
}

/// The same of many, which are told apart by their keys.
#[inline(never)]
fn many_patterns_of<T: SameClone + Drop, X: Iterator + Drop>(
    alloc: Global,
    expected: X,
) -> Result<Vec<RichPattern<T>>, AllocError>
where
    X::Item: Expectation<T> + Drop,
    requires can { X.can_next expected }
    requires ends { IsFinite (X.remaining expected) }
    ensures { IfOk result (λ v. (xs : List X.Item) × Drains X.next_gives expected xs × (map (pattern_seen T.seen) v.items ≡ add_new (wanted_same T.same) [] (filter_map (wanted_pattern T.seen) (map X.Item.expectation xs)))) }
{
    let mut patterns = Vec::with_capacity(alloc, MOST_AT_ONCE)?;
    let mut places = Some(BTreeMap::new(alloc));
    for item in expected {
        if let Some(pattern) = pattern_of(alloc, &item)? {
            push_by_key(&mut patterns, &mut places, pattern)?;
        }
    }
    Ok(patterns)
}

/// For how many patterns room is made at once at most, since the hint of how many come may be too high.
const MOST_AT_ONCE: usize = 64;

/// How many patterns to make room for at once, where so many may come.
#[inline]
fn room_for(count: usize) -> usize {
    // The first push makes room for four by itself, and a few patterns are often merged with others.
    if count > 4 {
        count.min(MOST_AT_ONCE)
    } else {
        0
    }
}

/// Appends a pattern that `patterns` lacks. The bits of `marks` are the buckets that the patterns are in: one in another
/// bucket differs from all of them, and is compared with none.
#[inline(always)]
fn push_pattern<T: SameClone + Drop>(
    patterns: &mut Vec<RichPattern<T>>,
    marks: &mut u128,
    pattern: RichPattern<T>,
) -> Result<(), AllocError>
    requires marked { AreMarked T.bucket_of marks.old patterns.old.items }
    ensures items { OnOk result (patterns.new.items ≡ add_new (pattern_same T.eq) patterns.old.items (pattern ∷ [])) }
    ensures marked { OnOk result (AreMarked T.bucket_of marks.new patterns.new.items) }
{
    let mark = mark_of(&pattern);
    let is_new = *marks & mark == 0;
    *marks |= mark;
    if is_new {
        append(patterns, pattern)?;
    } else {
        push_new(patterns, pattern)?;
    }
    Ok(())
}

/// The bit of a pattern's bucket: that of its token, or one for each other kind.
#[inline(always)]
fn mark_of<T: SameClone>(pattern: &RichPattern<T>) -> u128
    ensures { MarksBucket T.eq T.bucket_of (pattern_wanted pattern.now) result }
{
    match pattern {
        RichPattern::Token(token) => token_mark(token),
        RichPattern::Any => 2,
        RichPattern::SomethingElse => 4,
        RichPattern::EndOfInput => 16,
        RichPattern::Label(_) => 32,
    }
}

/// The bit of a token's bucket, or all bits where its bucket isn't known.
#[inline(always)]
fn token_mark<T: SameClone>(token: &T) -> u128
    ensures { MarksToken T.eq T.bucket_of token.now result }
{
    match token.bucket() {
        Some(bucket) => bucket_bit(bucket),
        None => u128::MAX,
    }
}

/// The bit of a bucket, of 128.
#[inline(always)]
fn bucket_bit(bucket: u32) -> u128
    ensures { bit_at result (bucket % 128) ≡ 1 }
{
    1 << (bucket % 128)
}

/// Appends the patterns of `others` that `patterns` lacks. One in a bucket of its own is compared with none.
fn append_new<T: SameClone + Drop>(
    patterns: &mut Vec<RichPattern<T>>,
    others: Vec<RichPattern<T>>,
) -> Result<(), AllocError>
    ensures { OnOk result (patterns.new.items ≡ add_new (pattern_same T.eq) patterns.old.items others.items) }
{
    if patterns.len() > MANY || others.len() > MANY {
        return append_many(patterns, others);
    }
    let mut marks = marks_of(patterns.as_slice());
    for pattern in others {
        push_pattern(patterns, &mut marks, pattern)?;
    }
    Ok(())
}

/// The bits of the buckets that the patterns are in.
#[inline]
fn marks_of<T: SameClone>(patterns: &[RichPattern<T>]) -> u128
    ensures { AreMarked T.bucket_of result patterns.now }
{
    let mut marks = 0;
    for pattern in patterns {
        marks |= mark_of(pattern);
    }
    marks
}

/// Leaves that item alone, or none. A refusal leaves the items as they are.
#[inline(always)]
fn set_to<P: Drop>(items: &mut Vec<P>, item: Option<P>) -> Result<(), AllocError>
    ensures items { OnOk result (items.new.items ≡ option_to_list item) }
    ensures refused { OnErr result (items.new.items ≡ items.old.items) }
{
    match item {
        None => items.truncate(0),
        Some(item) => {
            if items.capacity() == 0 {
                items.reserve(1)?;
            }
            items.truncate(0);
            items.push_reserved(item);
        }
    }
    Ok(())
}

/// Appends an item. A refusal leaves the items as they are.
#[inline(always)]
pub(crate) fn append<P: Drop>(items: &mut Vec<P>, item: P) -> Result<(), AllocError>
    ensures items { OnOk result (items.new.items ≡ items.old.items ++ item ∷ []) }
    ensures refused { OnErr result (items.new.items ≡ items.old.items) }
{
    if items.len() == items.capacity() {
        items.reserve(1)?;
    }
    items.push_reserved(item);
    Ok(())
}

/// Appends an item that `items` lacks. A refusal leaves the items as they are.
#[inline]
pub(crate) fn push_new<P: PartialEq + Drop>(items: &mut Vec<P>, item: P) -> Result<(), AllocError>
    ensures items { OnOk result (items.new.items ≡ add_new P.eq items.old.items (item ∷ [])) }
    ensures refused { OnErr result (items.new.items ≡ items.old.items) }
{
    if !items.as_slice().contains(&item) {
        items.push(item)?;
    }
    Ok(())
}
