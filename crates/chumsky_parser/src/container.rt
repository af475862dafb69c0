//! Sequences of tokens.
ghost use Rattle.std.specs.Prelude.{◌≡◌, ℕ, ◌+◌, ◌≤◌, List, [], ◌∷◌, drop, length, refl, string_bytes, IfSome, MatchOption, nat_eq};
ghost use Rattle.std.specs.List.{list_any};
ghost use Rattle.std.specs.Char.{IsScalar};
ghost use Rattle.std.specs.Range.{range_inclusive_start};
ghost use Rattle.std.specs.Str.{chars};
ghost use Rattle.chumsky_input.specs.Maybe.{maybe_value};
ghost use Rattle.chumsky_parser.specs.Members.{chars_from, chars_between, range_past, range_from_start};

use chumsky_input::util::MaybeRef;
use std::ops::RangeInclusive;

/// A list of tokens.
pub trait Seq<T: PartialEq> {
    ghost members: { Self → List T };
    /// The members from a mark on.
    ghost members_from: { Self → ℕ → List T };

    /// Whether one of the members equals a token.
    fn contains(&self, token: &T) -> bool
        ensures { result ≡ list_any (λ x. T.eq x token.now) (members self.now) };

    /// The member at a mark, and the next mark. 0 marks the first.
    fn seq_at(&self, at: usize) -> Option<(MaybeRef<'_, T>, usize)>
        ensures { MatchOption result (members_from self.now at ≡ []) (λ p. members_from self.now at ≡ maybe_value p.0 ∷ members_from self.now p.1) };

    /// No more members than this come from any mark on, so an error that names them makes room for so many at once. None
    /// where it isn't known.
    fn most_members(&self) -> Option<usize>
        ensures { IfSome result (λ most. (at : ℕ) → length (members_from self.now at) ≤ most) }
    {
        None
    }

    /// From the first mark on these are all the members.
    ghost all_from: { (s : Self) → members_from s 0 ≡ members s };
}

/// A sequence whose order counts.
pub trait OrderedSeq<T: PartialEq>: Seq<T> {}

/// A token is a sequence of one.
impl<T: PartialEq> Seq<T> for T {
    ghost members = { λ x. x ∷ [] };

    ghost members_from = { λ x i. drop i (x ∷ []) };

    ghost all_from = { λ s. refl };

    #[inline]
    fn contains(&self, token: &T) -> bool {
        *self == *token
    }

    #[inline]
    fn seq_at(&self, at: usize) -> Option<(MaybeRef<'_, T>, usize)> {
        if at == 0 {
            Some((MaybeRef::Ref(self), 1))
        } else {
            None
        }
    }

    #[inline]
    fn most_members(&self) -> Option<usize> {
        Some(1)
    }
}

impl<T: PartialEq> OrderedSeq<T> for T {}

/// The members of a slice are its items, and marks count them.
impl<T: PartialEq> Seq<T> for &[T] {
    ghost members = { λ s. s.now };

    ghost members_from = { λ s i. drop i s.now };

    ghost all_from = { λ s. refl };

    #[inline]
    fn contains(&self, token: &T) -> bool {
        let items: &[T] = *self;
        items.contains(token)
    }

    #[inline]
    fn seq_at(&self, at: usize) -> Option<(MaybeRef<'_, T>, usize)> {
        item_at(*self, at)
    }

    #[inline]
    fn most_members(&self) -> Option<usize> {
        Some(most_items(*self))
    }
}

impl<T: PartialEq> OrderedSeq<T> for &[T] {}

impl<T: PartialEq, const N: usize> Seq<T> for [T; N] {
    ghost members = { λ s. s };

    ghost members_from = { λ s i. drop i s };

    ghost all_from = { λ s. refl };

    #[inline]
    fn contains(&self, token: &T) -> bool {
        let items: &[T] = self;
        items.contains(token)
    }

    #[inline]
    fn seq_at(&self, at: usize) -> Option<(MaybeRef<'_, T>, usize)> {
        item_at(self, at)
    }

    #[inline]
    fn most_members(&self) -> Option<usize> {
        Some(most_items(self))
    }
}

impl<T: PartialEq, const N: usize> OrderedSeq<T> for [T; N] {}

/// As of the array, so that `just(b"ok")` runs over bytes.
impl<T: PartialEq, const N: usize> Seq<T> for &[T; N] {
    ghost members = { λ s. s.now };

    ghost members_from = { λ s i. drop i s.now };

    ghost all_from = { λ s. refl };

    #[inline]
    fn contains(&self, token: &T) -> bool {
        let members: &[T] = *self;
        members.contains(token)
    }

    #[inline]
    fn seq_at(&self, at: usize) -> Option<(MaybeRef<'_, T>, usize)> {
        let members: &[T] = *self;
        item_at(members, at)
    }

    #[inline]
    fn most_members(&self) -> Option<usize> {
        let members: &[T] = *self;
        Some(most_items(members))
    }
}

impl<T: PartialEq, const N: usize> OrderedSeq<T> for &[T; N] {}

impl<T: PartialEq> Seq<T> for Vec<T> {
    ghost members = { λ s. s.items };

    ghost members_from = { λ s i. drop i s.items };

    ghost all_from = { λ s. refl };

    #[inline]
    fn contains(&self, token: &T) -> bool {
        self.as_slice().contains(token)
    }

    #[inline]
    fn seq_at(&self, at: usize) -> Option<(MaybeRef<'_, T>, usize)> {
        item_at(self.as_slice(), at)
    }

    #[inline]
    fn most_members(&self) -> Option<usize> {
        Some(most_items(self.as_slice()))
    }
}

impl<T: PartialEq> OrderedSeq<T> for Vec<T> {}

/// The item at an index, and the next index.
#[inline]
fn item_at<'a, T>(items: &'a [T], at: usize) -> Option<(MaybeRef<'a, T>, usize)>
    ensures { MatchOption result (drop at items.now ≡ []) (λ p. drop at items.now ≡ maybe_value p.0 ∷ drop p.1 items.now) }
{
    if at < items.len() {
        Some((MaybeRef::Ref(&items[at]), at + 1))
    } else {
        None
    }
}

/// How many items there are at most from any index on.
#[inline]
fn most_items<T>(items: &[T]) -> usize
    ensures { (at : ℕ) → length (drop at items.now) ≤ result }
{
    items.len()
}

/// The members of a text are its characters, and marks count its bytes.
impl Seq<char> for &str {
    ghost members = { λ s. chars s.now };

    ghost members_from = { λ s i. chars_from s.now i };

    ghost all_from = { λ s. refl };

    #[inline]
    fn contains(&self, token: &char) -> bool {
        has_char(*self, *token)
    }

    #[inline]
    fn seq_at(&self, at: usize) -> Option<(MaybeRef<'_, char>, usize)> {
        text_at(*self, at)
    }

    #[inline]
    fn most_members(&self) -> Option<usize> {
        Some(most_chars(*self))
    }
}

impl OrderedSeq<char> for &str {}

/// As of its text.
impl Seq<char> for String {
    ghost members = { λ s. chars (string_bytes s) };

    ghost members_from = { λ s i. chars_from (string_bytes s) i };

    ghost all_from = { λ s. refl };

    #[inline]
    fn contains(&self, token: &char) -> bool {
        has_char(self.as_str(), *token)
    }

    #[inline]
    fn seq_at(&self, at: usize) -> Option<(MaybeRef<'_, char>, usize)> {
        text_at(self.as_str(), at)
    }

    #[inline]
    fn most_members(&self) -> Option<usize> {
        Some(most_chars(self.as_str()))
    }
}

impl OrderedSeq<char> for String {}

/// How many characters there are at most from any byte on: each has a byte at least.
#[inline]
pub(crate) fn most_chars(text: &str) -> usize
    ensures { (at : ℕ) → length (chars_from text.now at) ≤ result }
{
    let bytes = text.as_bytes();
    bytes.len()
}

/// Whether a text has a character. One below 128 is a byte by itself, and no part of another: nothing is decoded.
#[inline]
pub(crate) fn has_char(text: &str, character: char) -> bool
    ensures { result ≡ list_any (λ x. nat_eq x character) (chars text.now) }
{
    let bytes = text.as_bytes();
    if character < '\u{80}' {
        bytes.contains(&(character as u8))
    } else {
        text.chars().any(|c| c == character)
    }
}

/// The character that begins at a byte, and the byte past it. A byte below 128 is a character by itself.
#[inline]
pub(crate) fn text_at<'a>(text: &'a str, at: usize) -> Option<(MaybeRef<'a, char>, usize)>
    ensures { MatchOption result (chars_from text.now at ≡ []) (λ p. chars_from text.now at ≡ maybe_value p.0 ∷ chars_from text.now p.1) }
{
    let bytes = text.as_bytes();
    if at >= bytes.len() {
        return None;
    }
    let byte = bytes[at];
    if byte < 128 {
        return Some((MaybeRef::Val(byte as char), at + 1));
    }
    decoded_at(text, at)
}

/// The same, however many bytes the character takes.
fn decoded_at<'a>(text: &'a str, at: usize) -> Option<(MaybeRef<'a, char>, usize)>
    ensures { MatchOption result (chars_from text.now at ≡ []) (λ p. chars_from text.now at ≡ maybe_value p.0 ∷ chars_from text.now p.1) }
{
    let _bytes = text.as_bytes();
    if !text.is_char_boundary(at) {
        return None;
    }
    let rest = &text[at..];
    let mut left = rest.chars();
    match left.next() {
        None => None,
        Some(c) => Some((MaybeRef::Val(c), at + c.len_utf8())),
    }
}

/// The members of a range are its characters in order, without surrogates. A mark is the distance from the start, as
/// numbers.
impl Seq<char> for RangeInclusive<char> {
    ghost members = { λ r. chars_between (range_inclusive_start r) (range_past r) };

    ghost members_from = { λ r i. chars_between (range_inclusive_start r + i) (range_past r) };

    ghost all_from = { λ r. range_from_start r };

    #[inline]
    fn contains(&self, token: &char) -> bool {
        // The cast tells the proof that the token is no surrogate. The value isn't used.
        let _code = *token as u32;
        RangeInclusive::contains(self, token)
    }

    #[inline]
    fn seq_at(&self, at: usize) -> Option<(MaybeRef<'_, char>, usize)> {
        let start = *self.start() as u32 as usize;
        let character = char_at_least(start.checked_add(at)?)?;
        if RangeInclusive::contains(self, &character) {
            let next = character as u32 as usize - start + 1;
            Some((MaybeRef::Val(character), next))
        } else {
            None
        }
    }

    #[inline]
    fn most_members(&self) -> Option<usize> {
        let start = *self.start() as u32 as usize;
        let end = *self.end() as u32 as usize;
        Some((end + 1).saturating_sub(start))
    }
}

/// The first character whose number is at least `code`.
#[inline]
fn char_at_least(code: usize) -> Option<char>
    ensures { MatchOption result (0x11_0000 ≤ code) (λ c. (code ≤ c) × IsScalar c × (chars_between code c ≡ [])) }
{
    if code > 0x10_FFFF {
        return None;
    }
    // Only a surrogate is no character.
    Some(char::from_u32(code as u32).unwrap_or('\u{E000}'))
}
