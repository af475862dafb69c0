//! Long lists of patterns: by their keys one is found without a look at the others.
ghost use Rattle.std.specs.Prelude.{◌≡◌, ◌++◌, ◌∷◌, [], OnOk, IfOk, IfSome};
ghost use Rattle.std.specs.List.{list_any};
ghost use Rattle.chumsky_input.specs.Rich.{add_new, pattern_same};
ghost use Rattle.chumsky_input.specs.Keys.{IsKey, HasKeys, StandsSo, PutInto};

use crate::rich::{RichPattern, append, push_new};
use crate::same::SameClone;
use std::alloc::{AllocError, Global};
use std::collections::BTreeMap;

/// Where there are more patterns than this, the 128 buckets can no longer tell them apart, and a map of their keys is worth its memory.
pub(crate) const MANY: usize = 128;

/// How a pattern stands to others.
pub(crate) enum Standing {
    /// None has its key, which is this.
    New(u64),
    /// One is equal to it.
    There,
    /// One has its key.
    KeyThere,
    /// Its key isn't known.
    Unknown,
}

/// The key of a pattern: by that of its token's bucket, or one for each other kind. Two that are equal have one key. None where
/// the token's bucket isn't known.
fn key_of<T: SameClone>(pattern: &RichPattern<T>) -> Option<u64>
    ensures { IfSome result (IsKey T.eq T.bucket_of pattern.now) }
{
    match pattern {
        RichPattern::Token(token) => match token.bucket() {
            Some(bucket) => Some(bucket as u64 + 4),
            None => None,
        },
        RichPattern::Any => Some(0),
        RichPattern::SomethingElse => Some(1),
        RichPattern::EndOfInput => Some(2),
        RichPattern::Label(_) => Some(3),
    }
}

/// Where patterns stand, by their keys. None where one has no known key.
pub(crate) fn places_of<T: SameClone>(
    alloc: Global,
    patterns: &[RichPattern<T>],
) -> Result<Option<BTreeMap<u64, usize>>, AllocError>
    ensures { IfOk result (λ places. HasKeys T.bucket_of places patterns.now) }
{
    let mut places = BTreeMap::new(alloc);
    for place in 0..patterns.len() {
        match key_of(&patterns[place]) {
            Some(key) => {
                places.insert(key, place)?;
            }
            None => return Ok(None),
        }
    }
    Ok(Some(places))
}

/// How a pattern stands to those of which these are the places.
fn compare_by_key<T: SameClone>(
    patterns: &[RichPattern<T>],
    places: &Option<BTreeMap<u64, usize>>,
    pattern: &RichPattern<T>,
) -> Standing
    ensures { StandsSo T.eq T.bucket_of patterns.now places.now pattern.now result }
{
    let Some(places) = places else {
        return Standing::Unknown;
    };
    let Some(key) = key_of(pattern) else {
        return Standing::Unknown;
    };
    let Some(place) = places.get(&key) else {
        return Standing::New(key);
    };
    match patterns.get(*place) {
        Some(other) => {
            if *other == *pattern {
                Standing::There
            } else {
                Standing::KeyThere
            }
        }
        None => Standing::KeyThere,
    }
}

/// Appends a pattern that patterns lack of which these are the places.
pub(crate) fn push_by_key<T: SameClone + Drop>(
    patterns: &mut Vec<RichPattern<T>>,
    places: &mut Option<BTreeMap<u64, usize>>,
    pattern: RichPattern<T>,
) -> Result<(), AllocError>
    requires keys { HasKeys T.bucket_of places.old patterns.old.items }
    ensures items { OnOk result (patterns.new.items ≡ add_new (pattern_same T.eq) patterns.old.items (pattern ∷ [])) }
    ensures keys { OnOk result (HasKeys T.bucket_of places.new patterns.new.items) }
{
    match compare_by_key(patterns.as_slice(), places, &pattern) {
        Standing::New(key) => {
            put(places, key, patterns.len())?;
            append(patterns, pattern)?;
            Ok(())
        }
        Standing::There => Ok(()),
        Standing::KeyThere => push_new(patterns, pattern),
        Standing::Unknown => {
            *places = None;
            push_new(patterns, pattern)
        }
    }
}

/// Puts a place under a key, if there is a map.
fn put(places: &mut Option<BTreeMap<u64, usize>>, key: u64, place: usize) -> Result<(), AllocError>
    ensures { OnOk result (PutInto places.old places.new key place) }
{
    match places {
        Some(places) => {
            places.insert(key, place)?;
            Ok(())
        }
        None => Ok(()),
    }
}

/// Appends the patterns of `others` that `patterns` lacks.
#[inline(never)]
pub(crate) fn append_many<T: SameClone + Drop>(
    patterns: &mut Vec<RichPattern<T>>,
    others: Vec<RichPattern<T>>,
) -> Result<(), AllocError>
    ensures { OnOk result (patterns.new.items ≡ add_new (pattern_same T.eq) patterns.old.items others.items) }
{
    let alloc = *patterns.allocator();
    let mut places = places_of(alloc, patterns.as_slice())?;
    for pattern in others {
        push_by_key(patterns, &mut places, pattern)?;
    }
    Ok(())
}
