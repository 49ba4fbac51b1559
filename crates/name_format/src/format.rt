//! A name of a text, written by a pattern.

ghost use Rattle.std.specs.Prelude.{◌≡◌, Ok, IfOk, IfErr, None, Some, MatchOption, slice_get};
ghost use Rattle.name_format.specs.Faults.{IsFaultOf};
ghost use Rattle.name_format.specs.Numbered.{span_at};
ghost use Rattle.name_split.specs.Formatted as specs;
ghost use Rattle.name_split.specs.Names.{names_of};
ghost use Rattle.name_split.specs.Spans.{slice};
ghost use Rattle.name_split.specs.declared.spans.Span.{Span};

use crate::known::Known;
use crate::known_patterns::KnownPatterns;
use crate::pattern::pattern_written;
use bv_base::memory::NoMemory;
use name_split::names::names;
use name_split::parts::part_spans;
use name_split::spans::Parts;
use std::alloc::Global;

/// Why a name isn't written. Where several reasons hold, the first of them is given.
#[derive(Clone, Copy, Debug, PartialEq, Eq)]
pub enum FormatFault {
    /// The number is below 1, or the text has fewer names.
    BadNameIndex,
    /// The name has no parts: it has more than two commas at level 0, or ends in one.
    BadName,
    /// The pattern isn't well formed.
    BadPattern,
    /// An allocation was refused.
    NoMemory,
}

/// The name of a text with a number, counted from 1, by a pattern. A byte outside the pattern's groups stands for
/// itself, and a group for its text, or for a part of the name. A name that was taken apart last isn't taken apart again, and a
/// pattern that is known isn't looked through again.
pub fn format(
    alloc: Global,
    known: &mut Known,
    text: &[u8],
    index: i32,
    pattern: &[u8],
) -> Result<Vec<u8>, FormatFault>
    ensures written { IfOk result (λ v. specs.formatted text.now index pattern.now ≡ Ok v.items) }
    ensures fault { IfErr result (λ fault. IsFaultOf fault (specs.formatted text.now index pattern.now)) }
{
    if let Some((name, parts)) = known.name.find(text, index) {
        return by_pattern(alloc, &mut known.patterns, name, parts, pattern);
    }
    let Some(name) = name_at(text, index) else {
        return Err(FormatFault::BadNameIndex);
    };
    let Ok(parts) = part_spans(name) else {
        return Err(FormatFault::BadName);
    };
    known.name.keep(text, index, name, parts);
    by_pattern(alloc, &mut known.patterns, name, parts, pattern)
}

/// A name with these parts by a pattern.
fn by_pattern(
    alloc: Global,
    patterns: &mut KnownPatterns,
    name: &[u8],
    parts: Parts,
    pattern: &[u8],
) -> Result<Vec<u8>, FormatFault>
    ensures written { IfOk result (λ v. specs.name_written name.now (Ok parts) pattern.now ≡ Ok v.items) }
    ensures fault { IfErr result (λ fault. IsFaultOf fault (specs.name_written name.now (Ok parts) pattern.now)) }
{
    if !patterns.is_well_formed(pattern) {
        return Err(FormatFault::BadPattern);
    }
    match pattern_written(alloc, name, parts, pattern) {
        Ok(written) => Ok(written),
        Err(NoMemory) => Err(FormatFault::NoMemory),
    }
}

/// The name of a text with a number, counted from 1.
fn name_at<'a>(text: &'a [u8], index: i32) -> Option<&'a [u8]>
    ensures { MatchOption result (span_at text.now index ≡ None)
        (λ name. (span : Span) × (span_at text.now index ≡ Some span) × (name.now ≡ slice text.now span)) }
{
    if index < 1 {
        return None;
    }
    name_after(text, (index - 1) as u32)
}

/// The name of a text behind so many others.
fn name_after<'a>(text: &'a [u8], count: u32) -> Option<&'a [u8]>
    ensures { MatchOption result (slice_get (names_of text.now) count ≡ None)
        (λ name. (span : Span) × (slice_get (names_of text.now) count ≡ Some span) × (name.now ≡ slice text.now span)) }
{
    let mut list = names(text);
    let mut left = count;
    while let Some(name) = list.next() {
        if left == 0 {
            return Some(name);
        }
        left -= 1;
    }
    None
}
