//! The names of a text.

ghost use Rattle.std.specs.Prelude.{◌≡◌, ℕ, ◌+◌, ◌<◌, ◌≤◌, false, [], ◌∷◌, length, drop, take, MatchOption};
ghost use Rattle.std.specs.Iterator.{YieldsFirstRef, item_count};
ghost use Rattle.bv_base.specs.Bytes.{is_white as white};
ghost use Rattle.name_split.specs.AllParts as parts;
ghost use Rattle.name_split.specs.Names as names;
ghost use Rattle.name_split.specs.Spans.{front, kept, slice};
ghost use Rattle.name_split.specs.declared.spans.Span.{Span};

use crate::bytes::kept_length;
use crate::parts::has_parts;
use bv_base::bytes::{is_white, lower};
use bv_base::levels::next_level;
use bv_base::runs::after_white;
use std::marker::Model;

/// The names of a text, in order, as slices of it. Contracts see the text and the stretches that are left.
#[derive(Drop)]
pub struct NameList<'a> {
    text: &'a [u8],
    start: usize,
    ended: bool,
}

impl<'a> Model for NameList<'a> {
    ghost use Rattle.std.specs.Prelude.{◌≤◌, length};
    ghost use Rattle.name_split.specs.Names.{Names};

    ghost Value = { Names };

    ghost use Rattle.name_split.specs.Left.{names_left};

    ghost view = { names_left };

    ghost invariant = { λ l. l.start ≤ length l.text.now };
}

/// The names of a text. The empty text has none, and any other one more than it has separators; a separator is `and`
/// in any case at level 0 with white space directly before and after it. No name has white space at its ends.
pub fn names<'a>(text: &'a [u8]) -> NameList<'a>
    ensures text { result.text ≡ text.now }
    ensures left { result.left ≡ names.names_of text.now }
{
    NameList {
        text,
        start: 0,
        ended: text.is_empty(),
    }
}

/// How many names a text has: none where it is empty, and else one more than it has separators.
pub fn count(text: &[u8]) -> u64
    ensures names { result ≡ length (names.names_of text.now) }
    ensures separators { 0 < length text.now → result ≡ 1 + length (names.separators 0 0 false text.now) }
{
    if text.is_empty() {
        0
    } else {
        1 + separator_count(text)
    }
}

/// Whether each name of a text has parts.
pub fn names_ok(text: &[u8]) -> bool
    ensures { result ≡ parts.names_ok text.now }
{
    let mut list = names(text);
    while let Some(name) = list.next() {
        if !has_parts(name) {
            return false;
        }
    }
    true
}

/// How many separators a text has.
fn separator_count(text: &[u8]) -> u64
    ensures count { result ≡ length (names.separators 0 0 false text.now) }
    ensures few { result ≤ length text.now }
{
    let mut found = 0;
    let mut level = 0;
    let mut after_white = false;
    for (at, b) in text.iter().enumerate() {
        if begins_separator(level, after_white, text.split_at(at).1) {
            found += 1;
        }
        level = next_level(level, *b);
        after_white = is_white(*b);
    }
    found
}

impl<'a> NameList<'a> {
    /// The next name, or `None` exactly after the last.
    pub fn next(&mut self) -> Option<&'a [u8]>
        ensures text { self.new.text ≡ self.old.text }
        ensures name { MatchOption result ((self.old.left ≡ []) × (self.new.left ≡ []))
            (λ name. (span : Span) × (self.old.left ≡ span ∷ self.new.left) × (name.now ≡ slice self.old.text span)) }
    {
        if self.ended {
            return None;
        }
        let rest = self.text.split_at(self.start).1;
        match first_separator(rest) {
            Some(at) => {
                self.start = self.start + at + 3;
                Some(trimmed(rest.split_at(at).0))
            }
            None => {
                self.ended = true;
                Some(trimmed(rest))
            }
        }
    }
}

impl<'a> Iterator for NameList<'a> {
    type Item = &'a [u8];

    ghost next_gives = { YieldsFirstRef names.slices_left };

    ghost remaining = { item_count names.slices_left };

    fn next(&mut self) -> Option<&'a [u8]> {
        NameList::next(self)
    }
}

/// A slice without the white space at its ends.
#[tactic(auto, using(crate::proofs::Cutting::white_front))]
fn trimmed<'a>(bytes: &'a [u8]) -> &'a [u8]
    ensures { let rest = drop (front white bytes.now) bytes.now in
        result.now ≡ take (kept white rest) rest }
{
    let rest = after_white(bytes);
    rest.split_at(kept_length(rest)).0
}

/// How many bytes stand before the first separator, if there is one. The first byte has level 0.
fn first_separator(text: &[u8]) -> Option<usize>
    ensures separators { (base : ℕ) → MatchOption result (names.separators base 0 false text.now ≡ [])
        (λ at. names.separators base 0 false text.now
        ≡ (base + at) ∷ names.separators (base + (at + 3)) 0 false (drop (at + 3) text.now)) }
    ensures within { MatchOption result (Unit {0}) (λ at. at + 3 ≤ length text.now) }
{
    let mut level = 0;
    let mut after_white = false;
    for (at, b) in text.iter().enumerate() {
        if begins_separator(level, after_white, text.split_at(at).1) {
            return Some(at);
        }
        level = next_level(level, *b);
        after_white = is_white(*b);
    }
    None
}

/// Whether a separator stands first, where the first byte has a level and stands after white space or not.
fn begins_separator(level: usize, after_white: bool, text: &[u8]) -> bool
    ensures { result ≡ names.begins_separator level after_white text.now }
{
    level == 0 && after_white && begins_and(text)
}

/// Whether `and` in any case stands first, with white space directly after it.
fn begins_and(text: &[u8]) -> bool
    ensures { result ≡ names.begins_and text.now }
{
    match text {
        [a, n, d, white, ..] => {
            lower(*a) == b'a' && lower(*n) == b'n' && lower(*d) == b'd' && is_white(*white)
        }
        _ => false,
    }
}
