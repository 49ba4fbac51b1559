//! Patterns of names.

ghost use Rattle.std.specs.Prelude.{◌≡◌, ◌≤◌, [], length, ◌&&◌, nat_eq, MatchOption};
ghost use Rattle.std.specs.List.{list_all};
ghost use Rattle.name_split.specs.FirstRun.{IsFirstRun};
ghost use Rattle.name_split.specs.Patterns as patterns;

use crate::bytes::leveled_before;
use crate::front::inside;
use bv_base::bytes::lower;
use bv_base::levels::{next_level, split_letters};

/// Whether a pattern is well formed: its braces match, and each group has at level 1 at most one run of ASCII letters,
/// which is one letter of `f v l j` in any case or two equal ones.
pub fn pattern_ok(pattern: &[u8]) -> bool
    ensures { result ≡ patterns.pattern_ok pattern.now }
{
    is_balanced(pattern) && groups_ok(pattern)
}

/// Whether the braces match.
fn is_balanced(pattern: &[u8]) -> bool
    ensures { result ≡ patterns.balanced 0 pattern.now }
{
    let mut level = 0;
    for b in pattern {
        if level == 0 && *b == b'}' {
            return false;
        }
        level = next_level(level, *b);
    }
    level == 0
}

/// Whether each group is well formed.
fn groups_ok(pattern: &[u8]) -> bool
    ensures { result ≡ list_all patterns.group_ok (patterns.groups 0 pattern.now) }
{
    let mut level = 0;
    for (at, b) in pattern.iter().enumerate() {
        if begins_bad_group(level, pattern.split_at(at).1) {
            return false;
        }
        level = next_level(level, *b);
    }
    true
}

/// Whether a group that isn't well formed stands first, where the first byte has a level.
fn begins_bad_group(level: usize, pattern: &[u8]) -> bool
    ensures { result ≡ patterns.begins_bad_group level pattern.now }
{
    match pattern {
        [b'{', after @ ..] => level == 0 && !group_ok(inside(after)),
        _ => false,
    }
}

/// Whether a group is well formed, by what stands within its braces.
fn group_ok(group: &[u8]) -> bool
    ensures { result ≡ patterns.group_ok group.now }
{
    let rest = group.split_at(before_run(group)).1;
    let run = split_letters(rest).0;
    let after = rest.split_at(run.len()).1;
    run.is_empty() || (run_ok(run) && before_run(after) == after.len())
}

/// A group around its first run of letters at level 1.
#[derive(Clone, Copy, Debug)]
pub struct FirstRun<'a> {
    /// What stands before the run.
    pub before: &'a [u8],
    /// The run, which has a letter at least.
    pub letters: &'a [u8],
    /// What follows the run.
    pub behind: &'a [u8],
}

/// A group around its first run of letters at level 1, by what stands within its braces, or `None` exactly where it has
/// no run.
pub fn first_run<'a>(group: &'a [u8]) -> Option<FirstRun<'a>>
    ensures { MatchOption result (patterns.letter_runs 1 group.now ≡ []) (λ found. IsFirstRun group.now found) }
{
    let (before, rest) = group.split_at(before_run(group));
    let letters = split_letters(rest).0;
    let behind = rest.split_at(letters.len()).1;
    if letters.is_empty() {
        return None;
    }
    Some(FirstRun {
        before,
        letters,
        behind,
    })
}

/// How many bytes stand before the first letter at level 1, where the first byte has that level.
fn before_run(bytes: &[u8]) -> usize
    ensures before { result ≡ patterns.before_run 1 bytes.now }
    ensures within { result ≤ length bytes.now }
{
    leveled_before(1, bytes, |level, b| level == 1 && b.is_ascii_alphabetic())
}

/// Whether a run of letters names a part: one letter, or two equal ones.
fn run_ok(run: &[u8]) -> bool
    ensures { result ≡ patterns.run_ok run.now }
{
    match run {
        [a] => is_part_letter(*a),
        [a, b] => is_part_letter(*a) && lower(*a) == lower(*b),
        _ => false,
    }
}

/// Whether a byte is a letter of a part.
fn is_part_letter(b: u8) -> bool
    ensures { result ≡ patterns.is_part_letter b }
{
    matches!(lower(b), b'f' | b'v' | b'l' | b'j')
}
