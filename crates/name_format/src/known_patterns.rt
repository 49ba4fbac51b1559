//! The patterns that were found well formed.

ghost use Rattle.std.specs.Prelude.{◌≡◌, [], true};
ghost use Rattle.bv_base.specs.KeySets.{has_item};
ghost use Rattle.name_split.specs.Patterns as patterns;

use name_split::pattern::pattern_ok;
use std::alloc::Global;
use std::marker::Model;

/// How many patterns are known at most: a style writes by a few patterns, and to look for one among so many costs less than to
/// look it through.
pub const MOST_PATTERNS: usize = 8;

/// The patterns that were found well formed, so that none of them is looked through again where it is asked for once more: a
/// style writes one name after the other by a few patterns. Contracts see the list of their bytes. At first there is none.
#[derive(Drop)]
pub struct KnownPatterns {
    patterns: Vec<Vec<u8>>,
    /// The place of the one that is given up next, once there are as many as may be.
    oldest: usize,
}

impl Model for KnownPatterns {
    ghost use Rattle.std.specs.Prelude.{◌≡◌, ◌<◌, ◌≤◌, ℕ, List, length, map, true};
    ghost use Rattle.std.specs.List.{All};
    ghost use Rattle.name_split.specs.Patterns.{pattern_ok};
    ghost use Rattle.name_format.specs.declared.known_patterns.TheConstants.{MOST_PATTERNS};

    ghost Value = { List (List ℕ) };

    ghost view = { λ k. map (λ bytes. bytes.items) k.patterns.items };

    ghost invariant = { λ k. All (λ bytes. pattern_ok bytes.items ≡ true) k.patterns.items × (length k.patterns.items ≤ MOST_PATTERNS) × (k.oldest < MOST_PATTERNS) };
}

impl KnownPatterns {
    /// No pattern.
    pub fn new(alloc: Global) -> KnownPatterns
        ensures { result ≡ [] }
    {
        KnownPatterns {
            patterns: Vec::new(alloc),
            oldest: 0,
        }
    }

    /// Whether a pattern is well formed. Where it is, it is known from then on, if there is memory for it.
    pub fn is_well_formed(&mut self, pattern: &[u8]) -> bool
        ensures { result ≡ patterns.pattern_ok pattern.now }
    {
        if is_among(self.patterns.as_slice(), pattern) {
            return true;
        }
        if !pattern_ok(pattern) {
            return false;
        }
        self.keep(pattern);
        true
    }

    /// Keeps one more, if there is memory for it. Where there are as many as may be, it takes the place of the oldest.
    fn keep(&mut self, pattern: &[u8])
        requires { patterns.pattern_ok pattern.now ≡ true }
    {
        if self.patterns.len() < MOST_PATTERNS {
            let mut bytes = Vec::new(*self.patterns.allocator());
            if bytes.extend_from_slice(pattern).is_ok() {
                let _ = self.patterns.push(bytes);
            }
            return;
        }
        let oldest = &mut self.patterns[self.oldest];
        oldest.clear();
        let _ = oldest.extend_from_slice(pattern);
        self.oldest = (self.oldest + 1) % MOST_PATTERNS;
    }
}

/// Whether a pattern is one of these.
fn is_among(patterns: &[Vec<u8>], pattern: &[u8]) -> bool
    ensures { result ≡ has_item (λ known. known.items) pattern.now patterns.now }
{
    patterns.iter().any(|known| pattern == known.as_slice())
}
