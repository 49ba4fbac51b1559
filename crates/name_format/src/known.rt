//! What is kept from one name that is written to the next.

use crate::known_name::KnownName;
use crate::known_patterns::KnownPatterns;
use std::alloc::Global;

/// What is kept from one name that is written to the next: the name that was taken apart last, and the patterns that were
/// found well formed.
#[derive(Drop)]
pub struct Known {
    pub(crate) name: KnownName,
    pub(crate) patterns: KnownPatterns,
}

impl Known {
    /// Nothing.
    pub fn new(alloc: Global) -> Known {
        Known {
            name: KnownName::new(alloc),
            patterns: KnownPatterns::new(alloc),
        }
    }
}
