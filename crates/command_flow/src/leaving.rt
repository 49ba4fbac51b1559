//! What commands leave (docs/ANALYSER.md, "Commands").

use loop_templates::Bound;

/// Which pieces those are: whether an entry is visited where they stand, whether they may have `pos`, and the names that they bind.
#[derive(Clone, Copy)]
pub struct Leaving {
    pub at_entry: bool,
    pub has_pos: bool,
    pub bound: Bound,
}

/// What an EXECUTE leaves of the global variables.
pub const AFTER_EXECUTE: Leaving = Leaving {
    at_entry: false,
    has_pos: false,
    bound: Bound {
        globals: true,
        entry: false,
    },
};

/// What visits leave of them, one for the next.
pub const BEFORE_VISITS: Leaving = Leaving {
    at_entry: true,
    has_pos: true,
    bound: Bound {
        globals: true,
        entry: false,
    },
};

/// What a visit leaves of its entry.
pub const AFTER_VISIT: Leaving = Leaving {
    at_entry: true,
    has_pos: false,
    bound: Bound {
        globals: false,
        entry: true,
    },
};
