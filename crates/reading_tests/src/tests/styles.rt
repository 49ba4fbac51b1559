//! Texts that are styles, and texts that are none, worked out by hand.

mod everything;
mod faults;
mod limits;
