//! The length of a text in text characters.

ghost use Rattle.std.specs.Prelude.{◌≡◌};
ghost use Rattle.text_ops.specs.TextLength.{text_length_of};

use crate::levels::{is_brace, split_special};
use bv_base::levels::{begins_special, next_level};

/// How many text characters a text has: a special character is one, and so is each other byte that is no brace.
#[tactic(auto, using(crate::proofs::PieceSteps::special_piece, crate::proofs::PieceSteps::plain_piece, crate::proofs::PieceSteps::special_bound))]
pub fn text_length(s: &[u8]) -> u64
    ensures { result ≡ text_length_of s.now }
{
    let mut count = 0;
    let mut level = 0;
    let mut rest = s;
    while let [first, after @ ..] = rest {
        if begins_special(level, rest) {
            count += 1;
            rest = split_special(after).later;
        } else {
            if !is_brace(*first) {
                count += 1;
            }
            level = next_level(level, *first);
            rest = after;
        }
    }
    count
}
