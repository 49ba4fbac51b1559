//! The first text characters of a text.

ghost use Rattle.std.specs.Prelude.{◌≡◌, IfOk};
ghost use Rattle.bv_base.specs.Levels.{level_after};
ghost use Rattle.text_ops.specs.TextPrefix.{prefix_of, text_prefix_of};

use crate::levels::{is_brace, split_special};
use bv_base::levels::{begins_special, next_level};
use bv_base::memory::NoMemory;
use std::alloc::Global;

/// The shortest prefix with `count` text characters, or the whole text where it has fewer, and a `}` for each level
/// that is open behind it. It is empty where the count is not above 0.
pub fn text_prefix(alloc: Global, s: &[u8], count: i32) -> Result<Vec<u8>, NoMemory>
    ensures { IfOk result (λ v. v.items ≡ text_prefix_of s.now count) }
{
    if count <= 0 {
        return Ok(Vec::new(alloc));
    }
    let (mut text, unclosed) = prefix(alloc, s, count as u32)?;
    for _ in 0..unclosed {
        text.push(b'}')?;
    }
    Ok(text)
}

/// The prefix, and how many levels are open behind it.
#[tactic(auto, using(crate::proofs::PrefixSteps::prefix_special, crate::proofs::PieceSteps::unclosed_special_bound, crate::proofs::PrefixSteps::prefix_plain, crate::proofs::LevelSteps::level_after_append))]
fn prefix(alloc: Global, s: &[u8], count: u32) -> Result<(Vec<u8>, usize), NoMemory>
    ensures { IfOk result (λ p. (p.0.items ≡ prefix_of s.now count) × (p.1 ≡ level_after 0 p.0.items)) }
{
    let mut text = Vec::new(alloc);
    let mut left = count;
    let mut level = 0;
    let mut rest = s;
    while left > 0 {
        let [first, after @ ..] = rest else {
            break;
        };
        if begins_special(level, rest) {
            let special = split_special(after);
            text.push(b'{')?;
            text.extend_from_slice(special.body)?;
            left -= 1;
            level = special.unclosed;
            rest = special.later;
        } else {
            text.push(*first)?;
            if !is_brace(*first) {
                left -= 1;
            }
            level = next_level(level, *first);
            rest = after;
        }
    }
    Ok((text, level))
}
