//! What holds of every text that the definitions of this crate give.

ghost use Rattle.std.specs.Prelude.{◌≡◌, ℕ, ◌*◌, ◌≤◌, List, [], length, map, filter, flat_map, ℤ, pos, negsuc, IsTrue};
ghost use Rattle.std.specs.List.{list_all};
ghost use Rattle.bv_base.specs.Bytes.{lower};
ghost use Rattle.bv_base.specs.Levels.{level_after, pieces, spelling};
ghost use Rattle.text_ops.specs.AddPeriod.{with_period};
ghost use Rattle.text_ops.specs.ChangeCase.{case_changed};
ghost use Rattle.text_ops.specs.Laws.{IsPartOf, is_fixed, is_pure};
ghost use Rattle.text_ops.specs.Purify.{purified};
ghost use Rattle.text_ops.specs.Substring.{substring_of};
ghost use Rattle.text_ops.specs.TextLength.{text_length_of};
ghost use Rattle.text_ops.specs.TextPrefix.{text_prefix_of};
ghost use Rattle.text_ops.specs.Width.{width_of};
ghost use Rattle.text_ops.specs.declared.change_case.Case.{Case};
ghost use Rattle.text_ops.specs.declared.change_case.Case.TheVariants.{Title, Lower};
ghost use Rattle.text_ops.specs.declared.width.TheConstants.{WIDEST_BYTE};

/// A second full stop is never put.
pub fn one_period_is_enough()
    ensures { (text : List ℕ) → with_period (with_period text) ≡ with_period text }
{}

/// `substring$` gives bytes of the text that stand together, and no more than were asked for.
#[tactic(auto, using(crate::proofs::LawsOfSubstring::is_none))]
pub fn a_substring_is_a_part()
    ensures part { (text : List ℕ) → (start count : ℤ) → IsPartOf text (substring_of text start count) }
    ensures short { (text : List ℕ) → (start : ℤ) → (count : ℕ) → length (substring_of text start (pos count)) ≤ count }
    ensures none { (text : List ℕ) → (start : ℤ) → (count : ℕ) → substring_of text start (negsuc count) ≡ [] }
{}

/// The pieces of a text spell it.
pub fn pieces_spell_the_text()
    ensures { (text : List ℕ) → flat_map spelling (pieces text) ≡ text }
{}

/// `text.prefix$` ends all levels that it begins, and has no more text characters than were asked for.
pub fn a_prefix_is_closed()
    ensures closed { (text : List ℕ) → (count : ℤ) → level_after 0 (text_prefix_of text count) ≡ 0 }
    ensures few { (text : List ℕ) → (count : ℕ) → text_length_of (text_prefix_of text (pos count)) ≤ count }
{}

/// `purify$` gives letters, digits and spaces alone, and no more bytes than the text has.
pub fn a_purified_text_is_pure()
    ensures pure { (text : List ℕ) → IsTrue (list_all is_pure (purified text)) }
    ensures short { (text : List ℕ) → length (purified text) ≤ length text }
{}

/// No text is wider than [`WIDEST_BYTE`] for each of its bytes.
pub fn a_width_is_bounded()
    ensures { (text : List ℕ) → width_of text ≤ WIDEST_BYTE * length text }
{}

/// In another case a text has the same bytes in the same order, ASCII letters, `\` and white space aside. Where the
/// letters become small ones, the case of letters is all that changes.
pub fn another_case_keeps_the_rest()
    ensures rest { (mode : Case) → (text : List ℕ) → filter is_fixed (case_changed mode text) ≡ filter is_fixed text }
    ensures lower { (text : List ℕ) → map lower (case_changed Lower text) ≡ map lower text }
    ensures title { (text : List ℕ) → map lower (case_changed Title text) ≡ map lower text }
{}

/// Small letters stay small.
pub fn small_letters_stay()
    ensures { (text : List ℕ) → case_changed Lower (case_changed Lower text) ≡ case_changed Lower text }
{}
