//! Laws of loops' sums and of the hints of their ends (docs/ANALYSER.md, "Loops").

ghost use Rattle.std.specs.Prelude.{ℕ, Bool, List};
ghost use Rattle.std.specs.List.{All};
ghost use Rattle.bst_meaning.specs.declared.condition.Cond.{Cond};
ghost use Rattle.name_table.specs.declared.style.Style.{Style};
ghost use Rattle.sym_state.specs.Demands.{HasFewUses};
ghost use Rattle.sym_state.specs.State.{State};
ghost use Rattle.sym_state.specs.declared.piece.Piece.{Piece};
ghost use Rattle.loop_templates.specs.Candidates.{entailing, entailing_one};
ghost use Rattle.loop_templates.specs.Bound.{all_bound};
ghost use Rattle.loop_templates.specs.Cases.{IsSumOver};
ghost use Rattle.loop_templates.specs.Reaching.{Occurring, command_terms, terms_over};
ghost use Rattle.loop_templates.specs.Sums.{sums};
ghost use Rattle.loop_templates.specs.declared.candidates.Added.{Added};
ghost use Rattle.loop_templates.specs.declared.cases.Bound.{Bound};

/// The sums over the terms of a loop, and of what commands leave, are over names that are bound.
pub fn sums_have_values()
    ensures loops { (style : Style) (found : Occurring) (at_entry has_pos : Bool)
        → All (IsSumOver style (all_bound at_entry) has_pos) (sums (terms_over style found at_entry)) }
    ensures commands { (style : Style) (found : Occurring) (bound : Bound) (has_pos : Bool)
        → All (IsSumOver style bound has_pos) (sums (command_terms style found bound has_pos)) }
{}

/// The hints by which a state entails a case take few references.
pub fn entailing_hints_are_short()
    ensures one { (admits : Cond) (state : State) (number : ℕ) (case : Piece) → All HasFewUses (entailing admits state number case) }
    ensures among { (admits : Cond) (state : State) (number : ℕ) (added : List Added) → All HasFewUses (entailing_one admits state number added) }
{}
