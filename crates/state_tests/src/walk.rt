//! One walk from pieces to a piece that is entailed, by the laws that the crates on states give and nothing else.

ghost use Rattle.std.specs.Prelude.{◌≡◌, Bool, List};
ghost use Rattle.std.specs.List.{All};
ghost use Rattle.sym_state.specs.Subjects.{Cond, Config, EntryList, Style, Valuation, Value};
ghost use Rattle.name_table.specs.Sound.{IsSound};
ghost use Rattle.bst_meaning.specs.Machine.{steps};
ghost use Rattle.sym_state.specs.Opening.{CanStart};
ghost use Rattle.sym_state.specs.Starting.{IsFit, IsNumbered, all_symbols, started};
ghost use Rattle.sym_state.specs.WellMade.{HasSmallFields, HasSmallLimits};
ghost use Rattle.sym_state.specs.declared.piece.Piece.{Piece};
ghost use Rattle.state_tests.specs.Walks.{IsReached, IsToExecute, IsWalked, Walk, tokens_of};

use bst_meaning::laws::effects_are_confined;
use builtin_effects::{effects_cover, effects_keep, effects_leave_the_rest};
use refinements::{cases_are_well_made, cases_leave_the_rest, one_case_covers};
use sym_state::{
    entailed_pieces_hold, frames_are_free, pushes_cover, pushes_keep, shown_rows_hold,
    started_states_are_well_made, started_states_stand,
};

/// Where pieces hold of a configuration and the state that starts from them is walked over a literal, a variable or a field, a
/// built-in function and a test to cases that each entail a piece, the machine executes these tokens with no fault, and then
/// the piece holds.
pub fn walks_end_in_what_they_entail()
    ensures { (style : Style) (admits : Cond) (list : EntryList) (v : Valuation) (pieces : List Piece) (whole at_entry : Bool) (c : Config)
        (below : List Value) (walk : Walk) → IsSound style → HasSmallFields admits → HasSmallLimits admits
        → All IsNumbered pieces → All (IsFit style) pieces → CanStart style admits list v pieces whole at_entry c below
        → IsWalked style admits (started style admits pieces whole at_entry) walk → IsToExecute (tokens_of walk) c
        → IsReached style admits v (all_symbols pieces) walk (steps style 4 c) below }
{
    started_states_are_well_made();
    started_states_stand();
    frames_are_free();
    pushes_cover();
    pushes_keep();
    effects_are_confined();
    effects_cover();
    effects_keep();
    effects_leave_the_rest();
    one_case_covers();
    cases_are_well_made();
    cases_leave_the_rest();
    shown_rows_hold();
    entailed_pieces_hold();
}
