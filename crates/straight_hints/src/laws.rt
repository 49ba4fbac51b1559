//! What holds of the hints that are found.

ghost use Rattle.std.specs.List.{All};
ghost use Rattle.bst_meaning.specs.declared.condition.Cond.{Cond};
ghost use Rattle.name_table.specs.declared.builtin.Builtin.{Builtin};
ghost use Rattle.name_table.specs.declared.style.Style.{Style};
ghost use Rattle.straight_hints.specs.Found.{above_hints, piece_hints, plain_hints, test_hints};
ghost use Rattle.straight_hints.specs.declared.finding.Finding.{Finding};
ghost use Rattle.sym_state.specs.Demands.{HasFewUses};
ghost use Rattle.sym_state.specs.State.{State};
ghost use Rattle.sym_state.specs.declared.piece.Piece.{Piece};
ghost use Rattle.sym_state.specs.declared.symbol.Sym.{Sym};
ghost use Rattle.sym_state.specs.declared.test.Test.{Test};

/// The hints that are found have short proofs, whatever the state: a checker takes them.
pub fn found_hints_are_short()
    ensures plain { (finding : Finding) (style : Style) (admits : Cond) (state : State) (op : Builtin)
        → All HasFewUses (plain_hints finding style admits state op) }
    ensures test { (finding : Finding) (admits : Cond) (state : State) (test : Test) → All HasFewUses (test_hints finding admits state test) }
    ensures piece { (finding : Finding) (admits : Cond) (state : State) (piece : Piece) → All HasFewUses (piece_hints finding admits state piece) }
    ensures above { (finding : Finding) (admits : Cond) (state : State) (s : Sym) → All HasFewUses (above_hints finding admits state s) }
{}
