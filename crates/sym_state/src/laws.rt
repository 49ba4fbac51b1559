//! What the definitions of states give, in the machine's words.

ghost use Rattle.std.specs.Prelude.{◌≡◌, ◌↔◌, ℕ, ◌+◌, ◌≤◌, ◌^◌, ◌∷◌, ◌++◌, Bool, true, List, None, Some, Ok, Err};
ghost use Rattle.std.specs.List.{All, AllByRecursion};
ghost use Rattle.std.specs.Option.{option_map_or};
ghost use Rattle.sym_state.specs.Subjects.{Cond, Config, EntryList, Hint, Place, Stands, State, Style, Valuation, Value, WellMade};
ghost use Rattle.bst_meaning.specs.Builtins.{Context, built_in};
ghost use Rattle.bst_meaning.specs.Config.{Frame};
ghost use Rattle.bst_meaning.specs.Effect.{pushed};
ghost use Rattle.bst_meaning.specs.Machine.{call_step, visited_entry, with_found};
ghost use Rattle.bst_meaning.specs.Operands.{truth};
ghost use Rattle.bst_meaning.specs.declared.fault.Fault.TheVariants.{WrongKind};
ghost use Rattle.lin_facts.specs.Rows.{Holds};
ghost use Rattle.lin_facts.specs.declared.row.Row.{Row};
ghost use Rattle.name_table.specs.declared.builtin.Builtin.TheVariants.{Empty};
ghost use Rattle.name_table.specs.declared.names.Kind.{Kind};
ghost use Rattle.name_table.specs.declared.names.NameId.{NameId};
ghost use Rattle.name_table.specs.declared.style.Token.{Token};
ghost use Rattle.name_table.specs.Sound.{IsSound, IsTokenSound};
ghost use Rattle.sym_state.specs.Covers.{CoversPush};
ghost use Rattle.sym_state.specs.Decided.{known_kind};
ghost use Rattle.sym_state.specs.Facts.{FactHolds, emptiness, has_kind};
ghost use Rattle.sym_state.specs.Entailing.{first_unentailed, match_of, under};
ghost use Rattle.sym_state.specs.Frames.{LeavesVariables};
ghost use Rattle.sym_state.specs.Opening.{CanStart, StandsOpen};
ghost use Rattle.sym_state.specs.Positions.{Position, moved_to, position_sizes, row_moved};
ghost use Rattle.sym_state.specs.Pushes.{pushed_by};
ghost use Rattle.sym_state.specs.References.{shows};
ghost use Rattle.sym_state.specs.Renaming.{through};
ghost use Rattle.sym_state.specs.Showing.{piece_by};
ghost use Rattle.sym_state.specs.Stands.{PieceHolds, Satisfies, value_by, values_of};
ghost use Rattle.sym_state.specs.Starting.{IsFit, IsNumbered, all_symbols, started};
ghost use Rattle.sym_state.specs.Symbols.{numbers};
ghost use Rattle.sym_state.specs.WellMade.{HasSmallFields, IsBounded, size, takes_part};
ghost use Rattle.sym_state.specs.declared.piece.Piece.{Piece};
ghost use Rattle.sym_state.specs.declared.proof.Proof.{Proof};
ghost use Rattle.sym_state.specs.declared.symbol.Fact.{Fact};

/// What a fact calls blank and nonblank is what `empty$` says, which faults at a value of another kind.
pub fn blank_as_the_machine_has_it()
    ensures { (context : Context) (value : Value) (stack : List Value) →
        built_in Empty context (value ∷ stack) ≡ option_map_or (λ empty. pushed (truth empty) stack) (emptiness value) (Err WrongKind) }
{}

/// The value that a state binds to a variable or field is the one that the machine pushes where its name is called.
pub fn values_as_the_machine_reads_them()
    ensures { (style : Style) (kind : Kind) (name : NameId) (place : Place) (c : Config) → takes_part true kind ≡ true →
        call_step style (Some kind) name place c ≡ with_found (value_by (Some kind) name c.globals (visited_entry c)) place c }
{}

/// Where the facts hold, each symbol's value is of the kind that they decide.
pub fn known_kinds_hold()
    ensures { (style : Style) (v : Valuation) (facts : List Fact) (s : ℕ) → AllByRecursion (FactHolds style v) facts →
        has_kind (known_kind facts s) (v.value s) ≡ true }
{}

/// A state that starts from pieces is well made, where what the facts of the pieces say can be said of values and the
/// pieces and the condition's limits on fields are within the bounds of rows.
pub fn started_states_are_well_made()
    ensures { (style : Style) (admits : Cond) (pieces : List Piece) (whole at_entry : Bool) → HasSmallFields admits
        → All IsNumbered pieces → All (IsFit style) pieces → WellMade style (started style admits pieces whole at_entry) }
{}

/// It stands for each configuration of which the pieces hold, where each variable and field has a value of its kind.
pub fn started_states_stand()
    ensures { (style : Style) (admits : Cond) (list : EntryList) (v : Valuation) (pieces : List Piece) (whole at_entry : Bool) (c : Config)
        (below : List Value) → All IsNumbered pieces → CanStart style admits list v pieces whole at_entry c below
        → StandsOpen style admits list v (all_symbols pieces) (started style admits pieces whole at_entry) c below }
{}

/// A row that is shown holds by every assignment that satisfies the state.
pub fn shown_rows_hold()
    ensures { (style : Style) (admits : Cond) (v : Valuation) (state : State) (proof : Proof) (row : Row)
        → Satisfies style admits v state → shows admits state proof row ≡ true → Holds (numbers v) row }
{}

/// A piece that is entailed holds wherever the state stands, by the assignment through the match.
pub fn entailed_pieces_hold()
    ensures { (style : Style) (admits : Cond) (list : EntryList) (v : Valuation) (state : State) (c : Config) (below : List Value)
        (piece : Piece) (kept : ℕ) (proofs : List Proof) → first_unentailed state admits piece kept proofs ≡ None
        → Stands style admits list v state c below
        → PieceHolds style (through (match_of state piece kept) v) piece c (values_of v (under state piece) ++ below) }
{}

/// A piece that is shown by hints holds wherever the state stands, by the assignment through the match.
pub fn shown_pieces_hold()
    ensures { (style : Style) (admits : Cond) (list : EntryList) (v : Valuation) (state : State) (c : Config) (below : List Value)
        (piece : Piece) (kept : ℕ) (hints left : List Hint) → piece_by admits state piece kept hints ≡ Ok left
        → Stands style admits list v state c below
        → PieceHolds style (through (match_of state piece kept) v) piece c (values_of v (under state piece) ++ below) }
{}

/// A row that is moved to another position holds by an assignment exactly where the row holds by the assignment with that
/// position in place of its own. It is within the bounds of rows where the row is, and where its constant and the
/// coefficients of `pos`, which `pos` + 1 adds to it, are together: 2^41 at most in a certificate, which has `pos` once.
pub fn rows_move()
    ensures holds { (p : Position) (v : Valuation) (row : Row) → Holds (numbers v) (row_moved p row) ↔ Holds (numbers (moved_to p v)) row }
    ensures bounds { (p : Position) (row : Row) → IsBounded row → size row.constant + position_sizes row.parts ≤ 2 ^ 45
        → IsBounded (row_moved p row) }
{}

/// Where a well-made state stands for a configuration and a token pushes on it, the machine pushes one value, and the state
/// after the token stands for the configuration after it.
pub fn pushes_cover()
    ensures { (style : Style) (admits : Cond) (list : EntryList) (v : Valuation) (state : State) (c : Config) (below : List Value) (place : Place)
        (token : Token) (after : State) → IsSound style → IsTokenSound style.names style.bodies style.texts token → WellMade style state
        → Stands style admits list v state c below → pushed_by style token state ≡ Some after
        → CoversPush style admits list v state c below place token after }
{}

/// After such a token a well-made state is well made, and it keeps what every state keeps: the symbols of variables and
/// fields, whether the whole stack is known and whether an entry is visited; facts are only added at the end.
pub fn pushes_keep()
    ensures made { (style : Style) (state : State) (token : Token) (after : State) → IsSound style
        → IsTokenSound style.names style.bodies style.texts token → WellMade style state → pushed_by style token state ≡ Some after
        → WellMade style after }
    ensures leaves { (style : Style) (state : State) (token : Token) (after : State) → pushed_by style token state ≡ Some after
        → LeavesVariables state after }
{}

/// What a state stands for doesn't depend on the frames of a configuration, so it stands when the machine takes a token.
pub fn frames_are_free()
    ensures { (style : Style) (admits : Cond) (list : EntryList) (v : Valuation) (state : State) (c : Config) (below : List Value)
        (frames : List Frame) → Stands style admits list v state c below → Stands style admits list v state (record c { frames = frames }) below }
{}
