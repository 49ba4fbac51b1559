//! What the cases of a test cover.

ghost use Rattle.std.specs.Prelude.{◌≡◌, ◌<◌, ◌≤◌, ℤ, List, Some, Ok, drop, length};
ghost use Rattle.std.specs.List.{All};
ghost use Rattle.sym_state.specs.Subjects.{Builtin, Cond, Config, EntryList, Place, Stands, State, Style, Valuation, Value, WellMade};
ghost use Rattle.bst_meaning.specs.declared.value.Value.TheVariants.{Int};
ghost use Rattle.bst_meaning.specs.Operands.{is_positive};
ghost use Rattle.sym_state.specs.declared.hint.Hint.{Hint};
ghost use Rattle.sym_state.specs.declared.symbol.Sym.{Sym};
ghost use Rattle.sym_state.specs.declared.test.Test.{Test};
ghost use Rattle.sym_state.specs.declared.test.Test.TheVariants.{Above};
ghost use Rattle.sym_state.specs.Cases.{Cases, IsTestOf, Labelled, above_of, needs_of, split_of};
ghost use Rattle.sym_state.specs.Frames.{LeavesVariables};
ghost use Rattle.refinements.specs.Covered.{OneCovers, OneLabelledStands, OneStands, function_of};

/// Where a well-made state stands for a configuration and the test of a built-in function has cases, the function gives
/// no fault, and one of the cases stands for the configuration after it, whatever was dropped.
pub fn one_case_covers()
    ensures { (style : Style) (admits : Cond) (list : EntryList) (v : Valuation) (state : State) (c : Config) (below : List Value) (place : Place)
        (test : Test) (op : Builtin) (hints : List Hint) (cases : Cases) → WellMade style state → Stands style admits list v state c below
        → function_of test ≡ Some op → split_of admits state test hints ≡ Ok cases
        → OneCovers style admits list v state c below place op cases.states }
{}

/// Where the value of a symbol is an integer and there are cases of whether it is above 0, the one that it is of is among
/// them and stands for the same configuration by the same assignment, whatever was dropped.
pub fn one_case_stands()
    ensures { (style : Style) (admits : Cond) (list : EntryList) (v : Valuation) (state : State) (c : Config) (below : List Value)
        (s : Sym) (n : ℤ) (hints : List Hint) (cases : Cases) → Stands style admits list v state c below
        → v.value s.0 ≡ Int n → split_of admits state (Above s) hints ≡ Ok cases
        → OneStands style admits list v state c below s (is_positive n) cases.states }
{}

/// The same of the cases with their labels: the case with the label of the integer's sign is among them and stands.
pub fn one_labelled_case_stands()
    ensures { (style : Style) (admits : Cond) (list : EntryList) (v : Valuation) (state : State) (c : Config) (below : List Value)
        (s : Sym) (n : ℤ) (hints : List Hint) (all : Labelled) → Stands style admits list v state c below
        → v.value s.0 ≡ Int n → above_of admits state s hints ≡ Ok all
        → OneLabelledStands style admits list v state c below s (is_positive n) all.cases }
{}

/// A test that has cases takes as many hints as `needs` tells, and leaves the others.
pub fn tests_take_what_they_need()
    ensures there { (admits : Cond) (state : State) (test : Test) (hints : List Hint) (cases : Cases)
        → split_of admits state test hints ≡ Ok cases → needs_of state test ≤ length hints }
    ensures left { (admits : Cond) (state : State) (test : Test) (hints : List Hint) (cases : Cases)
        → split_of admits state test hints ≡ Ok cases → cases.hints ≡ drop (needs_of state test) hints }
{}

/// The cases of a test on a well-made state are well made, whatever hints they took, and so are those with labels.
pub fn cases_are_well_made()
    ensures split { (style : Style) (admits : Cond) (state : State) (test : Test) (hints : List Hint) (cases : Cases) → WellMade style state
        → IsTestOf state test → split_of admits state test hints ≡ Ok cases → All (WellMade style) cases.states }
    ensures labelled { (style : Style) (admits : Cond) (state : State) (s : Sym) (hints : List Hint) (all : Labelled) → WellMade style state
        → s.0 < state.next → above_of admits state s hints ≡ Ok all → All (λ one. WellMade style one.1) all.cases }
{}

/// The cases of a test keep the symbols of variables and fields, whether the whole stack is known and whether an entry is
/// visited; no symbol is given back and at most one is new, and facts and rows are only added at the end.
pub fn cases_leave_the_rest()
    ensures split { (admits : Cond) (state : State) (test : Test) (hints : List Hint) (cases : Cases)
        → split_of admits state test hints ≡ Ok cases → All (LeavesVariables state) cases.states }
    ensures labelled { (admits : Cond) (state : State) (s : Sym) (hints : List Hint) (all : Labelled)
        → above_of admits state s hints ≡ Ok all → All (λ one. LeavesVariables state one.1) all.cases }
{}
