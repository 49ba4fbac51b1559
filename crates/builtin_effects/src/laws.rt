//! What the effects of the built-in functions cover and keep.

ghost use Rattle.std.specs.Prelude.{◌≡◌, ℕ, List, Ok, drop};
ghost use Rattle.sym_state.specs.Subjects.{Builtin, Cond, Config, EntryList, Place, Stands, State, Style, Valuation, Value, WellMade};
ghost use Rattle.sym_state.specs.Covers.{Covers};
ghost use Rattle.sym_state.specs.Demands.{After};
ghost use Rattle.sym_state.specs.Effects.{effect_of};
ghost use Rattle.sym_state.specs.Frames.{EffectFrame};
ghost use Rattle.sym_state.specs.WellMade.{HasSmallLimits};
ghost use Rattle.sym_state.specs.declared.hint.Hint.{Hint};

/// Where a well-made state stands for a configuration and a built-in function has an effect on it, the function gives no
/// fault, and the state after the effect stands for the configuration after the function.
pub fn effects_cover()
    ensures { (style : Style) (admits : Cond) (list : EntryList) (v : Valuation) (state : State) (c : Config) (below : List Value) (place : Place)
        (op : Builtin) (hints : List Hint) (after : After) → WellMade style state → Stands style admits list v state c below
        → effect_of style admits state op hints ≡ Ok after → Covers style admits list v state c below place op after.state }
{}

/// Where a built-in function has an effect on a well-made state, the state after it is well made, whatever hints it took.
/// The condition's limits on keys and preambles become constants of rows, so they have to be within the bounds of rows.
pub fn effects_keep()
    ensures { (style : Style) (admits : Cond) (state : State) (op : Builtin) (hints : List Hint) (after : After) → HasSmallLimits admits
        → WellMade style state → effect_of style admits state op hints ≡ Ok after → WellMade style after.state }
{}

/// Where a built-in function has an effect on a well-made state, whether the whole stack is known, whether an entry is
/// visited and the fields' symbols stay, no symbol is given back and at most one is new, and facts and rows are only added
/// at the end. The
/// variables keep their symbols, but for the one that `:=` binds: a global one where the state isn't at an entry.
pub fn effects_leave_the_rest()
    ensures { (style : Style) (admits : Cond) (state : State) (op : Builtin) (hints : List Hint) (after : After) → WellMade style state
        → effect_of style admits state op hints ≡ Ok after → EffectFrame style op state after.state }
{}

/// The hints that an effect leaves are those behind the ones that it took.
pub fn effects_leave_the_last_hints()
    ensures { (style : Style) (admits : Cond) (state : State) (op : Builtin) (hints : List Hint) (after : After)
        → effect_of style admits state op hints ≡ Ok after → (taken : ℕ) × (after.hints ≡ drop taken hints) }
{}
