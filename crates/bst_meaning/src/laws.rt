//! What holds of every step of the machine.

ghost use Rattle.std.specs.Prelude.{◌≡◌, ℕ, List, Ok, IsPermutation, map};
ghost use Rattle.bv_base.specs.declared.place.Place.{Place};
ghost use Rattle.name_table.specs.declared.builtin.Builtin.{Builtin};
ghost use Rattle.name_table.specs.declared.style.Style.{Style};
ghost use Rattle.name_table.specs.Sound.{IsSound};
ghost use Rattle.bst_meaning.specs.EntryLists.{EntryList};
ghost use Rattle.bst_meaning.specs.declared.value.Value.{Value};
ghost use Rattle.bst_meaning.specs.Builtins.{Context, built_in};
ghost use Rattle.bst_meaning.specs.Config.{Config, opening};
ghost use Rattle.bst_meaning.specs.Effect.{Effect};
ghost use Rattle.bst_meaning.specs.Entries.{Fits};
ghost use Rattle.bst_meaning.specs.Invariant.{IsWellFormed};
ghost use Rattle.bst_meaning.specs.Keeping.{IsConfined, IsKept, placed};
ghost use Rattle.bst_meaning.specs.Machine.{context_of, run, step, steps, with_effect};

/// A plain built-in function enters nothing, and `:=` alone assigns, to the variable that is named on top of the stack.
/// Everything else that a configuration has stays as it was: the commands, the visit, the preamble, and the entries, their
/// order and their positions, but for the variable that is assigned.
pub fn effects_are_confined()
    ensures confined { (op : Builtin) (context : Context) (stack : List Value) (effect : Effect) → built_in op context stack ≡ Ok effect
        → IsConfined op stack effect }
    ensures kept { (style : Style) (op : Builtin) (place : Place) (c : Config)
        → IsKept op c (with_effect style (built_in op (context_of style c) c.stack) place c) }
{}

/// The configuration in which a run of a sound style over entries that fit opens is well formed, and each step keeps it so.
pub fn runs_are_well_formed()
    ensures opening { (style : Style) (list : EntryList) → IsSound style → Fits style list → IsWellFormed style list (opening style list) }
    ensures step { (style : Style) (list : EntryList) (c : Config) → IsSound style → Fits style list → IsWellFormed style list c
        → IsWellFormed style list (step style c) }
    ensures run { (style : Style) (list : EntryList) (n : ℕ) → IsSound style → Fits style list → IsWellFormed style list (run style list n) }
{}

/// Whatever the style is, steps leave the entries and their positions as they are, in some order.
pub fn steps_keep_entries()
    ensures { (style : Style) (n : ℕ) (c : Config) → IsPermutation (map placed c.entries) (map placed (steps style n c).entries) }
{}
