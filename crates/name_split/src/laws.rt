//! What holds of the names and parts of every text.

ghost use Rattle.std.specs.Prelude.{◌≡◌, ℕ, ℤ, true, List, length, Err, IfOk};
ghost use Rattle.name_split.specs.AllParts.{names_ok};
ghost use Rattle.name_split.specs.Formatted.{formatted, BadName};
ghost use Rattle.name_split.specs.Names.{names_of};
ghost use Rattle.name_split.specs.Order.{AreWithin, InOrder};
ghost use Rattle.name_split.specs.Parts.{parts_of};

/// The names of a text stand in it, in order and apart.
pub fn names_in_order(text: &[u8])
    ensures { InOrder 0 (names_of text.now) (length text.now) }
{}

/// The parts of a name that has parts stand in it.
pub fn parts_within(name: &[u8])
    ensures { IfOk (parts_of name.now) (AreWithin (length name.now)) }
{}

/// A name of a text whose names all have parts is never refused for its parts.
pub fn good_names_are_written()
    ensures { (text pattern : List ℕ) → (index : ℤ) → names_ok text ≡ true → formatted text index pattern ≡ Err BadName → ⊥ }
{}
