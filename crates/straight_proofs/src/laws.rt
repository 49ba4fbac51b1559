//! What holds of the straight proofs that are found.

ghost use Rattle.std.specs.Prelude.{◌↔◌, ℤ, ◌≤ℤ◌, IsSome, IsSomeAnd};
ghost use Rattle.lin_facts.specs.declared.row.Row.{Row};
ghost use Rattle.bst_meaning.specs.declared.condition.Cond.{Cond};
ghost use Rattle.sym_state.specs.State.{State};
ghost use Rattle.straight_proofs.specs.Floors.{floor, lessened};
ghost use Rattle.straight_proofs.specs.Straight.{straight_proof};

/// The floor of a sum is the greatest number that straight proofs show it to be at least: that the sum less a number is at
/// least 0 has a straight proof exactly where the sum has a floor and the number is at most the floor.
pub fn floors_are_what_proofs_show()
    ensures { (cond : Cond) (state : State) (sum : Row) (n : ℤ)
        → IsSome (straight_proof cond state (lessened sum n)) ↔ IsSomeAnd (floor cond state sum) (λ most. n ≤ℤ most) }
{}
