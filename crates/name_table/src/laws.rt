//! What holds of every sound style, and of bytes.

ghost use Rattle.std.specs.Prelude.{◌≡◌, ℕ, Some};
ghost use Rattle.name_table.specs.Numbers.{IsByteList};
ghost use Rattle.name_table.specs.Sound.{IsSound, block_of};
ghost use Rattle.name_table.specs.declared.style.BodyId.{BodyId};
ghost use Rattle.name_table.specs.declared.style.Style.{Style};

/// The number of a block is that of one body.
pub fn one_body_a_number()
    ensures { (style : Style) (a b : BodyId) (number : ℕ) → IsSound style → block_of a style.bodies ≡ Some (Some number)
        → block_of b style.bodies ≡ Some (Some number) → a.0 ≡ b.0 }
{}

/// Each byte is below 256.
pub fn are_bytes(bytes: &[u8])
    ensures { IsByteList bytes.now }
{}
