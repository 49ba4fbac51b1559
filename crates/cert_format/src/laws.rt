//! What holds of every text.

ghost use Rattle.std.specs.Prelude.{◌≡◌, ◌↔◌, ℕ, List, Ok};
ghost use Rattle.bst_meaning.specs.declared.condition.Cond.{Cond as Condition};
ghost use Rattle.name_table.specs.Sound.{IsSound};
ghost use Rattle.name_table.specs.declared.style.Style.{Style};
ghost use Rattle.cert_format.specs.CertText.{CertText};
ghost use Rattle.cert_format.specs.CondText.{CondText};
ghost use Rattle.cert_format.specs.Texts.{cert_of, cond_of};
ghost use Rattle.cert_format.specs.declared.cert.Cert.{Cert as Certificate};

/// A text is read as a condition of a style that was read exactly where it is the text of that condition: so each text
/// is of one condition at most, and each condition has one text.
pub fn read_as_the_condition()
    ensures { (style : Style) (source : List ℕ) (condition : Condition) → IsSound style
        → (cond_of style source ≡ Ok condition) ↔ CondText style.names source condition }
{}

/// A text is read as a certificate of a style that was read exactly where it is the text of that certificate: so each
/// text is of one certificate at most, and each certificate has one text.
pub fn read_as_the_certificate()
    ensures { (style : Style) (source : List ℕ) (certificate : Certificate) → IsSound style
        → (cert_of style source ≡ Ok certificate) ↔ CertText style source certificate }
{}
