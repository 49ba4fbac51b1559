//! What the loops that are found are.

ghost use Rattle.name_table.specs.Sound.{IsSound};
ghost use Rattle.name_table.specs.declared.style.Style.{Style};
ghost use Rattle.cert_format.specs.declared.cert.Cert.{Cert};
ghost use Rattle.cert_check.specs.Certified.{IsCertified, MakesLoops, MakesStanding};
ghost use Rattle.infer_loops.specs.Invariants.{invariant_of};

/// The invariants that are found for a style are loops of it, so that a walk may make its loops so. Each may stand in a certificate, where
/// its functions may be named and its hints may stand there.
pub fn invariants_are_loops()
    ensures loops { (style : Style) (cert : Cert) → IsSound style → IsCertified style cert → MakesLoops style (invariant_of style cert) }
    ensures stand { (style : Style) (cert : Cert) → IsSound style → IsCertified style cert → MakesStanding style (invariant_of style cert) }
{}
