//! What it means that a certificate is accepted, and where it isn't.

ghost use Rattle.std.specs.Prelude.{◌≡◌, ◌⊎◌, [], List, Ok, Err};
ghost use Rattle.command_flow.specs.Checks.{checked, Checks};
ghost use Rattle.command_flow.specs.Finding.{records_found};
ghost use Rattle.command_flow.specs.Places.{IsOfCommand};
ghost use Rattle.command_flow.specs.Subjects.{Cert, CommandPart, Finding, IsCertified, IsOfUnit, IsSound, Refusal, Safe, Style};

use bst_meaning::laws::runs_are_well_formed;
use cert_check::laws::{
    checked_units_are_safe, found_hints_are_read, refusals_of_units_in_the_style,
};

/// Where every rule holds of a certificate, its style is safe under its condition: over no entry list that fits the style and
/// meets the condition does a run come to an execution error, and every call that ends leaves the literal stack empty.
pub fn accepted_styles_are_safe()
    ensures { (style : Style) (cert : Cert) → IsSound style → IsCertified style cert → Checks style cert → Safe style cert.cond }
{
    checked_units_are_safe();
    runs_are_well_formed();
}

/// The first rule that fails does so at the place of a command of the style, at that of a body or of a token of one, or at 1:1.
pub fn refusals_in_the_style()
    ensures { (style : Style) (cert : Cert) (refusal : Refusal) → checked style cert ≡ Err refusal
        → IsOfCommand style refusal.place ⊎ IsOfUnit style refusal.place }
{
    refusals_of_units_in_the_style();
}

/// The records that are found for a style are those of a certificate of it that checks, where that has no summary and no loop.
pub fn found_records_are_accepted()
    ensures { (finding : Finding) (style : Style) (cert : Cert) (parts : List CommandPart) → cert.summaries ≡ [] → cert.loops ≡ []
        → records_found finding style cert ≡ Ok parts → Checks style (record cert { commands = parts }) }
{
    found_hints_are_read();
}
