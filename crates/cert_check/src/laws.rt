//! What every certificate that was read has, and what one whose units are all checked says of the machine.

ghost use Rattle.cert_check.specs.Laws as laws;

use bst_meaning::laws::{effects_are_confined, runs_are_well_formed};
use cert_format::laws::read_as_the_certificate;
use name_table::laws::one_body_a_number;

/// A certificate that was read for a style is one of it: its pieces say where their symbols are and fit the style, and its lists and
/// proofs are short.
pub fn certificates_are_certified()
    ensures { laws.ReadIsCertified }
{
    read_as_the_certificate();
}

/// Where every summary and every loop of a certificate is checked and one is used, or a call is walked, the machine is fine for any
/// number of steps after it enters what the summary is of, the loop's test, or the call's target, from a configuration for which the
/// first state, or one of the first, stands, where it is fine for as many from each configuration for which one of the states that
/// were given stands.
pub fn checked_units_are_safe()
    ensures uses { laws.UsesAreSafe }
    ensures loops { laws.LoopsAreSafe }
    ensures calls { laws.CallsAreSafe }
{
    effects_are_confined();
    runs_are_well_formed();
    one_body_a_number();
}

/// A rule of a summary or of a loop fails at the place of a body of the style, at that of a token of one, or at 1:1, and a rule of a
/// call at the place of the call or at one of a body.
pub fn refusals_of_units_in_the_style()
    ensures summaries { laws.SummariesFail }
    ensures loops { laws.LoopsFail }
    ensures calls { laws.CallsFail }
{}

/// A call whose hints are found reads them: with these before others the checker's rules come to the same states, and leave the
/// others, also where the certificate has other records of commands.
pub fn found_hints_are_read()
    ensures { laws.FoundIsRead }
{}
