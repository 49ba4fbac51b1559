//! The certificate that is found for a style (docs/ANALYSER.md).

ghost use Rattle.std.specs.Prelude.{◌≡◌, ◌≢◌, Result as ResultOf, Some, Ok, Err, IfOk, MatchResult, length};
ghost use Rattle.name_table.specs.Sound.{IsSound};
ghost use Rattle.cert_format.specs.CertText.{IsCert};
ghost use Rattle.cert_format.specs.CondText.{IsCond};
ghost use Rattle.cert_format.specs.declared.cert.Cert.{Cert as CertOf};
ghost use Rattle.straight_hints.specs.declared.finding.Finding.TheVariants.{Straight};
ghost use Rattle.cert_check.specs.Certified.{IsCertified};
ghost use Rattle.cert_check.specs.declared.refusal.Reason.TheVariants.{NoMemory as RuleMemory};
ghost use Rattle.command_flow.specs.Finding.{records_found};
ghost use Rattle.command_flow.specs.Ready.{Decides};
ghost use Rattle.command_flow.specs.Templates.{AreMadeBefore, CanLast, made_in};
ghost use Rattle.infer_loops.specs.Invariants.{invariant_of};
ghost use Rattle.infer.specs.Infer as rule;
ghost use Rattle.infer.specs.declared.unknown.Unknown.{Unknown as UnknownOf};
ghost use Rattle.infer.specs.declared.unknown.UnknownReason.TheVariants.{NoMemory as WantOfMemory};

use crate::fragment::{has_while, is_of_fragment};
use crate::unknown::{Unknown, UnknownReason};
use bst_meaning::condition::Cond;
use bv_base::place::Place;
use bv_base::seq::Seq;
use cert_check::refusal::{Reason, Refusal};
use cert_check::{Checker, held};
use cert_format::cert::{Cert, CommandPart};
use command_flow::{Made, find, make};
use infer_loops::Invariants;
use name_table::style::Style;
use std::alloc::Global;
use straight_hints::Finding;

/// The certificate that is found for a style under a condition, which is kept unchanged, or where and why none is.
pub fn infer(alloc: Global, style: &Style, cond: Cond) -> Result<Cert, Unknown>
    requires sound { IsSound style.now }
    requires cond { IsCond style.now.names cond }
    ensures infers { MatchResult result (λ cert. rule.infer_of style.now cond ≡ Ok cert)
        (λ unknown. unknown.reason ≢ WantOfMemory → rule.infer_of style.now cond ≡ Err unknown) }
    ensures kept { IfOk result (λ cert. cert.cond ≡ cond) }
    ensures written { IfOk result (IsCert style.now) }
    ensures certified { IfOk result (IsCertified style.now) }
{
    let cert = bare(alloc, cond);
    if is_of_fragment(style) {
        with_hints(alloc, style, Finding::Bare, cert)
    } else if has_while(style) {
        with_templates(alloc, style, cert)
    } else {
        straight_or_templates(alloc, style, cert)
    }
}

/// The certificate of straight hints alone, or where there is none that whose loops and pieces are found.
fn straight_or_templates(alloc: Global, style: &Style, cert: Cert) -> Result<Cert, Unknown>
    requires sound { IsSound style.now }
    requires cond { IsCond style.now.names cert.cond }
    requires bare { cert ≡ rule.bare cert.cond }
    ensures infers { rule.Infers (rule.straight_or_templates style.now cert.cond (records_found Straight style.now cert)) result }
    ensures keeps { IfOk result (rule.Keeps style.now cert.cond) }
{
    match find(alloc, Finding::Straight, style, &cert) {
        Ok(parts) => Ok(with_parts(cert, parts)),
        Err(refusal) => behind_straight(alloc, style, cert, refusal),
    }
}

/// Where a straight walk fails: the certificate whose loops and pieces are found, but for want of memory.
fn behind_straight(
    alloc: Global,
    style: &Style,
    cert: Cert,
    refusal: Refusal,
) -> Result<Cert, Unknown>
    requires sound { IsSound style.now }
    requires cond { IsCond style.now.names cert.cond }
    requires bare { cert ≡ rule.bare cert.cond }
    ensures infers { (wanted : ResultOf CertOf UnknownOf) → (refusal.reason ≢ RuleMemory → wanted ≡ rule.templates_of style.now cert.cond)
        → rule.Infers wanted result }
    ensures keeps { IfOk result (rule.Keeps style.now cert.cond) }
{
    match refusal.reason {
        Reason::NoMemory => Err(unknown(refusal)),
        _ => with_templates(alloc, style, cert),
    }
}

/// The certificate whose hints alone are found.
fn with_hints(alloc: Global, style: &Style, finding: Finding, cert: Cert) -> Result<Cert, Unknown>
    requires sound { IsSound style.now }
    requires cond { IsCond style.now.names cert.cond }
    requires bare { cert ≡ rule.bare cert.cond }
    ensures infers { rule.Infers (rule.certified cert.cond (records_found finding style.now cert)) result }
    ensures keeps { IfOk result (rule.Keeps style.now cert.cond) }
{
    match find(alloc, finding, style, &cert) {
        Ok(parts) => Ok(with_parts(cert, parts)),
        Err(refusal) => Err(unknown(refusal)),
    }
}

/// A certificate with these records.
fn with_parts(cert: Cert, parts: Vec<CommandPart>) -> Cert
    ensures { result ≡ record cert { commands = parts.items } }
{
    let mut cert = cert;
    cert.commands = Seq::from_vec(parts);
    cert
}

/// The certificate whose loops and pieces are found.
fn with_templates(alloc: Global, style: &Style, cert: Cert) -> Result<Cert, Unknown>
    requires sound { IsSound style.now }
    requires cond { IsCond style.now.names cert.cond }
    requires bare { cert ≡ rule.bare cert.cond }
    ensures infers { rule.Infers (rule.templates_of style.now cert.cond) result }
    ensures keeps { IfOk result (rule.Keeps style.now cert.cond) }
{
    match made(alloc, style, &cert) {
        Ok(made) => Ok(with_made(cert, made)),
        Err(refusal) => Err(unknown(refusal)),
    }
}

/// A certificate with what was made for commands.
fn with_made(cert: Cert, made: Made) -> Cert
    ensures { result ≡ record cert { loops = made.lasting.loops; commands = made.parts } }
{
    let Made { lasting, parts } = made;
    let mut cert = cert;
    cert.loops = lasting.loops;
    cert.commands = parts;
    cert
}

/// What is made for the commands of a style whose loops are their invariants.
fn made(alloc: Global, style: &Style, bare: &Cert) -> Result<Made, Refusal>
    requires sound { IsSound style.now }
    requires certified { IsCertified style.now bare.now }
    ensures makes { Decides (made_in (record { style = style.now; cert = bare.now; make = Some (invariant_of style.now bare.now) })) result }
    ensures records { IfOk result (λ made. AreMadeBefore style.now (length style.now.commands) made.parts) }
    ensures lasts { IfOk result (λ made. CanLast style.now made.lasting) }
{
    let checker = held(Place::START, Checker::new(alloc, style, bare))?;
    let maker = Invariants::new(alloc, &checker);
    make(&checker, alloc, style, &maker)
}

/// The certificate of a condition that has nothing else.
fn bare(alloc: Global, cond: Cond) -> Cert
    ensures { result ≡ rule.bare cond }
{
    Cert {
        list: 1,
        cond,
        summaries: Seq::new(alloc),
        loops: Seq::new(alloc),
        commands: Seq::new(alloc),
    }
}

/// Where and why no certificate is found, by the rule that fails.
fn unknown(refusal: Refusal) -> Unknown
    ensures { result ≡ record { place = refusal.place; reason = rule.unknown_reason refusal.reason } }
{
    Unknown {
        place: refusal.place,
        reason: unknown_reason(refusal.reason),
    }
}

/// Why a walk that finds its hints ends early: a hint that can't be found is that of a `while$`.
fn unknown_reason(reason: Reason) -> UnknownReason
    ensures { result ≡ rule.unknown_reason reason }
{
    match reason {
        Reason::Demand(demand) => UnknownReason::Demand(demand),
        Reason::HintsShort | Reason::NoInvariant => UnknownReason::Loop,
        Reason::TooManyCases => UnknownReason::TooManyCases,
        Reason::WalkTooLong => UnknownReason::WalkTooLong,
        Reason::WalkTooDeep => UnknownReason::WalkTooDeep,
        Reason::UnknownFunction => UnknownReason::UnknownFunction,
        Reason::NoMemory => UnknownReason::NoMemory,
        _ => UnknownReason::Rejected,
    }
}
