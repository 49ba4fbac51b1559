//! The words `check STYLE CERT`: from the two files to the decision.

ghost use Rattle.std.specs.Prelude.{◌≡◌, ◌≤◌, [], length, Ok, IfOk, IfErr, IfSome};
ghost use Rattle.bst_run.specs.FilesBegun.{Begins, check_begun};
ghost use Rattle.bst_run.specs.Reads.{Reads};
ghost use Rattle.bst_run.specs.Report.{holding};
ghost use Rattle.bst_run.specs.Sources.{read_cert};
ghost use Rattle.bst_run.specs.Stops as stops;
ghost use Rattle.bst_run.specs.Subjects.{IsCertified, IsSound, Safe, cert_of, checked};
ghost use Rattle.bst_run.specs.Top as top;

use crate::files::style::style_from;
use crate::files::whole::style_file;
use crate::outcome::Outcome;
use crate::report::{accepted, bad_cert, refused};
use crate::stop::Stop;
use bv_base::files::Files;
use bv_base::limits::STYLE_BYTES;
use cert_check::laws::certificates_are_certified;
use cert_check::refusal::Reason;
use cert_format::cert::Cert;
use cert_format::fault::CertFault;
use cert_format::read::read;
use name_table::style::Style;
use std::alloc::Global;

/// Decides the certificate in the second file for the style in the first.
pub fn check<F: Files>(
    alloc: Global,
    files: &mut F,
    style_name: &str,
    cert_name: &str,
) -> Result<Outcome, Stop>
    ensures reads { Reads ⟦<F as Files>⟧ files.old files.new (λ told. top.check_outcome told style_name.now cert_name.now) result }
    ensures begun { Begins (F.told files.old) (λ told. check_begun told style_name.now cert_name.now) (F.begun files.old) (F.begun files.new) result }
    ensures decided { IfOk result (λ outcome. stops.IsDecided outcome.status) }
    ensures safe { IfOk result (λ outcome. IfSome (F.told files.old) (λ told.
        top.IsAcceptance told style_name.now cert_name.now outcome)) }
{
    let source = style_file(alloc, files, style_name)?;
    let style = style_from(alloc, source.as_slice())?;
    let text = style_file(alloc, files, cert_name)?;
    judge_text(alloc, &style, text.as_slice())
}

/// Reads a certificate for a style, and decides it.
fn judge_text(alloc: Global, style: &Style, text: &[u8]) -> Result<Outcome, Stop>
    requires short { length text.now ≤ STYLE_BYTES }
    requires sound { IsSound style.now }
    ensures accepted { IfOk result (top.IsTextJudgedWell style.now text.now) }
    ensures decides { stops.Decides (top.text_judged style.now text.now) result }
    ensures decided { IfOk result (λ outcome. stops.IsDecided outcome.status) }
    ensures inside { IfErr result stops.IsInside }
{
    let cert = cert_from(alloc, text, style)?;
    certificates_are_certified();
    judge(alloc, style, &cert)
}

/// The certificate that the bytes are.
pub fn cert_from(alloc: Global, text: &[u8], style: &Style) -> Result<Cert, Stop>
    requires short { length text.now ≤ STYLE_BYTES }
    requires sound { IsSound style.now }
    ensures exact { IfOk result (λ cert. cert_of style.now text.now ≡ Ok cert) }
    ensures decides { stops.Decides (read_cert (cert_of style.now text.now)) result }
    ensures inside { IfErr result stops.IsInside }
{
    match read(alloc, text, style) {
        Ok(cert) => Ok(cert),
        Err(CertFault::NoMemory) => Err(Stop::NoMemory),
        Err(fault) => Err(Stop::Told(bad_cert(alloc, fault)?)),
    }
}

/// Decides a certificate that was read.
fn judge(alloc: Global, style: &Style, cert: &Cert) -> Result<Outcome, Stop>
    requires sound { IsSound style.now }
    requires certified { IsCertified style.now cert.now }
    ensures accepted { IfOk result (top.IsJudgedWell style.now cert.now) }
    ensures decides { stops.Decides (top.judged style.now cert.now) result }
    ensures decided { IfOk result (λ outcome. stops.IsDecided outcome.status) }
    ensures inside { IfErr result stops.IsInside }
{
    holds(alloc, style, cert)?;
    Ok(accepted(alloc, style, &cert.cond)?)
}

/// Whether the rules hold of a certificate.
pub fn holds(alloc: Global, style: &Style, cert: &Cert) -> Result<(), Stop>
    requires sound { IsSound style.now }
    requires certified { IsCertified style.now cert.now }
    ensures decides { stops.Decides (holding (checked style.now cert.now)) result }
    ensures held { IfOk result (λ _. checked style.now cert.now ≡ Ok []) }
    ensures safe { IfOk result (λ _. Safe style.now cert.now.cond) }
    ensures inside { IfErr result stops.IsInside }
{
    match command_flow::check(alloc, style, cert) {
        Ok(()) => Ok(()),
        Err(refusal) if refusal.reason == Reason::NoMemory => Err(Stop::NoMemory),
        Err(refusal) => Err(Stop::Told(refused(alloc, refusal)?)),
    }
}
