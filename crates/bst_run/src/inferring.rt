//! The words `infer STYLE` and `infer STYLE COND`: from the files to a certificate that is found.

ghost use Rattle.std.specs.Prelude.{◌≡◌, ◌≤◌, [], length, Ok, IfOk, IfErr, IfSome};
ghost use Rattle.bst_run.specs.FilesBegun.{Begins, cond_begun, file_begun, infer_begun};
ghost use Rattle.bst_run.specs.Forms.{name_in};
ghost use Rattle.bst_run.specs.Inferred as rule;
ghost use Rattle.bst_run.specs.Reads.{Reads};
ghost use Rattle.bst_run.specs.Stops as stops;
ghost use Rattle.bst_run.specs.Subjects.{IsCert, IsCertified, IsCond, IsSound, Safe, checked, cond_of, infer_of};

use crate::files::style::style_from;
use crate::files::whole::style_file;
use crate::outcome::Outcome;
use crate::report::{bad_cert, unknown, written};
use crate::stop::Stop;
use crate::unknown::reason_text;
use bst_meaning::condition::Cond;
use bv_base::files::Files;
use bv_base::limits::STYLE_BYTES;
use bv_base::place::Place;
use bv_base::text::Text;
use cert_check::laws::certificates_are_certified;
use cert_check::refusal::Reason;
use cert_format::cert::Cert;
use cert_format::fault::CertFault;
use cert_format::laws::{read_as_the_certificate, read_as_the_condition};
use cert_format::print::print;
use cert_format::read::read_cond;
use infer::{UnknownReason, default_cond};
use name_table::style::Style;
use std::alloc::Global;

/// Finds a certificate for the style in the first file, under the condition in the second or the default one, and writes it where
/// the rules hold of it.
pub fn infer<F: Files>(
    alloc: Global,
    files: &mut F,
    style_name: &str,
    cond_name: Option<&str>,
) -> Result<Outcome, Stop>
    ensures reads { Reads ⟦<F as Files>⟧ files.old files.new (λ told. rule.infer_outcome told style_name.now (name_in cond_name.entry)) result }
    ensures begun { Begins (F.told files.old) (λ told. infer_begun told style_name.now (name_in cond_name.entry))
        (F.begun files.old) (F.begun files.new) result }
    ensures decided { IfOk result (λ outcome. stops.IsDecided outcome.status) }
    ensures safe { IfOk result (λ outcome. IfSome (F.told files.old) (λ told.
        rule.IsWriting told style_name.now (name_in cond_name.entry) outcome)) }
{
    let source = style_file(alloc, files, style_name)?;
    let style = style_from(alloc, source.as_slice())?;
    let cond = cond_for(alloc, files, cond_name, &style)?;
    certificate_under(alloc, &style, cond)
}

/// The condition in the file of this name, and the default one where none is named.
fn cond_for<F: Files>(
    alloc: Global,
    files: &mut F,
    name: Option<&str>,
    style: &Style,
) -> Result<Cond, Stop>
    requires sound { IsSound style.now }
    ensures reads { Reads ⟦<F as Files>⟧ files.old files.new (λ told. rule.cond_for told (name_in name.entry) style.now) result }
    ensures begun { Begins (F.told files.old) (λ told. cond_begun told (name_in name.entry)) (F.begun files.old) (F.begun files.new) result }
    ensures kept { IfOk result (IsCond style.now.names) }
{
    match name {
        Some(name) => cond_in(alloc, files, name, style),
        None => Ok(default_cond(alloc, style)?),
    }
}

/// The condition in the file of this name.
fn cond_in<F: Files>(alloc: Global, files: &mut F, name: &str, style: &Style) -> Result<Cond, Stop>
    requires sound { IsSound style.now }
    ensures reads { Reads ⟦<F as Files>⟧ files.old files.new (λ told. rule.cond_named told name.now style.now) result }
    ensures begun { Begins (F.told files.old) (λ told. file_begun told name.now) (F.begun files.old) (F.begun files.new) result }
    ensures kept { IfOk result (IsCond style.now.names) }
{
    let text = style_file(alloc, files, name)?;
    cond_from(alloc, text.as_slice(), style)
}

/// The condition that the bytes are.
fn cond_from(alloc: Global, text: &[u8], style: &Style) -> Result<Cond, Stop>
    requires short { length text.now ≤ STYLE_BYTES }
    requires sound { IsSound style.now }
    ensures decides { stops.Decides (rule.read_cond (cond_of style.now text.now)) result }
    ensures kept { IfOk result (IsCond style.now.names) }
    ensures inside { IfErr result stops.IsInside }
{
    read_as_the_condition();
    match read_cond(alloc, text, style) {
        Ok(cond) => Ok(cond),
        Err(CertFault::NoMemory) => Err(Stop::NoMemory),
        Err(fault) => Err(Stop::Told(bad_cert(alloc, fault)?)),
    }
}

/// The text of a certificate that is found for a style under a condition, of which the rules hold.
fn certificate_under(alloc: Global, style: &Style, cond: Cond) -> Result<Outcome, Stop>
    requires sound { IsSound style.now }
    requires kept { IsCond style.now.names cond }
    ensures decides { stops.Decides (rule.inferred style.now cond) result }
    ensures certified { IfOk result (rule.IsWritten style.now cond) }
    ensures decided { IfOk result (λ outcome. stops.IsDecided outcome.status) }
    ensures inside { IfErr result stops.IsInside }
{
    let cert = found(alloc, style, cond)?;
    printed(alloc, style, &cert)
}

/// The certificate that is found for a style under a condition.
pub fn found(alloc: Global, style: &Style, cond: Cond) -> Result<Cert, Stop>
    requires sound { IsSound style.now }
    requires kept { IsCond style.now.names cond }
    ensures decides { stops.Decides (rule.shown (infer_of style.now cond)) result }
    ensures found { IfOk result (λ cert. infer_of style.now cond ≡ Ok cert) }
    ensures under { IfOk result (λ cert. cert.cond ≡ cond) }
    ensures kept { IfOk result (IsCert style.now) }
    ensures certified { IfOk result (IsCertified style.now) }
    ensures inside { IfErr result stops.IsInside }
{
    match infer::infer(alloc, style, cond) {
        Ok(cert) => Ok(cert),
        Err(none) if none.reason == UnknownReason::NoMemory => Err(Stop::NoMemory),
        Err(none) => {
            let reason = reason_text(alloc, none.reason)?;
            Err(Stop::Told(unknown(alloc, none.place, &reason)?))
        }
    }
}

/// The text of a certificate, where it is short and the rules hold of the certificate.
fn printed(alloc: Global, style: &Style, cert: &Cert) -> Result<Outcome, Stop>
    requires sound { IsSound style.now }
    requires kept { IsCert style.now cert.now }
    ensures decides { stops.Decides (rule.printed style.now cert.now) result }
    ensures certified { IfOk result (rule.IsWritten style.now cert.now.cond) }
    ensures decided { IfOk result (λ outcome. stops.IsDecided outcome.status) }
    ensures inside { IfErr result stops.IsInside }
{
    let spelled = print(alloc, cert, style)?;
    let text = short_text(alloc, Text::from_vec(spelled))?;
    read_as_the_certificate();
    certificates_are_certified();
    unrejected(alloc, style, cert)?;
    Ok(written(alloc, text))
}

/// A text that keeps the limit of certificates.
fn short_text(alloc: Global, text: Text) -> Result<Text, Stop>
    ensures decides { stops.Decides (rule.short_text text) result }
    ensures same { IfOk result (λ short. short ≡ text) }
    ensures short { IfOk result (λ short. length short ≤ STYLE_BYTES) }
    ensures inside { IfErr result stops.IsInside }
{
    if text.as_slice().len() > STYLE_BYTES {
        return Err(Stop::Told(unknown(alloc, Place::START, "CertTooLong")?));
    }
    Ok(text)
}

/// Whether the rules hold of a certificate that was found.
pub fn unrejected(alloc: Global, style: &Style, cert: &Cert) -> Result<(), Stop>
    requires sound { IsSound style.now }
    requires certified { IsCertified style.now cert.now }
    ensures decides { stops.Decides (rule.unrejected (checked style.now cert.now)) result }
    ensures held { IfOk result (λ _. (checked style.now cert.now ≡ Ok []) × Safe style.now cert.now.cond) }
    ensures inside { IfErr result stops.IsInside }
{
    match command_flow::check(alloc, style, cert) {
        Ok(()) => Ok(()),
        Err(refusal) if refusal.reason == Reason::NoMemory => Err(Stop::NoMemory),
        Err(refusal) => Err(Stop::Told(unknown(alloc, refusal.place, "Rejected")?)),
    }
}
