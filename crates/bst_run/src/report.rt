//! The outcomes that are told, with their texts.

ghost use Rattle.std.specs.Prelude.{◌≡◌, IfOk};
ghost use Rattle.std.specs.String.{string_bytes};
ghost use Rattle.bst_run.specs.Report as report;

use crate::data_fault::DataFault;
use crate::outcome::Outcome;
use crate::refusal::{name_of, number_of};
use bst_meaning::condition::Cond;
use bst_meaning::fault::Fault;
use bst_parse::fault::StyleFault;
use bv_base::memory::NoMemory;
use bv_base::place::Place;
use bv_base::status::Status;
use bv_base::text::Text;
use cert_check::refusal::Refusal;
use cert_format::fault::CertFault;
use cert_format::print::print_cond;
use name_table::style::Style;
use std::alloc::Global;

/// The line for words of none of the forms.
const USAGE: &str =
    "usage: check STYLE CERT; infer STYLE [COND]; run AUX N [CERT]; gen SEED COUNT\n";

/// The words have none of the forms.
pub fn usage(alloc: Global) -> Result<Outcome, NoMemory>
    ensures { IfOk result (λ outcome. outcome ≡ report.usage) }
{
    let line = String::from_str(alloc, USAGE)?;
    Ok(last_line(alloc, Status::Usage, line))
}

/// No file has this name.
pub fn absent(alloc: Global, name: &str) -> Result<Outcome, NoMemory>
    ensures { IfOk result (λ outcome. outcome ≡ report.absent name.now) }
{
    let line = format!(in alloc; "no file {name}\n")?;
    Ok(last_line(alloc, Status::NoFile, line))
}

/// The file of this name couldn't be begun or read.
pub fn unread(alloc: Global, name: &str) -> Result<Outcome, NoMemory>
    ensures { IfOk result (λ outcome. outcome ≡ report.unread name.now) }
{
    let line = format!(in alloc; "read failed {name}\n")?;
    Ok(last_line(alloc, Status::ReadFailed, line))
}

/// The file of this name has more bytes than its limit.
pub fn too_long(alloc: Global, name: &str) -> Result<Outcome, NoMemory>
    ensures { IfOk result (λ outcome. outcome ≡ report.too_long name.now) }
{
    let line = format!(in alloc; "too long {name}\n")?;
    Ok(last_line(alloc, Status::TooLong, line))
}

/// The bytes of a style are at fault.
pub fn bad_style(alloc: Global, fault: StyleFault) -> Result<Outcome, NoMemory>
    ensures { IfOk result (λ outcome. outcome ≡ report.bad_style fault) }
{
    let line = placed_line(alloc, "bad style", fault.place(), fault.name())?;
    Ok(last_line(alloc, Status::BadStyle, line))
}

/// The bytes of a certificate are at fault.
pub fn bad_cert(alloc: Global, fault: CertFault) -> Result<Outcome, NoMemory>
    ensures { IfOk result (λ outcome. outcome ≡ report.bad_cert fault) }
{
    let line = placed_line(alloc, "bad certificate", fault.place(), fault.name())?;
    Ok(last_line(alloc, Status::BadCert, line))
}

/// The line for a text at fault at a place.
fn placed_line(alloc: Global, words: &str, place: Place, name: &str) -> Result<String, NoMemory>
    ensures { IfOk result (λ text. string_bytes text ≡ report.placed_line words.now place name.now) }
{
    let line = place.line;
    let column = place.column;
    Ok(format!(in alloc; "{words} {line}:{column} {name}\n")?)
}

/// A data file is at fault.
pub fn bad_data(alloc: Global, name: &str, fault: DataFault) -> Result<Outcome, NoMemory>
    ensures { IfOk result (λ outcome. outcome ≡ report.bad_data name.now fault) }
{
    let place = fault.place();
    let line = place.line;
    let column = place.column;
    let fault = fault.name();
    let line = format!(in alloc; "bad data {name} {line}:{column} {fault}\n")?;
    Ok(last_line(alloc, Status::BadData, line))
}

/// A rule fails.
pub fn refused(alloc: Global, refusal: Refusal) -> Result<Outcome, NoMemory>
    ensures { IfOk result (λ outcome. outcome ≡ report.refused refusal) }
{
    let line = refused_line(alloc, refusal)?;
    Ok(last_line(alloc, Status::Refused, line))
}

fn refused_line(alloc: Global, refusal: Refusal) -> Result<String, NoMemory>
    ensures { IfOk result (λ text. string_bytes text ≡ report.refused_line refusal) }
{
    let line = refusal.place.line;
    let column = refusal.place.column;
    let name = name_of(refusal.reason);
    match number_of(refusal.reason) {
        Some(number) => Ok(format!(in alloc; "refused {line}:{column} {name} {number}\n")?),
        None => Ok(format!(in alloc; "refused {line}:{column} {name}\n")?),
    }
}

/// No certificate is found.
pub fn unknown(alloc: Global, place: Place, reason: &str) -> Result<Outcome, NoMemory>
    ensures { IfOk result (λ outcome. outcome ≡ report.unknown place reason.now) }
{
    let line = placed_line(alloc, "unknown", place, reason)?;
    Ok(last_line(alloc, Status::Unknown, line))
}

/// The rules hold: the style is safe under the condition that is printed.
pub fn accepted(alloc: Global, style: &Style, cond: &Cond) -> Result<Outcome, NoMemory>
    ensures { IfOk result (λ outcome. outcome ≡ report.accepted style.now cond.now) }
{
    let condition = print_cond(alloc, cond, style)?;
    let mut text = String::from_str(alloc, "accepted\nlist 1\n")?.into_bytes();
    text.extend_from_slice(condition.as_slice())?;
    Ok(Outcome {
        status: Status::Done,
        out: Text::from_vec(text),
        err: Text::from_vec(Vec::new(alloc)),
    })
}

/// A certificate is written.
pub fn written(alloc: Global, text: Text) -> Outcome
    ensures { result ≡ report.written text }
{
    Outcome {
        status: Status::Done,
        out: text,
        err: Text::from_vec(Vec::new(alloc)),
    }
}

/// A style of so many functions and bytes is made, and the rules hold of a certificate that is found for it.
pub fn generated(alloc: Global, count: u32, bytes: usize) -> Result<Outcome, NoMemory>
    ensures { IfOk result (λ outcome. outcome ≡ report.generated count bytes) }
{
    let text = format!(in alloc; "functions {count}\nbytes {bytes}\naccepted\n")?;
    Ok(written(alloc, Text::from_vec(text.into_bytes())))
}

/// The outcome with this status whose last line stands alone.
fn last_line(alloc: Global, status: Status, line: String) -> Outcome
    ensures { result ≡ report.last_line status (string_bytes line) }
{
    Outcome {
        status,
        out: Text::from_vec(Vec::new(alloc)),
        err: Text::from_vec(line.into_bytes()),
    }
}

/// The last line of a run that has come to an execution error.
pub fn fault_line(
    alloc: Global,
    fault: Fault,
    place: Place,
    key: &[u8],
) -> Result<Vec<u8>, NoMemory>
    ensures { IfOk result (λ text. text.items ≡ report.fault_line fault place key.now) }
{
    let line = place.line;
    let column = place.column;
    let name = fault.name();
    let mut text = format!(in alloc; "fault {line}:{column} {name} ")?.into_bytes();
    text.extend_from_slice(key)?;
    text.push(b'\n')?;
    Ok(text)
}

/// The last line of a run that has taken its steps.
pub fn budget_line(alloc: Global, steps: u32) -> Result<String, NoMemory>
    ensures { IfOk result (λ text. string_bytes text ≡ report.budget_line steps) }
{
    Ok(format!(in alloc; "budget {steps}\n")?)
}
