//! A run under a certificate: whether the entries meet its condition, and then the run.

ghost use Rattle.std.specs.Prelude.{◌≡◌, ◌+◌, ◌<◌, ◌≤◌, length, None, IfOk, IfErr};
ghost use Rattle.bst_run.specs.FilesBegun.{Begins, under_begun};
ghost use Rattle.bst_run.specs.Reads.{Reads};
ghost use Rattle.bst_run.specs.Stops.{Decides, IsDecided, IsInside};
ghost use Rattle.bst_run.specs.Subjects.{AreCitations, AreKeyed, IsSound, Meets, Safe, first_unmet, key_of};
ghost use Rattle.bst_run.specs.Under as rule;

use crate::answer::{Answer, Run};
use crate::check::{cert_from, holds};
use crate::files::sources::{Sources, sources_of};
use crate::files::whole::style_file;
use crate::run::join_all;
use crate::stop::Stop;
use bst_meaning::condition::Cond;
use bv_base::files::Files;
use bv_base::limits::STYLE_BYTES;
use bv_base::memory::NoMemory;
use bv_base::runs::length_before;
use bv_base::text::Text;
use cert_check::laws::certificates_are_certified;
use cert_format::laws::read_as_the_certificate;
use cert_format::print::print_cond;
use cond_eval::meets;
use cond_eval::unmet::Unmet;
use entry_store::entry::EntryList;
use name_table::style::Style;
use std::alloc::Global;

/// Reads what the `.aux` file of this name asks for, checks the certificate for the style, tells whether the entries meet its
/// condition, and asks for the first steps of the style over them.
pub fn run_under<F: Files>(
    alloc: Global,
    files: &mut F,
    aux: &str,
    steps: u32,
    cert: &str,
) -> Result<Answer, Stop>
    ensures reads { Reads ⟦<F as Files>⟧ files.old files.new (λ told. rule.under_outcome told aux.now steps cert.now) result }
    ensures begun { Begins (F.told files.old) (λ told. under_begun told aux.now cert.now) (F.begun files.old) (F.begun files.new) result }
    ensures decided { IfOk result (λ outcome. IsDecided outcome.status) }
    ensures outside { IfOk result rule.FaultsOutside }
{
    let sources = sources_of(alloc, files, aux)?;
    let text = style_file(alloc, files, cert)?;
    text_under(alloc, sources, text.as_slice(), steps)
}

/// Reads a certificate's text for the style, checks it, and asks for a run of the style.
fn text_under(alloc: Global, sources: Sources, text: &[u8], steps: u32) -> Result<Answer, Stop>
    requires short { length text.now ≤ STYLE_BYTES }
    requires sound { IsSound sources.style }
    requires cited { AreCitations sources.items }
    requires keyed { AreKeyed sources.database.entries }
    ensures decides { Decides (rule.text_under steps sources text.now) result }
    ensures decided { IfOk result (λ outcome. IsDecided outcome.status) }
    ensures outside { IfOk result rule.FaultsOutside }
    ensures inside { IfErr result IsInside }
{
    let cert = cert_from(alloc, text, &sources.style)?;
    certificates_are_certified();
    read_as_the_certificate();
    holds(alloc, &sources.style, &cert)?;
    Ok(under(alloc, sources, &cert.cond, steps)?)
}

/// Joins the citations and the databases, tells whether they meet a condition, and asks for the first steps of the style over
/// them.
fn under(alloc: Global, sources: Sources, cond: &Cond, steps: u32) -> Result<Answer, NoMemory>
    requires lines { length cond.now.names + length cond.now.nonblank + length cond.now.types < 4294967291 }
    requires cited { AreCitations sources.items }
    requires keyed { AreKeyed sources.database.entries }
    requires safe { Safe sources.style cond.now }
    ensures exact { IfOk result (λ outcome. outcome ≡ rule.run_under steps cond.now sources) }
    ensures outside { IfOk result rule.FaultsOutside }
{
    let (style, found, reading) = join_all(alloc, sources)?;
    let front = meeting_text(alloc, &style, cond, &found.list)?;
    Ok(Answer::asked(Run {
        style,
        found,
        reading,
        front: Text::from_vec(front),
        steps,
    }))
}

/// Whether a list meets a condition, as a log tells it.
fn meeting_text(
    alloc: Global,
    style: &Style,
    cond: &Cond,
    list: &EntryList,
) -> Result<Vec<u8>, NoMemory>
    requires lines { length cond.now.names + length cond.now.nonblank + length cond.now.types < 4294967291 }
    ensures exact { IfOk result (λ text. text.items ≡
        rule.meeting_text style.now cond.now list.now (first_unmet style.now cond.now list.now)) }
    ensures meets { first_unmet style.now cond.now list.now ≡ None → Meets style.now cond.now list.now }
{
    match meets(style, cond, list) {
        Some(unmet) => unmet_text(alloc, style, cond, list, unmet),
        None => Ok(String::from_str(alloc, "inside\n")?.into_bytes()),
    }
}

/// The first line of a condition that a list doesn't keep, as a log tells it.
fn unmet_text(
    alloc: Global,
    style: &Style,
    cond: &Cond,
    list: &EntryList,
    unmet: Unmet,
) -> Result<Vec<u8>, NoMemory>
    ensures { IfOk result (λ text. text.items ≡ rule.unmet_text style.now cond.now list.now unmet) }
{
    let printed = print_cond(alloc, cond, style)?;
    let mut text = String::from_str(alloc, "outside\nunmet ")?.into_bytes();
    text.extend_from_slice(entry_text(unmet.entry, list))?;
    text.push(b' ')?;
    text.extend_from_slice(line_of(printed.as_slice(), unmet.line))?;
    text.push(b'\n')?;
    Ok(text)
}

/// The key of the entry at this position, and `-` for the whole list.
fn entry_text(entry: Option<u64>, list: &EntryList) -> &[u8]
    ensures { result.now ≡ rule.entry_text entry list.now }
{
    match entry {
        Some(position) => key_of(position, list),
        None => b"-",
    }
}

/// The key of the entry at a position, and no bytes where there is none.
fn key_of(position: u64, list: &EntryList) -> &[u8]
    ensures { result.now ≡ key_of position list.now }
{
    match list.at(position as usize) {
        Some(entry) => entry.key(),
        None => b"",
    }
}

/// The line of a text with this number, from 0, without its end.
fn line_of(text: &[u8], line: u32) -> &[u8]
    ensures { result.now ≡ rule.line_of line text.now }
{
    let mut rest = text;
    for _ in 0..line {
        rest = after_line(rest);
    }
    first_line(rest)
}

/// The first line of a text.
fn first_line(text: &[u8]) -> &[u8]
    ensures { result.now ≡ rule.first_line text.now }
{
    text.split_at(length_before(text, |b| b == b'\n')).0
}

/// What stands behind the first line.
fn after_line(text: &[u8]) -> &[u8]
    ensures { result.now ≡ rule.after_line text.now }
{
    match text.split_at(length_before(text, |b| b == b'\n')).1 {
        [_, rest @ ..] => rest,
        [] => b"",
    }
}
