//! Where a walk is.

ghost use Rattle.std.specs.Prelude.{◌≡◌, ◌≤◌, length, option_map, slice_get};
ghost use Rattle.cert_check.specs.Tables.{AreTables};
ghost use Rattle.cert_check.specs.Uses as uses;
ghost use Rattle.cert_check.specs.Walks as rule;

use crate::tables::Tables;
use bst_meaning::condition::Cond;
use bst_meaning::value::Target;
use cert_format::cert::{Cert, Loop, Summary};
use name_table::names::NameId;
use name_table::style::{Body, BodyId, MOST_BODIES, Style};
use std::marker::Model;

/// The style and the certificate, and the variables that the unit which is checked may write: all where none is listed.
#[derive(Drop)]
pub(crate) struct Scope<'a> {
    style: &'a Style,
    cert: &'a Cert,
    writes: Option<&'a [NameId]>,
    tables: &'a Tables,
}

impl<'a> Model for Scope<'a> {
    ghost use Rattle.std.specs.Prelude.{option_map};
    ghost use Rattle.cert_check.specs.Tables.{AreTables};
    ghost use Rattle.cert_check.specs.Walks as rule;

    ghost Value = { rule.Over };

    ghost view = { λ s. record { style = s.style.now; cert = s.cert.now; writes = option_map (λ names. names.now) s.writes } };

    ghost invariant = { λ s. AreTables s.style.now s.cert.now s.tables.now };
}

impl<'a> Scope<'a> {
    /// A walk of this style by this certificate that may write these variables.
    pub(crate) fn new(
        style: &'a Style,
        cert: &'a Cert,
        writes: Option<&'a [NameId]>,
        tables: &'a Tables,
    ) -> Scope<'a>
        requires { AreTables style.now cert.now tables.now }
        ensures { result ≡ record { style = style.now; cert = cert.now; writes = option_map (λ names. names.now) writes.entry } }
    {
        Scope {
            style,
            cert,
            writes,
            tables,
        }
    }

    /// The style.
    pub(crate) fn style(&self) -> &'a Style
        ensures { result.now ≡ self.now.style }
    {
        self.style
    }

    /// The condition of the certificate.
    pub(crate) fn cond(&self) -> &'a Cond
        ensures { result.now ≡ self.now.cert.cond }
    {
        &self.cert.cond
    }

    /// The summary of a number.
    pub(crate) fn summary(&self, k: u32) -> Option<&'a Summary>
        ensures { option_map (λ summary. summary.now) result ≡ slice_get self.now.cert.summaries k }
    {
        self.cert.summaries.as_slice().get(k as usize)
    }

    /// The loop of a number.
    pub(crate) fn repetition(&self, k: u32) -> Option<&'a Loop>
        ensures { option_map (λ one. one.now) result ≡ slice_get self.now.cert.loops k }
    {
        self.cert.loops.as_slice().get(k as usize)
    }

    /// Whether the unit may write a variable.
    pub(crate) fn may_write(&self, name: NameId) -> bool
        ensures { result ≡ rule.may_write self.now.writes name }
    {
        match self.writes {
            Some(writes) => is_among(writes, name),
            None => true,
        }
    }

    /// Whether the certificate has a summary of a target.
    pub(crate) fn has_summary(&self, target: Target) -> bool
        ensures { result ≡ rule.has_summary self.now.cert target }
    {
        match self.tables.has_summary(target) {
            Some(has) => has,
            None => lists_summary(self.cert, target),
        }
    }

    /// The body of the block with a number.
    pub(crate) fn block_body(&self, number: u32) -> Option<BodyId>
        requires { length self.now.style.bodies ≤ MOST_BODIES }
        ensures { result ≡ rule.block_body number 0 self.now.style.bodies }
    {
        match self.tables.body(number) {
            Some(body) => body,
            None => block_among(self.style.bodies.as_slice(), number),
        }
    }
}

/// Whether a certificate lists a summary of a target.
fn lists_summary(cert: &Cert, target: Target) -> bool
    ensures { result ≡ rule.has_summary cert.now target }
{
    cert.summaries
        .as_slice()
        .iter()
        .any(|summary| is_target(summary.body, target))
}

/// The body of the block with a number, among all bodies.
fn block_among(bodies: &[Body], number: u32) -> Option<BodyId>
    requires { length bodies.now ≤ MOST_BODIES }
    ensures { result ≡ rule.block_body number 0 bodies.now }
{
    for (id, body) in bodies.iter().enumerate() {
        if body.block == Some(number) {
            return Some(BodyId(id as u32));
        }
    }
    None
}

/// Whether a name is among these.
pub(crate) fn is_among(names: &[NameId], name: NameId) -> bool
    ensures { result ≡ uses.is_among names.now name }
{
    names.iter().any(|other| other.0 == name.0)
}

/// Whether two targets are the same.
pub(crate) fn is_target(a: Target, b: Target) -> bool
    ensures { result ≡ rule.is_target a b }
{
    match (a, b) {
        (Target::Named(a), Target::Named(b)) => a.0 == b.0,
        (Target::Block(a), Target::Block(b)) => a.0 == b.0,
        _ => false,
    }
}
