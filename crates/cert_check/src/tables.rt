//! Tables by which summaries and blocks are found.

ghost use Rattle.std.specs.Prelude.{◌≡◌, ◌≤◌, IfOk, length, slice_get, slice_set};
ghost use Rattle.std.specs.List.{All};
ghost use Rattle.cert_check.specs.Tables as tables;

use bst_meaning::value::Target;
use bv_base::memory::NoMemory;
use cert_format::cert::{Cert, Summary};
use name_table::style::{Body, BodyId, MOST_BODIES, Style};
use std::alloc::Global;
use std::marker::Model;

/// Whether names and blocks have a summary, by their ids, and the body of each block, by its number.
#[derive(Drop)]
pub(crate) struct Tables {
    named: Vec<bool>,
    blocks: Vec<bool>,
    bodies: Vec<Option<BodyId>>,
}

impl Model for Tables {
    ghost use Rattle.cert_check.specs.Tables as tables;

    ghost Value = { tables.Tables };

    ghost view = { λ t. record { named = t.named.items; blocks = t.blocks.items; bodies = t.bodies.items } };
}

impl Tables {
    /// The tables of a certificate for a style.
    pub(crate) fn new(alloc: Global, style: &Style, cert: &Cert) -> Result<Tables, NoMemory>
        requires { length style.now.bodies ≤ MOST_BODIES }
        ensures { IfOk result (tables.AreTables style.now cert.now) }
    {
        let summaries = cert.summaries.as_slice();
        let bodies = style.bodies.as_slice();
        let names = style.names.len() as usize;
        let (named, blocks) = marked(alloc, names, bodies.len(), summaries)?;
        Ok(Tables {
            named,
            blocks,
            bodies: bodies_by_number(alloc, bodies)?,
        })
    }

    /// Whether a target has a summary, where it is in the tables.
    pub(crate) fn has_summary(&self, target: Target) -> Option<bool>
        ensures { result ≡ tables.mark_of self.now target }
    {
        match target {
            Target::Named(name) => self.named.as_slice().get(name.0 as usize).copied(),
            Target::Block(body) => self.blocks.as_slice().get(body.0 as usize).copied(),
        }
    }

    /// The body of the block with a number, where it is in the tables.
    pub(crate) fn body(&self, number: u32) -> Option<Option<BodyId>>
        ensures { result ≡ slice_get self.now.bodies number }
    {
        self.bodies.as_slice().get(number as usize).copied()
    }
}

/// Marks for so many names and for so many blocks, of those that have a summary.
fn marked(
    alloc: Global,
    names: usize,
    bodies: usize,
    summaries: &[Summary],
) -> Result<(Vec<bool>, Vec<bool>), NoMemory>
    ensures named { IfOk result (λ marks. tables.AreMarks tables.name_of_id marks.0.items summaries.now) }
    ensures blocks { IfOk result (λ marks. tables.AreMarks tables.block_of_id marks.1.items summaries.now) }
{
    let mut named = filled(alloc, names, false)?;
    let mut blocks = filled(alloc, bodies, false)?;
    for k in (0..summaries.len()).rev() {
        match summaries[k].body {
            Target::Named(name) => put(&mut named, name.0, true),
            Target::Block(body) => put(&mut blocks, body.0, true),
        }
    }
    Ok((named, blocks))
}

/// The bodies of blocks, by number. Of two with one number it is the first.
fn bodies_by_number(alloc: Global, bodies: &[Body]) -> Result<Vec<Option<BodyId>>, NoMemory>
    requires { length bodies.now ≤ MOST_BODIES }
    ensures { IfOk result (λ found. tables.AreBodies 0 found.items bodies.now) }
{
    let mut found = filled(alloc, bodies.len(), None)?;
    for id in (0..bodies.len()).rev() {
        if let Some(number) = bodies[id].block {
            put(&mut found, number, Some(BodyId(id as u32)));
        }
    }
    Ok(found)
}

/// So many equal values.
fn filled<T: Copy>(alloc: Global, many: usize, value: T) -> Result<Vec<T>, NoMemory>
    ensures { IfOk result (λ all. All (λ one. one ≡ value) all.items) }
{
    let mut all = Vec::new(alloc);
    for _ in 0..many {
        all.push(value)?;
    }
    Ok(all)
}

/// Puts a value at an index, where the table has that index.
fn put<T: Copy>(table: &mut Vec<T>, at: u32, value: T)
    ensures { table.new.items ≡ slice_set table.old.items at value }
{
    if (at as usize) < table.len() {
        table[at as usize] = value;
    }
}
