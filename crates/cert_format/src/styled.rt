//! A style with its blocks by their numbers.

ghost use Rattle.std.specs.Prelude.{◌≡◌, ◌≤◌, IfOk, length};
ghost use Rattle.cert_format.specs.PieceItems.{blocks_of, body_of};
ghost use Rattle.name_table.specs.Sound.{IsSound};

use bv_base::memory::NoMemory;
use name_table::names::Names;
use name_table::style::{Body, BodyId, MOST_BODIES, Style};
use std::alloc::Global;
use std::marker::Model;

/// A style, with the bodies of its blocks in the order of their numbers. Contracts see the style.
#[derive(Drop)]
pub(crate) struct Styled<'a> {
    style: &'a Style,
    blocks: Vec<BodyId>,
}

impl<'a> Model for Styled<'a> {
    ghost use Rattle.std.specs.Prelude.{◌≡◌, ℕ, slice_get};
    ghost use Rattle.cert_format.specs.PieceItems.{body_of};
    ghost use Rattle.name_table.specs.declared.style.Style.{Style as Whole};

    ghost Value = { Whole };

    ghost view = { λ s. s.style.now };

    ghost invariant = { λ s. (number : ℕ) → slice_get s.blocks.items number ≡ body_of number s.style.now.bodies };
}

impl<'a> Styled<'a> {
    /// A style that was read.
    pub(crate) fn new(alloc: Global, style: &'a Style) -> Result<Styled<'a>, NoMemory>
        requires { IsSound style.now }
        ensures { IfOk result (λ styled. styled ≡ style.now) }
    {
        let blocks = blocks_of(alloc, style.bodies.as_slice())?;
        Ok(Styled { style, blocks })
    }

    /// The names of the style.
    pub(crate) fn names(&self) -> &'a Names
        ensures { result.now ≡ self.now.names }
    {
        &self.style.names
    }

    /// How many commands the style has.
    pub(crate) fn commands(&self) -> usize
        ensures { result ≡ length self.now.commands }
    {
        self.style.commands.as_slice().len()
    }

    /// The block of a number, by one look-up.
    pub(crate) fn block(&self, number: u32) -> Option<BodyId>
        ensures { result ≡ body_of number self.now.bodies }
    {
        match self.blocks.as_slice().get(number as usize) {
            Some(body) => Some(*body),
            None => None,
        }
    }
}

/// The bodies of the blocks, in order.
fn blocks_of(alloc: Global, bodies: &[Body]) -> Result<Vec<BodyId>, NoMemory>
    requires { length bodies.now ≤ MOST_BODIES }
    ensures { IfOk result (λ blocks. blocks.items ≡ blocks_of bodies.now) }
{
    let mut blocks = Vec::new(alloc);
    let mut id: u32 = 0;
    for body in bodies {
        if body.block.is_some() {
            blocks.push(BodyId(id))?;
        }
        id += 1;
    }
    Ok(blocks)
}
