//! The bodies of a style while it is read.

ghost use Rattle.std.specs.Prelude.{◌≡◌, ◌<◌, ◌≤◌, [], length, OnOk, OnErr};
ghost use Rattle.bst_parse.specs.Bodies as bodies;

use bv_base::memory::NoMemory;
use bv_base::place::Place;
use bv_base::seq::Seq;
use name_table::style::{Body, BodyId, MOST_BODIES, Token, TokenAt};
use std::alloc::Global;
use std::marker::Model;

/// The bodies so far, in the order of their opening braces. Contracts see their list.
#[derive(Drop)]
pub(crate) struct Bodies {
    alloc: Global,
    list: Vec<Body>,
    blocks: u32,
}

impl Model for Bodies {
    ghost use Rattle.std.specs.Prelude.{◌≡◌, ◌≤◌, List, length};
    ghost use Rattle.name_table.specs.declared.style.Body.{Body};
    ghost use Rattle.name_table.specs.declared.style.TheConstants.{MOST_BODIES};
    ghost use Rattle.bst_parse.specs.Bodies.{block_count};

    ghost Value = { List Body };

    ghost view = { λ b. b.list.items };

    ghost invariant = { λ b. (b.blocks ≡ block_count b.list.items) × (length b.list.items ≤ MOST_BODIES) };
}

impl Bodies {
    /// No body.
    pub(crate) fn new(alloc: Global) -> Bodies
        ensures { result ≡ [] }
    {
        Bodies {
            alloc,
            list: Vec::new(alloc),
            blocks: 0,
        }
    }

    /// The id of the body that begins next.
    pub(crate) fn next(&self) -> BodyId
        ensures next { result ≡ bodies.next_body self.now }
        ensures within { length self.now ≤ MOST_BODIES }
    {
        BodyId(self.list.len() as u32)
    }

    /// Begins the body of a function.
    pub(crate) fn begin_function(&mut self, place: Place) -> Result<(), NoMemory>
        requires { length self.old < MOST_BODIES }
        ensures { OnOk result (self.new ≡ bodies.function_begun place self.old) }
    {
        self.list.push(Body {
            tokens: Seq::new(self.alloc),
            block: None,
            place,
        })?;
        Ok(())
    }

    /// Begins a block in a body.
    pub(crate) fn begin_block(&mut self, inside: BodyId, place: Place) -> Result<(), NoMemory>
        requires { length self.old < MOST_BODIES }
        ensures { OnOk result (self.new ≡ bodies.block_begun inside place self.old) }
    {
        let block = Some(self.blocks);
        let token = Token::Block(BodyId(self.list.len() as u32));
        push_token(&mut self.list, inside, TokenAt { token, place })?;
        self.list.push(Body {
            tokens: Seq::new(self.alloc),
            block,
            place,
        })?;
        self.blocks += 1;
        Ok(())
    }

    /// Adds a token at the end of a body. A body that isn't there takes none.
    pub(crate) fn add(&mut self, inside: BodyId, token: TokenAt) -> Result<(), NoMemory>
        ensures { OnOk result (self.new ≡ bodies.token_added inside token self.old) }
    {
        push_token(&mut self.list, inside, token)
    }

    /// The bodies as a list, which aren't copied.
    pub(crate) fn into_seq(self) -> Seq<Body>
        ensures { result ≡ self }
    {
        let Bodies { list, .. } = self;
        Seq::from_vec(list)
    }
}

/// Adds a token at the end of a body. A body that isn't there takes none.
fn push_token(list: &mut Vec<Body>, inside: BodyId, token: TokenAt) -> Result<(), NoMemory>
    ensures added { OnOk result (list.new.items ≡ bodies.token_added inside token list.old.items) }
    ensures same { OnErr result (list.new.items ≡ list.old.items) }
    ensures length { length list.new.items ≡ length list.old.items }
    ensures blocks { bodies.block_count list.new.items ≡ bodies.block_count list.old.items }
{
    let at = inside.0 as usize;
    if at < list.len() {
        let body = &mut list[at];
        body.tokens.push(token)?;
    }
    Ok(())
}
