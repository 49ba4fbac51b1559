//! Lines behind their first words.

ghost use Rattle.std.specs.Prelude.{◌≡◌, Ok, MatchResult};
ghost use Rattle.bv_base.specs.Answers.{Gives, Refuses};
ghost use Rattle.cert_format.specs.Items.{only};
ghost use Rattle.cert_format.specs.Lines.{next_item};
ghost use Rattle.cert_format.specs.declared.stop.Stop.TheVariants.{NoMemory as WantOfMemory};

use crate::lines::{Item, Line};
use crate::stop::Stop;
use std::alloc::Global;

/// A line behind its first word.
#[derive(Drop)]
pub(crate) struct Worded<'a> {
    pub(crate) alloc: Global,
    pub(crate) word: Item<'a>,
    pub(crate) rest: Line<'a>,
}

impl<'a> Worded<'a> {
    /// Takes the first word of a line.
    pub(crate) fn new(alloc: Global, mut line: Line<'a>) -> Result<Worded<'a>, Stop>
        ensures { MatchResult result
            (λ worded. next_item line.entry ≡ Ok (worded.word, worded.rest))
            (Refuses WantOfMemory (next_item line.entry)) }
    {
        let word = line.item()?;
        Ok(Worded {
            alloc,
            word,
            rest: line,
        })
    }

    /// The line must be its first word alone.
    pub(crate) fn only(&self, text: &[u8]) -> Result<(), Stop>
        ensures { Gives WantOfMemory (only text.now self.now.word self.now.rest) result }
    {
        self.word.expect(text)?;
        self.rest.end()
    }
}
