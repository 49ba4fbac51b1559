//! The page that a run writes, which events are added to part by part (docs/MACHINE.md, "How it is run").

ghost use Rattle.std.specs.Prelude.{◌≡◌, ◌++◌, ◌∷◌, ◌≤◌, [], length, map, option_map, IfOk, OnOk};
ghost use Rattle.bst_meaning.specs.Config as config;
ghost use Rattle.bst_meaning.specs.Lines as rule;
ghost use Rattle.bst_step.specs.State.{event_of};
ghost use Rattle.bst_step.specs.Lines.{added, finished_in, first, page_from, page_in};

use crate::lines::{Cut, cut_of, indent, push_last, push_line};
use bv_base::memory::NoMemory;
use bv_base::packed_texts::PackedTexts;
use std::alloc::Global;

/// The finished lines, each with its line end, and what was written since the last of them was ended. It is broken only
/// where its line ends.
#[derive(Drop)]
pub struct Page {
    text: Vec<u8>,
    buffer: Vec<u8>,
}

/// The finished lines of what was written, each with its line end.
#[tactic(auto, using(crate::proofs::AddedPages::whole_page))]
pub fn lines_of(alloc: Global, events: &PackedTexts) -> Result<Vec<u8>, NoMemory>
    ensures { IfOk result (λ v. v.items ≡ rule.lines_after (map event_of events.now)) }
{
    let mut page = Page::new(alloc);
    page.add_all(events)?;
    page.finish()
}

impl Page {
    /// A page on which nothing is written.
    pub fn new(alloc: Global) -> Page
        ensures { page_in result ≡ first }
    {
        Page {
            text: Vec::new(alloc),
            buffer: Vec::new(alloc),
        }
    }

    /// The lines that are finished so far, each with its line end.
    pub fn text(&self) -> &[u8]
        ensures { result.now ≡ finished_in self.now }
    {
        self.text.as_slice()
    }

    /// Lets the lines go that are finished so far. Their room stays.
    pub fn clear_text(&mut self)
        ensures none { finished_in self.new ≡ [] }
        ensures rest { page_in self.old
            ≡ record { text = finished_in self.old ++ (page_in self.new).text; buffer = (page_in self.new).buffer } }
    {
        self.text.clear();
    }

    /// The lines that are finished, each with its line end. What is still in the buffer belongs to no line, but for those
    /// into which it is broken.
    pub fn finish(self) -> Result<Vec<u8>, NoMemory>
        ensures { IfOk result (λ v. v.items ≡ (page_in self).text) }
    {
        let mut page = self;
        page.break_buffer()?;
        Ok(page.text)
    }

    /// Adds events in order. Where memory is wanting, the first of them may have been added.
    pub(crate) fn add_all(&mut self, events: &PackedTexts) -> Result<(), NoMemory>
        ensures { OnOk result (page_in self.new ≡ added (page_in self.old) (map event_of events.now)) }
    {
        for at in 0..events.len() {
            self.add(events.at(at))?;
        }
        Ok(())
    }

    /// Adds a text to the buffer, or ends a line.
    #[tactic(auto, using(crate::proofs::AddedPages::written_behind))]
    fn add(&mut self, event: Option<&[u8]>) -> Result<(), NoMemory>
        ensures { OnOk result (page_in self.new ≡ added (page_in self.old) (event_of (option_map (λ bytes. bytes.now) event.entry) ∷ [])) }
    {
        match event {
            Some(bytes) => {
                self.buffer.extend_from_slice(bytes)?;
                Ok(())
            }
            None => self.end_line(),
        }
    }

    /// Breaks the buffer as often as it can be, and gives where what is left of it begins.
    fn break_buffer(&mut self) -> Result<usize, NoMemory>
        ensures broken { IfOk result (λ start. page_from start self.new ≡ page_in self.old) }
        ensures within { IfOk result (λ start. start ≤ length self.new.buffer.items) }
    {
        let mut start = 0;
        let mut most = self.buffer.as_slice().len();
        while most > 0 {
            let (_, left) = self.buffer.as_slice().split_at(start);
            let Some(cut) = cut_of(left) else {
                return Ok(start);
            };
            let Cut { line, next } = cut;
            push_line(&mut self.text, line)?;
            start += next;
            indent(&mut self.buffer, start);
            most -= 1;
        }
        Ok(start)
    }

    /// Breaks the buffer, finishes what is left of it as a line, and empties it.
    #[tactic(auto, using(crate::proofs::AddedPages::last_behind))]
    fn end_line(&mut self) -> Result<(), NoMemory>
        ensures { OnOk result (page_in self.new ≡ added (page_in self.old) (config.EndedLine ∷ [])) }
    {
        let start = self.break_buffer()?;
        let (_, left) = self.buffer.as_slice().split_at(start);
        push_last(&mut self.text, left)?;
        self.buffer.clear();
        Ok(())
    }
}
