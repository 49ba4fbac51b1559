//! What changes while a style runs.

ghost use Rattle.std.specs.Prelude.{◌≡◌, ◌+◌, ◌≤◌, [], ◌∷◌, option_map, IsOk, OnOk};
ghost use Rattle.bst_meaning.specs.Machine as rule;
ghost use Rattle.bst_step.specs.Held.{value_of};
ghost use Rattle.bst_step.specs.Marks as mark;
ghost use Rattle.bst_step.specs.Marks.{lent_mark};
ghost use Rattle.bst_step.specs.State.{config_of, visit_in, LeavesRoom};
ghost use Rattle.bst_step.specs.Frames.{part_of, tokens_left};
ghost use Rattle.bst_step.specs.Surroundings.{context_in};

use crate::frame_list::Frames;
use crate::held::Operand;
use crate::surroundings::Surroundings;
use crate::typed::TypedEntry;
use crate::values::Values;
use bst_meaning::fault::Fault;
use bst_meaning::value::Target;
use bv_base::memory::NoMemory;
use bv_base::packed_texts::PackedTexts;
use bv_base::place::Place;
use bv_base::text::Text;
use entry_store::entry::Entry;
use name_table::names::NameId;
use name_table::style::{CommandAt, Style, TokenAt};
use std::alloc::Global;

/// The part of a `while$` that a frame runs, with its two functions.
#[derive(Clone, Copy)]
pub enum Part {
    /// No part of a `while$`.
    Whole,
    /// The test, which is entered first, and the body.
    Testing(Target, Target),
    /// The body, after the test.
    Turning(Target, Target),
}

/// What is entered: a name to call at a place, or a slice of the style.
#[derive(Clone, Copy)]
pub enum Rest<'a> {
    Call(NameId, Place),
    Tokens(&'a [TokenAt]),
}

/// What is left of a body, and where it was entered.
#[derive(Clone, Copy)]
pub struct Frame<'a> {
    /// The rest of a slice of the style.
    pub tokens: &'a [TokenAt],
    /// The name that is left to call, and where. No token is left beside it.
    pub call: Option<(NameId, Place)>,
    pub place: Place,
    pub part: Part,
}

/// How far ITERATE or REVERSE has come.
#[derive(Clone, Copy)]
pub struct Visit {
    pub backwards: bool,
    pub visited: usize,
}

/// Where an execution error stands: its place in the style, and the position of the visited entry in the list with
/// which the run opened, if one is visited.
#[derive(Clone, Copy, Debug, PartialEq, Eq)]
pub struct Site {
    pub place: Place,
    pub entry: Option<u64>,
}

/// An execution error that has stopped the machine.
#[derive(Clone, Copy)]
pub struct Stopped {
    pub fault: Fault,
    pub site: Site,
}

/// The configuration of a run.
#[derive(Drop)]
pub struct State<'a> {
    pub alloc: Global,
    pub preamble: &'a [u8],
    /// The commands left, and declarations, which take no step.
    pub commands: &'a [CommandAt],
    /// Whether a call of the first command runs.
    pub running: bool,
    pub frames: Frames<'a>,
    pub values: Values<'a>,
    pub visit: Option<Visit>,
    /// What was written: each text, and for each end of a line a missing one.
    pub events: PackedTexts,
    pub log: Vec<Text>,
    pub stopped: Option<Stopped>,
}

impl<'a> Default for Frame<'a> {
    fn default() -> Frame<'a>
        ensures { result.tokens.now ≡ [] }
    {
        Frame {
            tokens: &[],
            call: None,
            place: Place::START,
            part: Part::Whole,
        }
    }
}

impl<'a> State<'a> {
    /// The place in the list of entries of the visited entry.
    pub fn visited_index(&self) -> Option<usize>
        ensures { result ≡ rule.visited_index (config_of self.now) }
    {
        if !self.running {
            return None;
        }
        match self.visit {
            Some(visit) => Some(next_index(visit, self.values.entries())),
            None => None,
        }
    }

    /// The visited entry.
    pub fn visited_entry(&self) -> Option<Entry<'a>>
        ensures { result ≡ option_map (λ e. e.entry) (rule.visited_entry (config_of self.now)) }
    {
        match self.visited_typed() {
            Some(typed) => Some(typed.entry().copied()),
            None => None,
        }
    }

    /// The visited entry, with the hint to its type.
    pub fn visited_typed(&self) -> Option<TypedEntry<'a>>
        ensures { result ≡ option_map (λ e. e.entry) (rule.visited_entry (config_of self.now)) }
    {
        match self.visited_index() {
            Some(at) => self.values.entry(at),
            None => None,
        }
    }

    /// The position of the visited entry in the list with which the run opened.
    fn visited_position(&self) -> Option<u64>
        ensures { result ≡ option_map (λ e. e.position) (rule.visited_entry (config_of self.now)) }
    {
        match self.visited_index() {
            Some(at) => self.values.position(at),
            None => None,
        }
    }

    /// The value of a field of the visited entry.
    pub fn visited_field(&self, name: NameId) -> Option<Operand<'a>>
        ensures { option_map value_of result ≡
            option_map (λ e. rule.field_in name e.entry.fields) (rule.visited_entry (config_of self.now)) }
    {
        match self.visited_index() {
            Some(at) => self.values.field(at, name),
            None => None,
        }
    }

    /// What surrounds a call of a built-in function.
    pub fn surroundings(&self, style: &'a Style) -> Surroundings<'a>
        ensures { context_in result ≡ rule.context_of style.now (config_of self.now) }
    {
        Surroundings {
            alloc: self.alloc,
            style,
            preamble: self.preamble,
            entry: self.visited_entry(),
        }
    }

    /// Makes room for so many frames and values more. Where it is refused, there may be more room for frames, and all else is
    /// as it was.
    pub fn reserve(&mut self, count: usize) -> Result<(), NoMemory>
        ensures frames { OnOk result (count ≤ self.new.frames.room) }
        ensures values { OnOk result (count ≤ self.new.values.room) }
        ensures same { config_of self.new ≡ config_of self.old }
        ensures marks { self.new.values.marks ≡ self.old.values.marks }
        ensures room { LeavesRoom 0 self.old self.new }
    {
        self.frames.reserve(count)?;
        self.values.reserve(count)
    }

    /// Stops by an execution error at a place.
    pub fn stop(&mut self, fault: Fault, place: Place)
        ensures moved { config_of self.new ≡ rule.stopped_by fault place (config_of self.old) }
        ensures frames { self.new.frames ≡ self.old.frames }
        ensures values { self.new.values ≡ self.old.values }
    {
        let entry = self.visited_position();
        self.stopped = Some(Stopped {
            fault,
            site: Site { place, entry },
        });
    }

    /// Pushes a value whose bytes are lent.
    #[inline(always)]
    pub fn push(&mut self, value: Operand<'a>) -> Result<(), NoMemory>
        ensures moved { OnOk result (config_of self.new ≡ rule.with_value (value_of value.entry) (config_of self.old)) }
        ensures entries { self.new.values.entries ≡ self.old.values.entries }
        ensures marks { OnOk result (self.new.values.marks ≡ mark.pushed (lent_mark (value_of value.entry)) self.old.values.marks) }
        ensures fits { 1 ≤ self.old.values.room → IsOk result }
        ensures room { LeavesRoom 1 self.old self.new }
    {
        self.values.push(value)
    }

    /// Enters what is to be executed, at a place.
    #[inline(always)]
    pub fn enter(&mut self, rest: Rest<'a>, place: Place, part: Part) -> Result<(), NoMemory>
        ensures moved { OnOk result (config_of self.new ≡ rule.with_frame (tokens_left rest.entry) place (part_of part) (config_of self.old)) }
        ensures values { self.new.values ≡ self.old.values }
        ensures fits { 1 ≤ self.old.frames.room → IsOk result }
        ensures room { LeavesRoom 1 self.old self.new }
    {
        let frame = match rest {
            Rest::Call(name, at) => Frame {
                tokens: &[],
                call: Some((name, at)),
                place,
                part,
            },
            Rest::Tokens(tokens) => Frame {
                tokens,
                call: None,
                place,
                part,
            },
        };
        self.frames.push(frame)
    }
}

/// The place in a list of entries, which has so many, of the one that is next in a visit.
pub fn next_index(visit: Visit, entries: usize) -> usize
    ensures { result ≡ rule.next_index (visit_in visit) entries }
{
    if visit.backwards {
        entries.saturating_sub(visit.visited).saturating_sub(1)
    } else {
        visit.visited
    }
}
