//! Files in memory, whose listed calls fail and no other.

ghost use Rattle.std.specs.Prelude.{◌≡◌, ◌<◌, ◌≤◌, [], ◌∷◌, ◌++◌, true, false, Some, None, length, min, take, is_err, option_map, OnOk, OnErr, IfOk, IsErrOf};
ghost use Rattle.std.specs.FinMap.{get, insert};
ghost use Rattle.bv_base.specs.MemoryView.{listing_of};

use crate::files::{BeginAnswer, Begun, Failed, Files};
use crate::memory::NoMemory;
use crate::text::Text;
use std::alloc::Global;
use std::marker::Model;

/// Files in memory. They tell their bytes. All calls of `begin` and `read` are counted together, from 1.
#[derive(Drop)]
pub struct MemFiles {
    alloc: Global,
    files: Vec<MemFile>,
    calls: u64,
    failing: Vec<u64>,
    begun: Vec<Begun>,
    opened: Vec<u8>,
    at: usize,
    faults: u64,
}

/// A file and its name.
#[derive(Drop)]
struct MemFile {
    name: Text,
    bytes: Text,
}

impl Model for MemFiles {
    ghost use Rattle.bv_base.specs.Memory.{FileMemory, file_memory_code};

    ghost Value = { FileMemory };

    ghost coded = { file_memory_code };

    ghost use Rattle.bv_base.specs.MemoryView.{memory_of, IsKept};

    ghost view = { memory_of };

    ghost invariant = { IsKept };
}

impl MemFiles {
    ghost use Rattle.bv_base.specs.Memory.{no_files};

    /// No files, no failing calls, and no call made.
    pub fn new(alloc: Global) -> MemFiles
        ensures { result ≡ no_files }
    {
        MemFiles {
            alloc,
            files: Vec::new(alloc),
            calls: 0,
            failing: Vec::new(alloc),
            begun: Vec::new(alloc),
            opened: Vec::new(alloc),
            at: 0,
            faults: 0,
        }
    }

    /// Adds a file, which replaces an earlier one of its name. A refusal changes nothing, and what was begun
    /// keeps its bytes.
    pub fn add(&mut self, name: &str, bytes: &[u8]) -> Result<(), NoMemory>
        ensures ok { OnOk result (self.new ≡ record self.old { listing = insert self.old.listing name.now bytes.now }) }
        ensures err { OnErr result (self.new ≡ self.old) }
    {
        let file = MemFile {
            name: Text::from_slice(self.alloc, name.as_bytes())?,
            bytes: Text::from_slice(self.alloc, bytes)?,
        };
        self.files.insert(0, file)?;
        Ok(())
    }

    /// Lets the call of that number fail. A refusal changes nothing.
    pub fn fail_at(&mut self, call: u64) -> Result<(), NoMemory>
        ensures ok { OnOk result (self.new ≡ record self.old { failing = self.old.failing ++ call ∷ [] }) }
        ensures err { OnErr result (self.new ≡ self.old) }
    {
        self.failing.push(call)?;
        Ok(())
    }

    /// The names that were begun, in order.
    pub fn begun(&self) -> &[Begun]
        ensures { result.now ≡ self.now.begun }
    {
        self.begun.as_slice()
    }
}

impl Files for MemFiles {
    ghost use Rattle.bv_base.specs.Outside.{Rose};
    ghost use Rattle.bv_base.specs.Memory.{fails_after, after_begin, after_read};

    ghost told = { λ m. Some m.listing };

    ghost rest = { λ m. m.rest };

    ghost begun = { λ m. m.begun };

    ghost faults = { λ m. m.faults };

    fn begin(&mut self, name: &str) -> Result<(), BeginAnswer>
        ensures listed { IsErrOf result BeginAnswer.Failed → fails_after self.old.failing self.old.calls ≡ true }
        ensures unlisted { OnOk result (fails_after self.old.failing self.old.calls ≡ false) }
        ensures absent_unlisted { IsErrOf result BeginAnswer.Absent → fails_after self.old.failing self.old.calls ≡ false }
        ensures absent { IsErrOf result BeginAnswer.Absent → get self.old.listing name.now ≡ None }
        ensures found { OnOk result (get self.old.listing name.now ≡ Some self.new.rest) }
        ensures after { self.new ≡ after_begin self.old name.now self.new.rest result }
        ensures count { self.old.faults ≤ self.new.faults }
        ensures failed { IsErrOf result BeginAnswer.Failed → Rose self.old.faults self.new.faults }
        ensures unbegun { self.old.begun ≡ [] → self.old.rest ≡ [] }
    {
        self.calls = self.calls.saturating_add(1);
        let Ok(text) = Text::from_slice(self.alloc, name.as_bytes()) else {
            return Err(BeginAnswer::NoMemory);
        };
        if self.begun.reserve(1).is_err() {
            return Err(BeginAnswer::NoMemory);
        }
        let fails = self.failing.contains(&self.calls);
        if fails {
            self.faults = self.faults.saturating_add(1);
            self.begun.push_reserved(Begun {
                name: text,
                absent: false,
            });
            return Err(BeginAnswer::Failed);
        }
        let Some(bytes) = find_file(self.files.as_slice(), name.as_bytes()) else {
            self.begun.push_reserved(Begun {
                name: text,
                absent: true,
            });
            return Err(BeginAnswer::Absent);
        };
        let Ok(opened) = bytes.to_vec(self.alloc) else {
            return Err(BeginAnswer::NoMemory);
        };
        self.opened = opened;
        self.at = 0;
        self.begun.push_reserved(Begun {
            name: text,
            absent: false,
        });
        Ok(())
    }

    fn read(&mut self, into: &mut [u8]) -> Result<usize, Failed>
        requires { 0 < length into.old }
        ensures answer { is_err result ≡ fails_after self.old.failing self.old.calls }
        ensures amount { IfOk result (λ n. n ≡ min (length self.old.rest) (length into.old)) }
        ensures bytes { IfOk result (λ n. self.old.rest ≡ take n into.new ++ self.new.rest) }
        ensures after { self.new ≡ after_read self.old result }
        ensures count { self.old.faults ≤ self.new.faults }
        ensures failed { OnErr result (Rose self.old.faults self.new.faults) }
        ensures unbegun { self.old.begun ≡ [] → self.old.rest ≡ [] }
    {
        self.calls = self.calls.saturating_add(1);
        if self.failing.contains(&self.calls) {
            self.faults = self.faults.saturating_add(1);
            return Err(Failed);
        }
        let count = take_front(&self.opened[self.at..], into);
        self.at += count;
        Ok(count)
    }
}

/// The bytes of the first file of that name.
fn find_file<'a>(files: &'a [MemFile], name: &[u8]) -> Option<&'a [u8]>
    ensures { option_map (λ bytes. bytes.now) result ≡ get (listing_of files.now) name.now }
{
    let mut rest = files;
    while let [first, after @ ..] = rest {
        if name == first.name.as_slice() {
            return Some(first.bytes.as_slice());
        }
        rest = after;
    }
    None
}

/// Copies as many bytes as both have, and answers how many.
fn take_front(from: &[u8], into: &mut [u8]) -> usize
    ensures amount { result ≡ min (length from.now) (length into.old) }
    ensures bytes { take result into.new ≡ take result from.now }
{
    let count = from.len().min(into.len());
    into[..count].copy_from_slice(&from[..count]);
    count
}
