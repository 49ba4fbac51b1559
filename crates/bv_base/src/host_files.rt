//! The files of the machine that the program runs on.

ghost use Rattle.std.specs.Prelude.{◌≡◌, [], None};

use crate::files::{BeginAnswer, Begun, Failed, Files};
use crate::text::Text;
use std::alloc::Global;
use std::io::Read;
use std::{fs, io, rt};

/// Files by their paths. Nothing is told of their bytes.
#[derive(Drop)]
pub struct HostFiles<'a, R: rt::Files> {
    alloc: Global,
    host: &'a R,
    file: Option<R::File>,
    begun: Vec<Begun>,
    faults: u64,
}

impl<'a, R: rt::Files> HostFiles<'a, R> {
    /// No file was begun, and nothing has failed.
    pub fn new(alloc: Global, host: &'a R) -> HostFiles<'a, R>
        ensures begun { result.begun.items ≡ [] }
        ensures faults { result.faults ≡ 0 }
    {
        HostFiles {
            alloc,
            host,
            file: None,
            begun: Vec::new(alloc),
            faults: 0,
        }
    }
}

impl<'a, R: rt::Files> Files for HostFiles<'a, R> {
    ghost told = { λ _. None };

    ghost rest = { λ _. [] };

    ghost begun = { λ h. h.begun.items };

    ghost faults = { λ h. h.faults };

    /// Absent is an error of the kind NotFound, and Failed every other error. Where memory is wanting no file is
    /// opened.
    fn begin(&mut self, name: &str) -> Result<(), BeginAnswer> {
        let Ok(text) = Text::from_slice(self.alloc, name.as_bytes()) else {
            return Err(BeginAnswer::NoMemory);
        };
        if self.begun.reserve(1).is_err() {
            return Err(BeginAnswer::NoMemory);
        }
        match fs::open(self.host, name) {
            Ok(file) => {
                self.file = Some(file);
                self.begun.push_reserved(Begun {
                    name: text,
                    absent: false,
                });
                Ok(())
            }
            Err(error) => {
                let absent = error.kind() == io::ErrorKind::NotFound;
                self.begun.push_reserved(Begun { name: text, absent });
                if absent {
                    return Err(BeginAnswer::Absent);
                }
                self.faults = self.faults.saturating_add(1);
                Err(BeginAnswer::Failed)
            }
        }
    }

    fn read(&mut self, into: &mut [u8]) -> Result<usize, Failed> {
        let Some(file) = &mut self.file else {
            return Ok(0);
        };
        match file.read(into) {
            Ok(count) => Ok(count),
            Err(_) => {
                self.faults = self.faults.saturating_add(1);
                Err(Failed)
            }
        }
    }
}
