//! The name that was taken apart last.

ghost use Rattle.std.specs.Prelude.{◌≡◌, false, IfSome};
ghost use Rattle.name_format.specs.Numbered.{IsParted};

use name_split::spans::{Parts, Span};
use std::alloc::Global;
use std::marker::Model;

/// The name of a text that was taken apart last, so that it isn't looked for and taken apart again where it is asked for once
/// more: a style writes one name by several patterns. Contracts see whether there is one. At first there is none.
#[derive(Drop)]
pub struct KnownName {
    is_known: bool,
    /// The text, and the number of the name in it.
    text: Vec<u8>,
    index: i32,
    name: Vec<u8>,
    parts: Parts,
}

impl Model for KnownName {
    ghost use Rattle.std.specs.Prelude.{◌≡◌, Bool, true};
    ghost use Rattle.name_format.specs.Numbered.{IsParted};

    ghost Value = { Bool };

    ghost view = { λ k. k.is_known };

    ghost invariant = { λ k. k.is_known ≡ true → IsParted k.text.items k.index k.name.items k.parts };
}

impl KnownName {
    /// No name.
    pub fn new(alloc: Global) -> KnownName
        ensures { result ≡ false }
    {
        let none = Span { start: 0, end: 0 };
        KnownName {
            is_known: false,
            text: Vec::new(alloc),
            index: 0,
            name: Vec::new(alloc),
            parts: Parts {
                first: none,
                von: none,
                last: none,
                jr: none,
            },
        }
    }

    /// The name of a text with a number and its parts, where it is the one that was taken apart last.
    pub(crate) fn find(&self, text: &[u8], index: i32) -> Option<(&[u8], Parts)>
        ensures { IfSome result (λ found. IsParted text.now index found.0.now found.1) }
    {
        if self.is_known && self.index == index && self.text.as_slice() == text {
            Some((self.name.as_slice(), self.parts))
        } else {
            None
        }
    }

    /// Keeps a name of a text with a number and its parts, if there is memory for it, and else none.
    pub(crate) fn keep(&mut self, text: &[u8], index: i32, name: &[u8], parts: Parts)
        requires { IsParted text.now index name.now parts }
    {
        self.is_known = false;
        self.text.clear();
        self.name.clear();
        if self.text.extend_from_slice(text).is_err() {
            return;
        }
        if self.name.extend_from_slice(name).is_err() {
            return;
        }
        self.index = index;
        self.parts = parts;
        self.is_known = true;
    }
}
