//! The frames that are entered, the innermost one apart from the others.

ghost use Rattle.std.specs.Prelude.{◌≡◌, ◌+◌, ◌≤◌, ◌∷◌, [], drop, false, map, true, IsOk, OnErr, OnOk};
ghost use Rattle.name_table.specs.declared.style.Style.{Style};
ghost use Rattle.bst_meaning.specs.Config.{Config};
ghost use Rattle.bst_meaning.specs.Machine as rule;
ghost use Rattle.bst_step.specs.AtOnce.{AreAhead, with_tokens};
ghost use Rattle.bst_step.specs.Frames.{has_none, marks_after_next, next_takes_room, with_next, frame_of, StandsAlone};
ghost use Rattle.bst_step.specs.MarkRules as rules;
ghost use Rattle.bst_step.specs.Marks.{Marks};
ghost use Rattle.bst_step.specs.Room.{frames_take_room};

use crate::stack::Stack;
use crate::state::{Frame, Part};
use bv_base::memory::NoMemory;
use bv_base::place::Place;
use name_table::style::{Token, TokenAt};
use std::alloc::Global;
use std::marker::Model;

/// What is left to do of a step, once the innermost frame has moved on.
pub enum Next {
    /// Executes a token, which its frame no longer has.
    Token(Token, Place),
    /// Returns from a frame, which is gone, and is no part of a `while$`.
    Left,
    /// Returns from a frame, which is gone.
    Return(Part, Place),
    /// Goes on with the first command, since no frame is left.
    Outer,
}

/// The frames that are entered. Contracts see the list of them, the innermost first, and how many more fit with no
/// allocation.
#[derive(Drop)]
pub struct Frames<'a> {
    /// The innermost frame, where one is entered. It moves on here, so that a token costs no push and no pop.
    innermost: Frame<'a>,
    /// Whether a frame is entered. Where none is, no token is left in `innermost`, so that a step looks here only once it has
    /// found none.
    entered: bool,
    /// Those to which it returns.
    outer: Stack<Frame<'a>>,
}

impl<'a> Model for Frames<'a> {
    ghost use Rattle.bst_step.specs.Frames.{frames_in, AreKept};
    ghost use Rattle.bst_step.specs.Stack.{Pile};
    ghost use Rattle.bst_step.specs.declared.state.Frame.{Frame};

    ghost Value = { Pile Frame };

    ghost view = { λ f. record { items = frames_in f.entered f.innermost f.outer.items; room = f.outer.room } };

    ghost invariant = { λ f. AreKept f.entered f.innermost f.outer.items };
}

impl<'a> Frames<'a> {
    /// No frame.
    pub fn new(alloc: Global) -> Frames<'a>
        ensures { result.items ≡ [] }
    {
        Frames {
            innermost: Frame::default(),
            entered: false,
            outer: Stack::new(alloc),
        }
    }

    /// Whether no frame is entered.
    #[inline(always)]
    pub fn is_empty(&self) -> bool
        ensures { result ≡ has_none self.now.items }
    {
        !self.entered
    }

    /// Whether the innermost frame has a token left.
    #[inline(always)]
    pub fn has_token(&self) -> bool
        ensures { result ≡ true → has_none self.now.items ≡ false }
    {
        !self.innermost.tokens.is_empty()
    }

    /// Makes room for so many frames more. Where it is refused, the frames stay.
    pub fn reserve(&mut self, count: usize) -> Result<(), NoMemory>
        ensures fits { OnOk result (count ≤ self.new.room) }
        ensures more { self.old.room ≤ self.new.room }
        ensures items { self.new.items ≡ self.old.items }
    {
        self.outer.reserve(count)
    }

    /// Enters a frame, in which a call has no token beside it. It is refused only where there is no room, and then nothing
    /// changes.
    #[inline(always)]
    pub fn push(&mut self, frame: Frame<'a>) -> Result<(), NoMemory>
        requires { StandsAlone frame }
        ensures moved { OnOk result (self.new.items ≡ frame.entry ∷ self.old.items) }
        ensures refused { OnErr result (self.new ≡ self.old) }
        ensures fits { 1 ≤ self.old.room → IsOk result }
        ensures room { self.old.room ≤ self.new.room + 1 }
    {
        if self.entered {
            self.outer.push(&self.innermost)?;
        }
        self.innermost = frame;
        self.entered = true;
        Ok(())
    }

    /// Moves the innermost frame on in its place, past its first token, or returns from it where it has none left.
    #[inline(always)]
    pub fn next(&mut self) -> Next
        ensures moved { (style : Style) (c : Config) → with_next style result (record c { frames = map frame_of self.new.items }) ≡
            rule.going_step style (map frame_of self.old.items) (record c { frames = map frame_of self.old.items }) }
        ensures marks { (style : Style) (c : Config) (m : Marks) → marks_after_next style result (record c { frames = map frame_of self.new.items }) m ≡
            rules.going_marks style (map frame_of self.old.items) (record c { frames = map frame_of self.old.items }) m }
        ensures takes { (style : Style) (c : Config) → next_takes_room style result (record c { frames = map frame_of self.new.items }) ≡
            frames_take_room style (map frame_of self.old.items) (record c { frames = map frame_of self.old.items }) }
        ensures room { self.old.room ≤ self.new.room }
    {
        if let [first, tokens @ ..] = self.innermost.tokens {
            self.innermost.tokens = tokens;
            return Next::Token(first.token, first.place);
        }
        if !self.entered {
            return Next::Outer;
        }
        match self.innermost.call {
            Some((name, at)) => {
                self.innermost.call = None;
                Next::Token(Token::Call(name), at)
            }
            None => {
                if let Part::Whole = self.innermost.part {
                    self.leave();
                    return Next::Left;
                }
                let Frame { place, part, .. } = self.innermost;
                self.leave();
                Next::Return(part, place)
            }
        }
    }

    /// The tokens that the innermost frame has left. None are given where a name is left to call, or no frame is entered.
    #[inline(always)]
    pub fn tokens(&self) -> &'a [TokenAt]
        ensures { AreAhead result.now (map frame_of self.now.items) }
    {
        self.innermost.tokens
    }

    /// Leaves these tokens to the innermost frame, where one is entered.
    #[inline(always)]
    pub fn go_to(&mut self, tokens: &'a [TokenAt])
        requires { has_none self.old.items ≡ false }
        ensures moved { map frame_of self.new.items ≡ with_tokens tokens.now (map frame_of self.old.items) }
        ensures room { self.new.room ≡ self.old.room }
    {
        self.innermost.tokens = tokens;
        self.innermost.call = None;
    }

    /// Leaves the innermost frame, where one is entered.
    #[inline(always)]
    fn leave(&mut self)
        ensures items { self.new.items ≡ drop 1 self.old.items }
        ensures room { self.old.room ≤ self.new.room }
    {
        match self.outer.top() {
            Some(frame) => {
                self.innermost = frame;
                self.outer.drop_top(1);
            }
            None => {
                self.innermost.tokens = &[];
                self.entered = false;
            }
        }
    }
}
