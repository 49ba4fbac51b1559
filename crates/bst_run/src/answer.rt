//! What the words of a command come to.

ghost use Rattle.std.specs.Prelude.{◌≡◌};
ghost use Rattle.bst_run.specs.Answers as rule;

use crate::outcome::Outcome;
use bv_base::seq::Seq;
use bv_base::text::Text;
use entry_list::joined::Joined;
use name_table::style::Style;
use std::marker::Model;

/// A run before its first step: the style, the joined entries, the warnings of the databases, what its log begins with, and
/// how many steps are asked for.
#[derive(Drop)]
pub struct Run {
    pub style: Style,
    pub found: Joined,
    pub reading: Seq<Text>,
    pub front: Text,
    pub steps: u32,
}

/// How an outcome is given: with its texts, or as a run that is still to go.
#[derive(Drop)]
pub enum Given {
    Made(Outcome),
    Asked(Run),
}

/// What the words of a command come to. Contracts see the outcome alone, whether its texts are made or come while it is
/// delivered.
#[derive(Drop)]
pub struct Answer {
    given: Given,
}

impl Model for Answer {
    ghost use Rattle.bst_run.specs.declared.outcome.Outcome.{Outcome};
    ghost use Rattle.bst_run.specs.Answers.{outcome_of};

    ghost Value = { Outcome };

    ghost view = { λ a. outcome_of a.given };
}

impl Answer {
    /// An outcome whose texts are made.
    pub fn made(outcome: Outcome) -> Answer
        ensures { result ≡ outcome }
    {
        Answer {
            given: Given::Made(outcome),
        }
    }

    /// The outcome of a run.
    pub fn asked(run: Run) -> Answer
        ensures { result ≡ rule.ran run }
    {
        Answer {
            given: Given::Asked(run),
        }
    }

    /// How it is given.
    pub fn into_given(self) -> Given
        ensures { rule.outcome_of result ≡ self }
    {
        self.given
    }
}
