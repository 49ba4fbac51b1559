//! Linear rows and steps.

use bv_base::copied::Copied;
use bv_base::memory::NoMemory;
use bv_base::seq::Seq;
use std::alloc::Global;

/// An unknown of a row: what is known of a symbol of a state, or of the list of entries.
#[derive(Clone, Copy, Debug, PartialEq, Eq)]
pub enum Term {
    /// The integer that a symbol stands for, and 0 where it stands for no integer.
    Value(u32),
    /// The length of the string that a symbol stands for, and 0 where it stands for no string.
    Length(u32),
    /// The count of names in the string that a symbol stands for, and 0 where it stands for no string.
    Names(u32),
    /// How many entries the command visited before the present one.
    Pos,
    /// How many entries there are.
    Count,
}

/// A term and how often it is taken.
#[derive(Clone, Copy, Debug, PartialEq, Eq)]
pub struct Part {
    pub coefficient: i64,
    pub term: Term,
}

/// The claim that the constant and the sum of the parts are together at least 0.
#[derive(Debug, Drop)]
pub struct Row {
    pub constant: i64,
    pub parts: Seq<Part>,
}

impl Copied for Row {
    fn copied(&self, alloc: Global) -> Result<Row, NoMemory> {
        Ok(Row {
            constant: self.constant,
            parts: Seq::from_vec(self.parts.as_slice().to_vec(alloc)?),
        })
    }
}

/// A row, by its number from 0, and how often it is taken.
#[derive(Clone, Copy, Debug, PartialEq, Eq)]
pub struct StepUse {
    pub row: u32,
    pub times: u32,
}

/// Rows that are added up, and the number that their sum is divided by.
#[derive(Debug, Drop)]
pub struct Step {
    pub uses: Seq<StepUse>,
    pub divisor: u32,
}
