//! The lexemes of a style: braces, integers, texts, quoted names and names, each as a slice of the source.
#![tactic(auto)]

mod cursor;
pub mod laws;
pub mod lexeme;
pub mod lexer;
mod pieces;
