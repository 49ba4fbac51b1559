//! Examples, worked out by hand.

mod aux;
mod files;
mod formats;
mod lexemes;
mod names;
mod splitting;
mod texts;
