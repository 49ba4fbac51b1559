//! The machine that runs a style step by step (docs/MACHINE.md).
#![tactic(auto)]

mod assign;
mod at_once;
mod built_in;
mod commands;
mod effects;
mod entries;
mod entry_states;
mod fields;
mod flow;
mod frame_list;
mod frames;
mod held;
pub mod laws;
mod lines;
mod logs;
pub mod machine;
mod moves;
mod names;
mod numbers;
mod opening;
mod operands;
mod order;
mod packed_values;
mod page;
mod prepared;
mod renewal;
mod rows;
mod stack;
mod state;
mod stop;
mod surroundings;
mod texts;
mod tokens;
mod typed;
mod values;
mod variables;
