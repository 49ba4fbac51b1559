//! The words `gen SEED COUNT`: a style is made, read, and shown by a certificate that is found.

ghost use Rattle.std.specs.Prelude.{◌≡◌, ◌≤◌, ◌++◌, IfOk, IfErr, OnOk};
ghost use Rattle.std.specs.String.{string_bytes};
ghost use Rattle.bst_run.specs.Generated as rule;
ghost use Rattle.bst_run.specs.Stops as stops;
ghost use Rattle.bst_run.specs.Subjects.{IsSound};

use crate::files::style::style_from;
use crate::inferring::{found, unrejected};
use crate::outcome::Outcome;
use crate::report::generated;
use crate::stop::Stop;
use crate::words::MOST_FUNCTIONS;
use bv_base::memory::NoMemory;
use infer::default_cond;
use name_table::style::Style;
use std::alloc::Global;

/// The fields, and the function before the first.
const HEAD: &str = "ENTRY{title author}{}{}\nFUNCTION{f0}{skip$}\n";

/// A body that writes the title of an entry that has one.
const WRITES_TITLE: &str = "title empty$ 'skip$ {title write$ newline$} if$";

/// A body that writes the author of an entry that has one.
const WRITES_AUTHOR: &str = "author duplicate$ missing$ 'pop$ 'write$ if$ newline$";

/// Makes a style, reads it, and shows it by a certificate that is found under its default condition.
pub fn make_and_show(alloc: Global, seed: u32, count: u32) -> Result<Outcome, Stop>
    requires some { 1 ≤ count }
    requires few { count ≤ MOST_FUNCTIONS }
    ensures decides { stops.Decides (rule.gen_outcome seed count) result }
    ensures decided { IfOk result (λ outcome. stops.IsDecided outcome.status) }
    ensures safe { IfOk result (rule.IsGenerating seed count) }
    ensures inside { IfErr result stops.IsInside }
{
    let source = generate(alloc, seed, count)?;
    let style = style_from(alloc, source.as_slice())?;
    show(alloc, &style)?;
    Ok(generated(alloc, count, source.len())?)
}

/// Shows a style by a certificate that is found under its default condition, of which the rules hold.
fn show(alloc: Global, style: &Style) -> Result<(), Stop>
    requires sound { IsSound style.now }
    ensures decides { stops.Decides (rule.shown_by_default style.now) result }
    ensures shown { IfOk result (λ _. rule.IsShown style.now) }
    ensures inside { IfErr result stops.IsInside }
{
    let cond = default_cond(alloc, style)?;
    let cert = found(alloc, style, cond)?;
    unrejected(alloc, style, &cert)
}

/// The text of a style of so many functions, made from a seed.
pub fn generate(alloc: Global, seed: u32, count: u32) -> Result<Vec<u8>, NoMemory>
    requires some { 1 ≤ count }
    requires few { count ≤ MOST_FUNCTIONS }
    ensures { IfOk result (λ text. text.items ≡ rule.generated seed count) }
{
    let mut text = String::from_str(alloc, HEAD)?.into_bytes();
    put_functions(alloc, &mut text, seed, count)?;
    text.extend_from_slice(b"READ\n")?;
    put_visits(alloc, &mut text, count)?;
    Ok(text)
}

/// Appends the functions.
fn put_functions(alloc: Global, text: &mut Vec<u8>, seed: u32, count: u32) -> Result<(), NoMemory>
    requires { count ≤ MOST_FUNCTIONS }
    ensures { OnOk result (text.new.items ≡ text.old.items ++ rule.functions seed count) }
{
    let mut number = seed;
    for before in 0..count {
        number = next_number(number);
        let line = function_line(alloc, choice_of(number), before + 1)?;
        text.extend_from_slice(line.as_bytes())?;
    }
    Ok(())
}

/// Appends the visits.
fn put_visits(alloc: Global, text: &mut Vec<u8>, count: u32) -> Result<(), NoMemory>
    requires { count ≤ MOST_FUNCTIONS }
    ensures { OnOk result (text.new.items ≡ text.old.items ++ rule.visits count) }
{
    for before in 0..count {
        let line = visit_line(alloc, before + 1)?;
        text.extend_from_slice(line.as_bytes())?;
    }
    Ok(())
}

/// The line of the function of a number, by a choice.
fn function_line(alloc: Global, choice: u32, k: u32) -> Result<String, NoMemory>
    requires { 1 ≤ k }
    ensures { IfOk result (λ line. string_bytes line ≡ rule.function_line choice k) }
{
    let body = body_by(alloc, choice, k)?;
    Ok(format!(in alloc; "FUNCTION{{f{k}}}{{{body}}}\n")?)
}

/// The body of that function.
fn body_by(alloc: Global, choice: u32, k: u32) -> Result<String, NoMemory>
    requires { 1 ≤ k }
    ensures { IfOk result (λ body. string_bytes body ≡ rule.body_by choice k) }
{
    match choice {
        0 => Ok(String::from_str(alloc, WRITES_TITLE)?),
        1 => Ok(format!(in alloc; "\"{k}\" write$ newline$")?),
        2 => Ok(String::from_str(alloc, WRITES_AUTHOR)?),
        _ => {
            let before = k - 1;
            Ok(format!(in alloc; "f{before}")?)
        }
    }
}

/// The line that visits each entry with the function of a number.
fn visit_line(alloc: Global, k: u32) -> Result<String, NoMemory>
    ensures { IfOk result (λ line. string_bytes line ≡ rule.visit_line k) }
{
    Ok(format!(in alloc; "ITERATE{{f{k}}}\n")?)
}

/// The number after another.
fn next_number(number: u32) -> u32
    ensures { result ≡ rule.next_number number }
{
    ((u64::from(number) * 1_103_515_245 + 12345) % 2_147_483_648) as u32
}

/// Which of four bodies a number chooses.
fn choice_of(number: u32) -> u32
    ensures { result ≡ rule.choice_of number }
{
    number / 65536 % 4
}
