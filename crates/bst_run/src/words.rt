//! The forms of words.

ghost use Rattle.std.specs.Prelude.{◌≡◌, IfSome};
ghost use Rattle.std.specs.Option.{option_map};
ghost use Rattle.std.specs.List.{list_all};
ghost use Rattle.bv_base.specs.Runs.{is_digit as digit};
ghost use Rattle.cert_format.specs.Items as items;
ghost use Rattle.bst_run.specs.Forms as forms;

use bv_base::runs::{is_digit, number};

/// The greatest number of nine digits: the greatest of words.
pub const NINE_DIGITS: u64 = 999_999_999;

/// The most functions that a style is made of, beside the one before the first.
pub const MOST_FUNCTIONS: u32 = 2000;

/// What some words ask for. The names of files are used as they stand.
#[derive(Clone, Copy)]
pub enum Form<'a> {
    /// Decide the certificate in the second file for the style in the first.
    Check(&'a str, &'a str),
    /// Find a certificate for the style in the first file, under the condition in the second or the default one.
    Infer(&'a str, Option<&'a str>),
    /// Run this many steps of the style that the `.aux` file names.
    Run(&'a str, u32),
    /// The same under the certificate in the last file.
    RunUnder(&'a str, u32, &'a str),
    /// Make a style of so many functions from this seed, and show it.
    Gen(u32, u32),
}

/// The form that words have, and `None` where they have none.
pub fn form_of(words: &[String]) -> Option<Form<'_>>
    ensures form { option_map forms.form_in result ≡ forms.form_of words.now }
    ensures within { IfSome result (λ form. forms.IsWithin (forms.form_in form)) }
{
    match words {
        [word, style] if word.as_str() == "infer" => Some(Form::Infer(style.as_str(), None)),
        [word, first, second] => match word.as_str() {
            "check" => Some(Form::Check(first.as_str(), second.as_str())),
            "infer" => Some(Form::Infer(first.as_str(), Some(second.as_str()))),
            "run" => run_form(first.as_str(), second.as_bytes()),
            "gen" => gen_form(first.as_bytes(), second.as_bytes()),
            _ => None,
        },
        [word, aux, steps, cert] if word.as_str() == "run" => {
            under_form(aux.as_str(), steps.as_bytes(), cert.as_str())
        }
        _ => None,
    }
}

/// The form `run AUX N`.
fn run_form<'a>(aux: &'a str, steps: &[u8]) -> Option<Form<'a>>
    ensures form { option_map forms.form_in result ≡ forms.run_form aux.now steps.now }
    ensures within { IfSome result (λ form. forms.IsWithin (forms.form_in form)) }
{
    Some(Form::Run(aux, number_in(steps)?))
}

/// The form `run AUX N CERT`.
fn under_form<'a>(aux: &'a str, steps: &[u8], cert: &'a str) -> Option<Form<'a>>
    ensures form { option_map forms.form_in result ≡ forms.under_form aux.now steps.now cert.now }
    ensures within { IfSome result (λ form. forms.IsWithin (forms.form_in form)) }
{
    Some(Form::RunUnder(aux, number_in(steps)?, cert))
}

/// The form `gen SEED COUNT`.
fn gen_form<'a>(seed: &[u8], count: &[u8]) -> Option<Form<'a>>
    ensures form { option_map forms.form_in result ≡ forms.gen_form seed.now count.now }
    ensures within { IfSome result (λ form. forms.IsWithin (forms.form_in form)) }
{
    let count = number_in(count)?;
    if !are_functions(count) {
        return None;
    }
    Some(Form::Gen(number_in(seed)?, count))
}

/// Whether a style is made of so many functions.
fn are_functions(count: u32) -> bool
    ensures { result ≡ forms.are_functions count }
{
    (1..=MOST_FUNCTIONS).contains(&count)
}

/// A number of one to nine digits without a leading zero, or 0.
fn number_in(word: &[u8]) -> Option<u32>
    ensures { result ≡ forms.number_in word.now }
{
    if !is_numeral(word) || has_leading_zero(word) {
        return None;
    }
    let value = number(word);
    if value > NINE_DIGITS {
        return None;
    }
    Some(value as u32)
}

/// One digit or more.
fn is_numeral(word: &[u8]) -> bool
    ensures { result ≡ items.is_numeral word.now }
{
    !word.is_empty() && are_digits(word)
}

/// Digits alone.
fn are_digits(word: &[u8]) -> bool
    ensures { result ≡ list_all digit word.now }
{
    word.iter().all(|b| is_digit(*b))
}

fn has_leading_zero(word: &[u8]) -> bool
    ensures { result ≡ items.has_leading_zero word.now }
{
    matches!(word, [b'0', _, ..])
}
