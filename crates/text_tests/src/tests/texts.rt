//! What the functions make of texts, worked out by hand. A row is what a function is given, `->` and what it makes of it.
//! Numbers stand before a text. In a text `_` is a space, and `^^` with two digits of base 16 is a byte.

use bv_base::memory::NoMemory;
use std::alloc::Global;
use std::process::Abort;
use std::test::Fail;
use text_ops::add_period::add_period;
use text_ops::change_case::{Case, change_case};
use text_ops::int_to_str::int_to_str;
use text_ops::is_blank::is_blank;
use text_ops::purify::purify;
use text_ops::substring::substring;
use text_ops::text_length::text_length;
use text_ops::text_prefix::text_prefix;
use text_ops::width::width;

/// What is made of a text.
#[derive(Clone, Copy)]
enum Function {
    AddPeriod,
    ChangeCase(Case),
    Purify,
    IsBlank,
    IntToStr,
    Substring,
    TextLength,
    TextPrefix,
    Width,
    /// The width of each byte.
    Widths,
}

/// Texts, and what they are with a full stop.
const STOPPED: &str = r#"
Hi} -> Hi}.
Hi.} -> Hi.}
->
Hi -> Hi.
Why? -> Why?
Oh!}} -> Oh!}}
} -> }.
}} -> }}.
a.b -> a.b.
a._ -> a._.
{. -> {.
"#;

#[test]
fn the_last_byte_that_is_no_closing_brace_decides(rt: HostRuntime) -> Result<(), Fail> {
    expect(&rt, rt.alloc(), Function::AddPeriod, STOPPED)
}

/// Texts as titles.
const TITLES: &str = r#"
The_{TeX}book:_A_Guide -> The_{TeX}book:_A_guide
->
ABC -> Abc
_AB -> _ab
:_AB -> :_Ab
A:B -> A:b
A:__BC -> A:__Bc
A_:^^09BC -> A_:^^09Bc
A:_{B}_C -> A:_{B}_c
{A}B -> {A}b
{\'E}COLE -> {\'E}cole
A_{\'E}C -> A_{\'e}c
A:_{\'E}C -> A:_{\'E}c
A:{\'E}C -> A:{\'e}c
X{\AE_A:_B} -> X{\ae_a:_b}
{\L}:_{\AE}X -> {\L}:_{\AE}x
"#;

#[test]
fn a_title_keeps_what_begins_it(rt: HostRuntime) -> Result<(), Fail> {
    expect(&rt, rt.alloc(), Function::ChangeCase(Case::Title), TITLES)
}

/// Texts in small letters.
const SMALL: &str = r#"
{\OE}uvre -> {\oe}uvre
ABC:_Z -> abc:_z
{Ab}}A -> {Ab}}a
{\OE}{\AE}{\AA}{\O}{\L} -> {\oe}{\ae}{\aa}{\o}{\l}
{\i_X}{\ss} -> {\i_x}{\ss}
{\TeX_Xy} -> {\TeX_xy}
{\v{S}} -> {\v{s}}
^^c3^^89E -> ^^c3^^89e
"#;

#[test]
fn small_letters(rt: HostRuntime) -> Result<(), Fail> {
    expect(&rt, rt.alloc(), Function::ChangeCase(Case::Lower), SMALL)
}

/// Texts in capitals.
const CAPITALS: &str = r#"
The_{TeX}book:_A_Guide -> THE_{TeX}BOOK:_A_GUIDE
{\ss}x -> {SS}X
{Ab}}a -> {Ab}}A
{{\ss}A} -> {{\ss}A}
{\i_x} -> {IX}
{\j^^09^^0a} -> {J}
{\oe_x}{\ae}{\aa}{\o}{\l} -> {\OE_X}{\AE}{\AA}{\O}{\L}
{\OE}{\AE}{\AA}{\O}{\L} -> {\OE}{\AE}{\AA}{\O}{\L}
{\'\i} -> {\'I}
{\bf_Xy} -> {\bf_XY}
{\\ss} -> {\SS}
{\ss -> {SS
{\}a -> {\}A
^^e9e -> ^^e9E
"#;

#[test]
fn capitals(rt: HostRuntime) -> Result<(), Fail> {
    expect(&rt, rt.alloc(), Function::ChangeCase(Case::Upper), CAPITALS)
}

/// Texts, and what is left of them.
const PURE: &str = r#"
{\'E}cole_{TeX}-x -> Ecole_TeX_x
->
{\OE}uvre -> OEuvre
{\oe}{\ae}{\AE}{\ss} -> oeaeAEss
{\o}{\O}{\l}{\L}{\i}{\j} -> oOlLij
{\aa}{\AA} -> aA
{\aax}{\oeuvre}{\bf} ->
{\\ss} -> ss
{\i_}x -> ix
{\bf_x1_-_y} -> x1y
{\'{e}}{\v{S}} -> eS
{\ss -> ss
{\ ->
}{\i} -> i
a~b-c -> a_b_c
a^^09b^^0a -> a_b_
{a-b} -> a_b
{{\aa}} -> aa
\ss. -> ss
^^c3^^a9!^^7f -> ^^c3^^a9
{\'^^c3^^a9} -> ^^c3^^a9
"#;

#[test]
fn letters_digits_and_spaces_are_left(rt: HostRuntime) -> Result<(), Fail> {
    expect(&rt, rt.alloc(), Function::Purify, PURE)
}

/// Texts, and whether each is blank.
const BLANK: &str = r#"
-> true
_^^09^^0d^^0a -> true
_a_ -> false
^^0b -> false
^^a0 -> false
{} -> false
"#;

#[test]
fn four_bytes_are_white_space(rt: HostRuntime) -> Result<(), Fail> {
    expect(&rt, rt.alloc(), Function::IsBlank, BLANK)
}

/// Integers and their numerals.
const NUMERALS: &str = r#"
-7 -> -7
0 -> 0
7 -> 7
10 -> 10
-100 -> -100
2147483647 -> 2147483647
-2147483648 -> -2147483648
"#;

#[test]
fn digits_follow_the_sign(rt: HostRuntime) -> Result<(), Fail> {
    expect(&rt, rt.alloc(), Function::IntToStr, NUMERALS)
}

/// Places, lengths, texts and their parts there.
const PARTS: &str = r#"
2 3 abcdef -> bcd
-1 2 abcdef -> ef
-2 3 abcdef -> cde
7 1 abcdef ->
-6 9 abcdef -> a
1 6 abcdef -> abcdef
6 1 abcdef -> f
6 5 abcdef -> f
-6 1 abcdef -> a
-7 1 abcdef ->
-3 1 abcdef -> d
0 3 abcdef ->
1 0 abcdef ->
-1 0 abcdef ->
1 -1 abcdef ->
1 -2147483648 abcdef ->
1 2147483647 abcdef -> abcdef
-1 2147483647 abcdef -> abcdef
2147483647 1 abcdef ->
-2147483648 1 abcdef ->
-2147483648 2147483647 abcdef ->
1 1 ->
-1 1 ->
"#;

#[test]
fn places_count_from_both_ends(rt: HostRuntime) -> Result<(), Fail> {
    expect(&rt, rt.alloc(), Function::Substring, PARTS)
}

/// Texts and their numbers of text characters.
const COUNTED: &str = r#"
{\'E}cole -> 5
{TeX} -> 3
-> 0
{} -> 0
{\'E -> 1
{\ -> 1
a{\v{o}}b -> 3
{\{a}b}c -> 2
{{\'E}} -> 3
{_\x} -> 3
}{\i}x -> 2
\{a} -> 2
^^c3^^a9 -> 2
"#;

#[test]
fn a_special_character_counts_one(rt: HostRuntime) -> Result<(), Fail> {
    expect(&rt, rt.alloc(), Function::TextLength, COUNTED)
}

/// Numbers, texts and their first text characters.
const PREFIXES: &str = r#"
2 {\'E}cole -> {\'E}c
2 {TeX}book -> {Te}
0 abc ->
-2147483648 abc ->
3 abc -> abc
2147483647 abc -> abc
3 ->
1 {a}b -> {a}
1 {{a}b -> {{a}}
2 {{a}b -> {{a}b}
1 a{}{ -> a
2 a{}{ -> a{}{}
1 }ab -> }a
1 {\'E -> {\'E}
1 {\'{E -> {\'{E}}
3 x{\'E}}y -> x{\'E}}y
"#;

#[test]
fn a_prefix_is_closed(rt: HostRuntime) -> Result<(), Fail> {
    expect(&rt, rt.alloc(), Function::TextPrefix, PREFIXES)
}

/// Bytes, and the width of each.
const PRINTING: &str = r##"
_!"#$%&'()*+,-./ -> 278 278 500 833 500 833 778 278 389 389 500 778 278 333 278 500
0123456789 -> 500 500 500 500 500 500 500 500 500 500
:;<=>?@ -> 278 278 278 778 472 472 778
ABCDEFGHIJKLM -> 750 708 722 764 681 653 785 750 361 514 778 625 917
NOPQRSTUVWXYZ -> 750 778 681 778 736 556 722 750 750 1028 750 750 611
[\]^^5e^^5f`{|}~ -> 278 500 278 500 278 278 500 1000 500 500
abcdefghijklm -> 500 556 444 556 444 306 500 556 278 306 528 278 833
nopqrstuvwxyz -> 556 500 556 528 392 394 389 556 528 722 528 528 444
"##;

#[test]
fn each_printing_byte_has_its_width(rt: HostRuntime) -> Result<(), Fail> {
    expect(&rt, rt.alloc(), Function::Widths, PRINTING)
}

/// Texts and their widths.
const WIDE: &str = r#"
ab -> 1056
{\ss} -> 500
{\'E} -> 681
{a} -> 1500
-> 0
^^1f^^09^^0a^^7f^^80^^ff -> 0
{\ae} -> 722
{\oe} -> 778
{\AE} -> 903
{\OE} -> 1014
{\aa} -> 500
{\AA} -> 750
{\o} -> 500
{\O} -> 778
{\l} -> 278
{\L} -> 625
{\i} -> 278
{\j} -> 306
{\bf} -> 0
{\ssx} -> 0
{\bf_x} -> 528
{\bf__x_y} -> 1334
{\\ss} -> 788
{\\\ss} -> 500
{\'_x} -> 528
{\_x} -> 528
{\'{e}} -> 444
{\"\i} -> 278
{\}x -> 528
{\ss -> 500
{\ss}} -> 1000
\ss -> 1288
"#;

#[test]
fn special_characters_have_the_width_of_their_letters(rt: HostRuntime) -> Result<(), Fail> {
    expect(&rt, rt.alloc(), Function::Width, WIDE)
}

/// Expects a function to make of texts what the rows tell.
fn expect(rt: &impl Abort, alloc: Global, function: Function, rows: &str) -> Result<(), Fail> {
    for row in rows.trim().lines() {
        let Some((given, wanted)) = row.split_once("->") else {
            panic!(rt; "a row without its arrow");
        };
        let mut made = String::new(alloc);
        add_made(&mut made, function, given.trim_end())?;
        assert_eq!(rt; made.as_str(), wanted.trim_start(), "{row}");
    }
    Ok(())
}

/// Adds what a function makes of what it is given.
fn add_made(made: &mut String, function: Function, given: &str) -> Result<(), Fail> {
    let alloc = *made.allocator();
    match function {
        Function::IntToStr => add_text(made, int_to_str(alloc, given.parse::<i32>()?)),
        Function::Substring => {
            let (start, rest) = number_first(given)?;
            let (length, rest) = number_first(rest)?;
            let text = text_of(alloc, rest)?;
            add_text(made, substring(alloc, text.as_slice(), start, length))
        }
        Function::TextPrefix => {
            let (count, rest) = number_first(given)?;
            let text = text_of(alloc, rest)?;
            add_text(made, text_prefix(alloc, text.as_slice(), count))
        }
        _ => {
            let text = text_of(alloc, given)?;
            add_made_of(made, function, text.as_slice())
        }
    }
}

/// The number that stands first, and what stands behind it.
fn number_first(given: &str) -> Result<(i32, &str), Fail> {
    let (number, rest) = given.split_once(" ").unwrap_or((given, ""));
    Ok((number.parse::<i32>()?, rest))
}

/// Adds what a function makes of a text.
fn add_made_of(made: &mut String, function: Function, text: &[u8]) -> Result<(), Fail> {
    let alloc = *made.allocator();
    match function {
        Function::AddPeriod => add_text(made, add_period(alloc, text)),
        Function::ChangeCase(case) => add_text(made, change_case(alloc, text, case)),
        Function::Purify => add_text(made, purify(alloc, text)),
        Function::Widths => Ok(add_widths(made, text)?),
        _ => Ok(add_value(made, function, text)?),
    }
}

/// Adds a number or a truth value of a text.
fn add_value(made: &mut String, function: Function, text: &[u8]) -> Result<(), NoMemory> {
    match function {
        Function::IsBlank => {
            let blank = is_blank(text);
            write!(made, "{blank}")?
        }
        Function::TextLength => {
            let length = text_length(text);
            write!(made, "{length}")?
        }
        _ => {
            let width = width(text);
            write!(made, "{width}")?
        }
    }
    Ok(())
}

/// Adds the width of each byte.
fn add_widths(made: &mut String, text: &[u8]) -> Result<(), NoMemory> {
    for b in text {
        let space = if made.as_str().is_empty() { "" } else { " " };
        let width = width(&[*b]);
        write!(made, "{space}{width}")?;
    }
    Ok(())
}

/// Adds a text as it is written in a row.
fn add_text(made: &mut String, text: Result<Vec<u8>, NoMemory>) -> Result<(), Fail> {
    for b in text?.as_slice() {
        match *b {
            b' ' => made.push('_')?,
            b'^' | b'_' | 0..=31 | 127..=255 => {
                let byte = *b;
                write!(made, "^^{byte:02x}")?
            }
            _ => made.push(char::from(*b))?,
        }
    }
    Ok(())
}

/// The text that is written so in a row.
fn text_of(alloc: Global, written: &str) -> Result<Vec<u8>, NoMemory> {
    let mut text = Vec::new(alloc);
    let mut marks = 0;
    let mut high = 0;
    for b in written.as_bytes() {
        match (marks, *b) {
            (0, b'^') => marks = 1,
            (0, b'_') => text.push(b' ')?,
            (0, b) => text.push(b)?,
            (1, _) => marks = 2,
            (2, b) => {
                marks = 3;
                high = digit(b);
            }
            (_, b) => {
                marks = 0;
                text.push(high.wrapping_mul(16).wrapping_add(digit(b)))?;
            }
        }
    }
    Ok(text)
}

/// The value of a digit of base 16.
fn digit(b: u8) -> u8 {
    match b {
        b'0'..=b'9' => b.wrapping_sub(b'0'),
        _ => b.wrapping_sub(b'a').wrapping_add(10),
    }
}
