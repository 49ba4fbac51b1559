//! Styles that are made. The first is worked by hand; the bytes of the others were counted outside of the program.

use crate::generating::generate;
use crate::tests::{Example, Failing, compare};
use bv_base::status::Status;
use std::test::Fail;

/// The style of seed 3 and five functions, by the numbers 1163074432, 465823161, 679304702, 544774495 and 1351511980: the choices
/// are 3, 3, 1, 0 and 2.
const FIVE: &str = "ENTRY{title author}{}{}
FUNCTION{f0}{skip$}
FUNCTION{f1}{f0}
FUNCTION{f2}{f1}
FUNCTION{f3}{\"3\" write$ newline$}
FUNCTION{f4}{title empty$ 'skip$ {title write$ newline$} if$}
FUNCTION{f5}{author duplicate$ missing$ 'pop$ 'write$ if$ newline$}
READ
ITERATE{f1}
ITERATE{f2}
ITERATE{f3}
ITERATE{f4}
ITERATE{f5}
";

#[test]
fn a_style_is_made_from_a_seed(rt: HostRuntime) -> Result<(), Fail> {
    let text = generate(rt.alloc(), 3, 5)?;
    assert_eq!(&rt; text.as_slice(), FIVE.as_bytes());
    Ok(())
}

/// What is answered for a seed and a number of functions: that number, and the bytes of the style that is made.
macro_rules! made {
    ($seed:literal, $count:literal => $bytes:literal) => {
        told!(["gen", $seed, $count], [] => Done, concat!("functions ", $count, "\nbytes ", $bytes, "\naccepted\n"), "")
    };
}

#[test]
fn styles_that_are_made_are_shown(rt: HostRuntime) -> Result<(), Fail> {
    compare(&rt, rt.alloc(), &MADE)
}

/// Styles that are read and shown: no seed was found for which that fails.
static MADE: [Example; 20] = [
    made!("0", "1" => "123"),
    made!("0", "2" => "197"),
    made!("1", "2" => "209"),
    made!("2", "3" => "198"),
    made!("3", "5" => "307"),
    made!("4", "8" => "462"),
    made!("5", "13" => "791"),
    made!("6", "21" => "1303"),
    made!("7", "34" => "2239"),
    made!("8", "55" => "3264"),
    made!("9", "89" => "4976"),
    // All nine functions call the one before, and no seed gives more in a row.
    made!("38691", "9" => "310"),
    made!("42", "100" => "5749"),
    made!("65535", "30" => "1778"),
    made!("65536", "30" => "1886"),
    made!("262143", "30" => "1843"),
    made!("2147483", "30" => "1684"),
    made!("123456789", "30" => "1817"),
    made!("999999998", "30" => "1845"),
    made!("999999999", "30" => "1740"),
];
