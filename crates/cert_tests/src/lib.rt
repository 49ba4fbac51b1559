//! Tests of `cert_format`: certificates of a style that is read, one line of which is changed. They stand here since the style
//! has to be read by a crate that `cert_format` doesn't stand on.
#![tactic(auto)]

#[cfg(test)]
mod tests;
