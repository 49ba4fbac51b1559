//! Examples, worked out by hand from docs/. A row of a table is a text: what is given, ` => `, and what comes of it.
//! Both are spelled alike.
//!
//! A stack is the numbers of its symbols, its top last, or `empty`. Behind it stands what is known, each after `; `: facts
//! as `is 0 Int`, `int 0 5`, `text 0 [97, 98]`, `letters 0 250` (the text of 250 letters `a`), `call 0 41`, `block 0 1`,
//! `blank 0`, `nonblank 0` and `wellformed 0`; and rows, which are a constant and terms that are together at least 0:
//! `-6 1v0` says of symbol 0 that its value is at least 6. The letter of a term says what it is: a value `v`, a length `l`,
//! names `n`, the position `p0` or the count `c0`. A name with its symbol is `41=7`.
//!
//! A proof is a divisor and the references that it uses, as `2 Row:0 3*ExactLow:1` with the second taken three times.
//! Hints are parted by `; `: `keep`, `drop` or `step` with a proof, `apply 0`, `walk`, `loop 0`, `case 0` and `plain`.

/// A name of this id with a symbol.
macro_rules! bind {
    ($name:literal, $sym:literal) => {
        sym_state::symbol::Bind {
            name: name_table::names::NameId($name),
            sym: sym_state::symbol::Sym($sym),
        }
    };
}

/// The piece that binds the name of this id to symbol 0, of which it says this.
macro_rules! piece_of_one {
    ($alloc:expr, $name:literal, $fact:expr) => {{
        let mut vars = Seq::new($alloc);
        vars.push(bind!($name, 0))?;
        let mut facts = Seq::new($alloc);
        facts.push($fact)?;
        Ok(Piece {
            stack: Seq::new($alloc),
            vars,
            fields: Seq::new($alloc),
            facts,
            rows: Seq::new($alloc),
        })
    }};
}

mod cases;
mod effects;
mod hints;
mod known;
mod lines;
mod outcomes;
mod reading;
mod rows;
mod states;
mod walk;
