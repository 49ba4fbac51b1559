//! What no clause says: that runs on small styles, with ample memory, come to what was worked out by hand.

/// Expects rows of one kind to be told as they say: what stands before them, directly before and behind their words, and
/// what is told of them.
macro_rules! told {
    ($rt:ident, $functions:expr, $front:expr, $back:expr, $telling:ident, $rows:expr) => {
        expect(
            &$rt,
            $rt.alloc(),
            &Table {
                functions: $functions,
                front: $front,
                back: $back,
                telling: Telling::$telling,
                rows: $rows,
            },
        )
    };
}

mod entries;
mod flow;
mod marks;
mod operands;
mod program;
mod rows;
mod runs;
mod words;
mod writing;
