//! Worked straight proofs (docs/STATES.md, "Straight proofs").

ghost use Rattle.std.specs.Prelude.{IfOk};
ghost use Rattle.std.specs.List.{All};
ghost use Rattle.sym_state.specs.WellMade.{HasBounds, IsBounded};

use crate::tests::Known::{Integer, Nonblank, TwoLetters};
use bst_meaning::condition::Cond;
use bv_base::memory::NoMemory;
use bv_base::seq::Seq;
use bv_base::text::Text;
use lin_facts::row::Term::{Count, Length, Names, Pos, Value};
use lin_facts::row::{Part, Row, Term};
use std::alloc::Global;
use std::process::Abort;
use straight_proofs::{Search, drop_proof, floor, straight_proof};
use sym_state::proof::Reference::{
    CountHigh, CountLow, ExactHigh, ExactLow, LengthLow, NamesHigh, NamesLow, NonblankNames,
    PosHigh, PosLow, TextHigh, TextLow, ValueHigh, ValueLow,
};
use sym_state::proof::{Proof, Reference};
use sym_state::state::{Parts, State};
use sym_state::symbol::{Fact, Sym};

/// A row of two terms, of which one taken 0 times is none.
#[derive(Clone, Copy)]
struct Line {
    constant: i32,
    first: (i32, Term),
    second: (i32, Term),
}

/// A row with a constant and at most two terms.
macro_rules! line {
    ($constant:expr) => {
        line!($constant, 0 Term::Pos)
    };
    ($constant:expr, $first:literal $term:expr) => {
        line!($constant, $first $term, 0 Term::Pos)
    };
    ($constant:expr, $first:literal $term:expr, $second:literal $other:expr) => {
        Line {
            constant: $constant,
            first: ($first, $term),
            second: ($second, $other),
        }
    };
}

/// A fact of a symbol: an exact integer, a string that isn't blank, or one of two letters.
#[derive(Clone, Copy)]
enum Known {
    Integer(u32, i32),
    Nonblank(u32),
    TwoLetters(u32),
}

/// What a state of three symbols knows.
#[derive(Clone, Copy)]
struct Given {
    at_entry: bool,
    facts: &'static [Known],
    rows: &'static [Line],
}

/// What a state knows: facts and rows, or nothing where an entry is visited.
macro_rules! given {
    (at_entry) => {
        Given {
            at_entry: true,
            facts: &[],
            rows: &[],
        }
    };
    ($facts:expr, $rows:expr) => {
        Given {
            at_entry: false,
            facts: &$facts,
            rows: &$rows,
        }
    };
}

/// A goal, and the references of its straight proof.
#[derive(Clone, Copy)]
struct Example {
    given: Given,
    goal: Line,
    proof: Option<&'static [Reference]>,
}

/// A goal that is shown by these references, from what a state knows.
macro_rules! shown {
    ($($given:tt),* => $goal:expr, $proof:expr) => {
        Example {
            given: given!($($given),*),
            goal: $goal,
            proof: Some(&$proof),
        }
    };
}

/// A goal that no list shows.
macro_rules! open {
    ($($given:tt),* => $goal:expr) => {
        Example {
            given: given!($($given),*),
            goal: $goal,
            proof: None,
        }
    };
}

/// Goals on one term, on none, and at an entry.
static GOALS: [Example; 19] = [
    shown!([], [] => line!(2147483647, -1 Value(0)), [ValueHigh(Sym(0))]),
    open!([], [] => line!(2147483647, 1 Value(0))),
    open!([], [] => line!(2147483647, -1 Value(3))),
    shown!([], [] => line!(0), []),
    open!([], [] => line!(-1)),
    shown!([], [] => line!(0, 1 Value(0), -1 Value(0)), []),
    shown!([Nonblank(0)], [] => line!(0, 1 Length(0)), [LengthLow(Sym(0))]),
    shown!([Nonblank(0)], [] => line!(-1, 1 Length(0)), [NamesHigh(Sym(0)), NonblankNames(Sym(0))]),
    shown!([Nonblank(0)], [] => line!(-1, 1 Names(0)), [NonblankNames(Sym(0))]),
    shown!([TwoLetters(0)], [] => line!(-2, 1 Length(0)), [TextLow(Sym(0))]),
    shown!([TwoLetters(0)], [] => line!(2, -1 Length(0)), [TextHigh(Sym(0))]),
    shown!([], [] => line!(0, 1 Length(0), -1 Names(0)), [NamesHigh(Sym(0))]),
    shown!([], [] => line!(0, 1 Length(0), 1 Names(0)), [NamesLow(Sym(0)), LengthLow(Sym(0))]),
    shown!(at_entry => line!(-1, 1 Count, -1 Pos), [PosHigh]),
    shown!(at_entry => line!(9999, -1 Pos), [PosHigh, CountHigh]),
    open!([], [] => line!(9999, -1 Pos)),
    shown!(at_entry => line!(0, 1 Pos), [PosLow]),
    shown!([], [] => line!(0, 1 Count), [CountLow]),
    open!([], [] => line!(9999, -1 Count)),
];

/// Goals that rows and exact integers show.
static CHAINS: [Example; 12] = [
    shown!([Integer(0, 97)], [line!(20000, -1 Length(1))] => line!(19903, 1 Value(0), -1 Length(1)), [Reference::Row(0), ExactLow(Sym(0))]),
    open!([Integer(0, 97)], [line!(20000, -1 Length(1))] => line!(19902, 1 Value(0), -1 Length(1))),
    shown!([Integer(2, 1)], [] => line!(2147483647, 1 Value(0), 1 Value(2)), [ExactLow(Sym(2)), ValueLow(Sym(0))]),
    shown!([Integer(0, 97)], [] => line!(97, -1 Value(0)), [ExactHigh(Sym(0))]),
    shown!([], [line!(0, 1 Value(1), -1 Value(0)), line!(0, 1 Value(1)), line!(0, 1 Value(0))] => line!(0, 1 Value(1)), [Reference::Row(0), Reference::Row(2)]),
    shown!([], [line!(0, 1 Value(0)), line!(0, 1 Value(0))] => line!(0, 1 Value(0)), [Reference::Row(0)]),
    shown!([], [line!(0, 1 Value(0))] => line!(0, 2 Value(0)), [Reference::Row(0), Reference::Row(0)]),
    shown!([], [line!(0, 1 Value(0))] => line!(0, 8 Value(0)), [Reference::Row(0), Reference::Row(0), Reference::Row(0), Reference::Row(0), Reference::Row(0), Reference::Row(0), Reference::Row(0), Reference::Row(0)]),
    open!([], [line!(0, 1 Value(0))] => line!(0, 9 Value(0))),
    shown!([], [line!(0, 1 Value(0)), line!(5, -1 Value(0))] => line!(5, -1 Value(0)), [Reference::Row(1)]),
    shown!([], [line!(0, 1 Value(1))] => line!(0, 1 Length(0), 1 Value(1)), [Reference::Row(0), LengthLow(Sym(0))]),
    shown!([], [line!(3, 1 Value(0), -1 Value(0))] => line!(2147483647, -1 Value(0)), [ValueHigh(Sym(0))]),
];

/// Rows by which one integer is at least another with each of these numbers taken off, and rows by which that is at least so.
macro_rules! steps {
    ($($less:literal)*) => {
        [$(line!($less, 1 Value(1), -1 Value(0)),)* $(line!($less, 1 Value(0)),)*]
    };
}

/// Steps of up to 11 from one integer to another, and to that.
const STEPS: [Line; 24] = steps!(0 - 1 - 2 - 3 - 4 - 5 - 6 - 7 - 8 - 9 - 10 - 11);

/// A goal that takes ten of these rows, five of each kind.
static FAR: [Example; 1] = [open!([], STEPS => line!(0, 5 Value(1)))];

/// Cases that can't come about, and one that may.
static DROPS: [Example; 5] = [
    shown!([], [line!(-5, 1 Value(0)), line!(3, -1 Value(0))] => line!(-1), [Reference::Row(0), Reference::Row(1)]),
    shown!([], [line!(-1)] => line!(-1), [Reference::Row(0)]),
    shown!([], [line!(-8, 7 Value(0)), line!(1, -1 Value(0))] => line!(-1), [Reference::Row(0), Reference::Row(1), Reference::Row(1), Reference::Row(1), Reference::Row(1), Reference::Row(1), Reference::Row(1), Reference::Row(1)]),
    open!([], [line!(-9, 8 Value(0)), line!(1, -1 Value(0))] => line!(-1)),
    open!(at_entry => line!(-1)),
];

/// A sum, and the greatest number that it is shown to be at least.
#[derive(Clone, Copy)]
struct Floored {
    given: Given,
    sum: Line,
    floor: Option<i64>,
}

/// A sum with its floor, where no entry is visited.
macro_rules! floored {
    ($facts:expr, $rows:expr => $sum:expr, $floor:expr) => {
        Floored {
            given: given!($facts, $rows),
            sum: $sum,
            floor: $floor,
        }
    };
}

/// Sums with floors, and some without.
static FLOORS: [Floored; 13] = [
    floored!([], [] => line!(7), Some(7)),
    floored!([], [] => line!(0, 1 Value(0)), Some(-2147483648)),
    floored!([Integer(0, 5)], [] => line!(0, 1 Value(0)), Some(5)),
    floored!([Integer(0, 5)], [] => line!(0, -1 Value(0)), Some(-5)),
    floored!([Integer(0, 10)], [line!(-2, 1 Value(1), -1 Value(0))] => line!(0, 1 Value(1), -1 Value(0)), Some(2)),
    floored!([Integer(0, 10)], [line!(-2, 1 Value(1), -1 Value(0))] => line!(0, 1 Value(1)), Some(12)),
    floored!([Integer(0, 5), Integer(1, 7)], [line!(-3, 1 Value(2), -1 Value(0))] => line!(0, 2 Value(2), 1 Value(1)), Some(23)),
    floored!([], [line!(-1, 1 Value(0)), line!(-4, 1 Value(0)), line!(-3, 1 Value(0)), line!(-4, 1 Value(0))] => line!(0, 1 Value(0)), Some(4)),
    floored!([], [line!(-1, 1 Value(0))] => line!(0, 8 Value(0)), Some(8)),
    floored!([], [line!(-1, 1 Value(0))] => line!(0, 9 Value(0)), None),
    floored!([], STEPS => line!(0, 5 Value(1)), Some(-4294967230)),
    floored!([], [] => line!(0, 1 Value(3)), None),
    floored!([], [] => line!(0, 1 Pos), None),
];

#[test]
fn the_floor_is_the_greatest_number_shown(rt: HostRuntime) {
    for (k, example) in FLOORS.as_slice().iter().enumerate() {
        let found = has_floor(rt.alloc(), example);
        assert!(rt; matches!(found, Ok(true)), "sum {k}: {found:?}");
    }
}

/// Sums of one state with their floors: some have the same parts.
static ASKED: [(Line, Option<i64>); 7] = [
    (line!(0, 1 Value(1)), Some(22)),
    (line!(-4, 1 Value(1)), Some(18)),
    (line!(-30, 1 Value(1)), Some(-8)),
    (line!(-50, 2 Value(1)), Some(-6)),
    (line!(-44, 2 Value(1)), Some(0)),
    (line!(0, -1 Value(1)), Some(-2147483647)),
    (line!(0, 1 Value(3)), None),
];

#[test]
fn one_search_remembers_what_new_ones_find(rt: HostRuntime) {
    let told = all_told(rt.alloc());
    assert!(rt; matches!(told, Ok(true)), "{told:?}");
}

#[test]
fn the_first_list_shows_the_goal(rt: HostRuntime) {
    compare(&rt, rt.alloc(), &GOALS);
    compare(&rt, rt.alloc(), &CHAINS);
    compare(&rt, rt.alloc(), &FAR);
}

#[test]
fn the_first_list_drops_the_case(rt: HostRuntime) {
    for (k, example) in DROPS.as_slice().iter().enumerate() {
        let found = is_dropped(rt.alloc(), example);
        assert!(rt; matches!(found, Ok(true)), "case {k}: {found:?}");
    }
}

/// Whether each goal has the straight proof that is wanted.
fn compare(rt: &impl Abort, alloc: Global, examples: &[Example]) {
    for (k, example) in examples.iter().enumerate() {
        let found = is_found(alloc, example);
        assert!(rt; matches!(found, Ok(true)), "goal {k}: {found:?}");
    }
}

/// Whether the straight proof that a case can't come about is the one that is wanted.
fn is_dropped(alloc: Global, example: &Example) -> Result<bool, NoMemory> {
    let state = state(alloc, example.given)?;
    let proof = drop_proof(&state, &condition(alloc))?;
    Ok(is_wanted(&proof, example.proof))
}

/// Whether the straight proof of a goal is the one that is wanted.
fn is_found(alloc: Global, example: &Example) -> Result<bool, NoMemory> {
    let state = state(alloc, example.given)?;
    let goal = row(alloc, example.goal)?;
    let proof = straight_proof(&state, &condition(alloc), &goal)?;
    Ok(is_wanted(&proof, example.proof))
}

/// Whether the floor of a sum is the one that is wanted.
fn has_floor(alloc: Global, example: &Floored) -> Result<bool, NoMemory> {
    let state = state(alloc, example.given)?;
    let sum = row(alloc, example.sum)?;
    Ok(floor(&state, &condition(alloc), &sum)? == example.floor)
}

/// Whether one search of a state gives the floors of sums that are wanted.
fn all_told(alloc: Global) -> Result<bool, NoMemory> {
    let state = state(alloc, given!([], STEPS))?;
    let cond = condition(alloc);
    let mut search = Search::new(alloc, &state, &cond)?;
    are_told(alloc, &mut search, ASKED.as_slice())
}

/// Whether a search that is asked for one sum after the other gives the floors that are wanted.
fn are_told(
    alloc: Global,
    search: &mut Search<'_>,
    asked: &[(Line, Option<i64>)],
) -> Result<bool, NoMemory> {
    for (sum, floor) in asked {
        let sum = row(alloc, *sum)?;
        if !is_told(search, &sum, *floor)? {
            return Ok(false);
        }
    }
    Ok(search.drop_proof()?.is_none())
}

/// Whether the floor of a sum is the one that is wanted, and the sum has a straight proof where that is at least 0.
fn is_told(search: &mut Search<'_>, sum: &Row, floor: Option<i64>) -> Result<bool, NoMemory>
    requires { IsBounded sum.now }
{
    let proof = search.straight_proof(sum)?;
    Ok(search.floor(sum)? == floor && proof.is_some() == matches!(floor, Some(0..)))
}

/// Whether a proof takes these references, once each.
fn is_wanted(proof: &Option<Proof>, wanted: Option<&[Reference]>) -> bool {
    match (proof, wanted) {
        (Some(proof), Some(list)) => takes(proof, list),
        (None, None) => true,
        _ => false,
    }
}

fn takes(proof: &Proof, list: &[Reference]) -> bool {
    let uses = proof.uses.as_slice();
    proof.divisor == 1
        && uses.len() == list.len()
        && uses.iter().zip(list).all(|(used, reference)| used.times == 1
            && used.reference == *reference)
}

fn state(alloc: Global, given: Given) -> Result<State, NoMemory>
    ensures { IfOk result HasBounds }
{
    let parts = Parts {
        stack: Seq::new(alloc),
        whole: true,
        at_entry: given.at_entry,
        vars: Seq::new(alloc),
        fields: Seq::new(alloc),
        facts: Seq::from_vec(list(alloc, given.facts)?),
        rows: Seq::from_vec(list(alloc, given.rows)?),
        next: 3,
    };
    State::from_parts(alloc, parts)
}

/// What a state knows of a kind.
trait Item: Drop {
    /// How the tests write it.
    type Written: Copy + Drop;

    /// What holds of each.
    ghost holds: { Self → Type 0 };

    fn read(alloc: Global, written: Self::Written) -> Result<Self, NoMemory>
        ensures { IfOk result holds };
}

/// All that is written so.
fn list<T: Item>(alloc: Global, written: &[T::Written]) -> Result<Vec<T>, NoMemory>
    ensures { IfOk result (λ items. All T.holds items.items) }
{
    let mut items = Vec::new(alloc);
    for one in written {
        items.push(T::read(alloc, *one)?)?;
    }
    Ok(items)
}

impl Item for Fact {
    ghost use Rattle.sym_state.specs.WellMade.{HasShortText};

    type Written = Known;

    ghost holds = { HasShortText };

    fn read(alloc: Global, known: Known) -> Result<Fact, NoMemory> {
        Ok(match known {
            Known::Integer(s, n) => Fact::Int(Sym(s), n),
            Known::Nonblank(s) => Fact::Nonblank(Sym(s)),
            Known::TwoLetters(s) => Fact::Text(Sym(s), Text::from_slice(alloc, b"ab")?),
        })
    }
}

impl Item for Row {
    ghost use Rattle.sym_state.specs.WellMade.{IsBounded};

    type Written = Line;

    ghost holds = { IsBounded };

    fn read(alloc: Global, line: Line) -> Result<Row, NoMemory> {
        row(alloc, line)
    }
}

fn row(alloc: Global, line: Line) -> Result<Row, NoMemory>
    ensures { IfOk result IsBounded }
{
    let parts = [
        Part {
            coefficient: line.first.0 as i64,
            term: line.first.1,
        },
        Part {
            coefficient: line.second.0 as i64,
            term: line.second.1,
        },
    ];
    Ok(Row {
        constant: line.constant as i64,
        parts: Seq::from_vec(parts.to_vec(alloc)?),
    })
}

fn condition(alloc: Global) -> Cond {
    Cond {
        entries: 10000,
        key: 250,
        preamble: 20000,
        length: 10000,
        names: Seq::new(alloc),
        nonblank: Seq::new(alloc),
        types: Seq::new(alloc),
        other: true,
    }
}
