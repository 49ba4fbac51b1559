//! What the cases of a loop have in common, by its bodies and the states that enter it.

ghost use Rattle.std.specs.Prelude.{◌≡◌, IfOk};
ghost use Rattle.std.specs.List.{All, list_all};
ghost use Rattle.loop_templates.specs.Sums as sum;
ghost use Rattle.infer_loops.specs.Invariants as rule;

use bst_meaning::condition::Cond;
use bst_meaning::value::Target;
use bv_base::memory::NoMemory;
use bv_base::seq::Seq;
use cert_check::{Turning, type_functions};
use lin_facts::row::Part;
use loop_templates::{
    Bound, Occurrences, occurring, push_roots, quoted_variables, sums, terms_over,
};
use name_table::names::NameId;
use name_table::style::Style;
use std::alloc::Global;
use std::marker::Model;
use sym_state::state::State;

/// The two functions of a loop as these states enter it.
pub(crate) fn turning(test: Target, body: Target, entering: &[State]) -> Turning
    ensures { result ≡ rule.turning test body entering.now }
{
    Turning {
        test,
        body,
        entry: are_at_entry(entering),
        whole: are_whole(entering),
    }
}

/// Whether each of some states is at an entry.
fn are_at_entry(states: &[State]) -> bool
    ensures { result ≡ list_all (λ state. state.at_entry) states.now }
{
    states.iter().all(|state| state.is_at_entry())
}

/// Whether the known stack of each of some states is the whole stack.
fn are_whole(states: &[State]) -> bool
    ensures { result ≡ list_all (λ state. state.whole) states.now }
{
    states.iter().all(|state| state.is_whole())
}

/// Which names occur in the bodies of a loop.
pub(crate) fn occurring_in(
    alloc: Global,
    style: &Style,
    admits: &Cond,
    one: Turning,
) -> Result<Occurrences, NoMemory>
    ensures { IfOk result (λ found. found ≡ rule.occurring_in style.now admits.now one) }
{
    let types = type_functions(alloc, style, admits)?;
    let mut roots = Vec::new(alloc);
    push_roots(&mut roots, style, types.as_slice(), one.test)?;
    push_roots(&mut roots, style, types.as_slice(), one.body)?;
    occurring(alloc, style, types.as_slice(), roots.as_slice())
}

/// The variables that count as written, which are those that are quoted.
pub(crate) fn written_in(
    alloc: Global,
    style: &Style,
    one: Turning,
    found: &Occurrences,
) -> Result<Vec<NameId>, NoMemory>
    ensures { IfOk result (λ names. names.items ≡ rule.written_in style.now one found.now) }
{
    let bound = Bound {
        globals: true,
        entry: one.entry,
    };
    quoted_variables(alloc, style, found, bound)
}

/// The sums over the terms that occur.
pub(crate) fn sums_in(
    alloc: Global,
    style: &Style,
    one: Turning,
    found: &Occurrences,
) -> Result<Vec<Seq<Part>>, NoMemory>
    ensures sums { IfOk result (λ all. all.items ≡ rule.sums_in style.now one found.now) }
    ensures small { IfOk result (λ all. All sum.IsSmallSum all.items) }
{
    let terms = terms_over(alloc, style, found, one.entry)?;
    sums(alloc, terms.as_slice())
}
