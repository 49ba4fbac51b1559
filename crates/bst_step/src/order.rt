//! SORT: the entries in the order of `sort.key$`.

ghost use Rattle.std.specs.Prelude.{◌≡◌, List, map, OnErr, OnOk};
ghost use Rattle.std.specs.List.Sorted.{IsPermutation};
ghost use Rattle.name_table.specs.Opening as names;
ghost use Rattle.bst_meaning.specs.EntryLists.{Entry};
ghost use Rattle.bst_meaning.specs.Sorting as rule;
ghost use Rattle.bst_step.specs.EntryStates.{state_in, states_at, variables_at};
ghost use Rattle.bst_step.specs.Held.{value_of};
ghost use Rattle.bst_step.specs.Marks.{marked_in, sorted_marks};
ghost use Rattle.bst_step.specs.Variables.{names_in, variable_in};

use crate::held::Operand;
use crate::packed_values::PackedValues;
use crate::rows::value_at;
use crate::variables::Variables;
use bv_base::memory::NoMemory;
use name_table::opening::SORT_KEY;

/// Orders entries by their sort keys, whose bytes may stand in a pool. Equal keys keep their order.
pub fn sort_rows(
    pool: &[u8],
    own: &Variables<'_>,
    values: &PackedValues<'_>,
    rows: &mut Vec<u32>,
) -> Result<(), NoMemory>
    ensures sorted { (entries : List Entry) → OnOk result (map (state_in pool.now) (states_at (names_in own.now) values.now entries rows.new.items)
        ≡ rule.sorted (map (state_in pool.now) (states_at (names_in own.now) values.now entries rows.old.items))) }
    ensures marks { (entries : List Entry) → OnOk result (map marked_in (states_at (names_in own.now) values.now entries rows.new.items)
        ≡ sorted_marks (map (state_in pool.now) (states_at (names_in own.now) values.now entries rows.old.items))
        (map marked_in (states_at (names_in own.now) values.now entries rows.old.items))) }
    ensures permuted { IsPermutation rows.old.items rows.new.items }
    ensures kept { OnErr result (rows.new.items ≡ rows.old.items) }
{
    rows.sort_by(|a, b| sort_key(pool, own, values, *a).cmp(sort_key(pool, own, values, *b)))?;
    Ok(())
}

/// The bytes of `sort.key$` of the entry at a place.
fn sort_key<'b>(
    pool: &'b [u8],
    own: &Variables<'_>,
    values: &PackedValues<'b>,
    place: u32,
) -> &'b [u8]
    ensures { result.now ≡
        rule.string_at names.sort_key.0 (map (variable_in pool.now) (variables_at (names_in own.now) values.now place)) }
{
    let Some(index) = own.place(SORT_KEY) else {
        return &[];
    };
    match value_at(values, place as usize, own.values().len(), index) {
        Some(held) => string_of(held.operand(pool)),
        None => &[],
    }
}

/// The bytes of a string, and none of another value.
fn string_of(value: Operand<'_>) -> &[u8]
    ensures { result.now ≡ rule.string_of (value_of value.entry) }
{
    match value {
        Operand::Str(bytes) => bytes,
        _ => &[],
    }
}
