//! The places of entries in a list, in the order of a run, and what stands there.

ghost use Rattle.std.specs.Prelude.{◌≡◌, ◌*◌, drop, length, slice_get, IfOk};
ghost use Rattle.std.specs.List.{range_with_len};
ghost use Rattle.std.specs.Option.{option_and_then};

use crate::held::Held;
use crate::packed_values::PackedValues;
use bv_base::memory::NoMemory;
use entry_store::entry::{Entry, EntryList};
use std::alloc::Global;

/// The places of so many entries, from the first one on. There is no memory for more than 4294967295.
pub fn rows_of(alloc: Global, count: usize) -> Result<Vec<u32>, NoMemory>
    ensures { IfOk result (λ rows. rows.items ≡ range_with_len 0 count) }
{
    let mut rows = Vec::with_capacity(alloc, count)?;
    let Ok(count) = u32::try_from(count) else {
        return Err(NoMemory);
    };
    for place in 0..count {
        rows.push(place)?;
    }
    Ok(rows)
}

/// The place of the entry of a row.
pub fn place_at(rows: &[u32], at: usize) -> Option<usize>
    ensures { result ≡ slice_get rows.now at }
{
    match rows.get(at) {
        Some(row) => Some(*row as usize),
        None => None,
    }
}

/// The entry of a row.
pub fn entry_at<'a>(list: &'a EntryList, rows: &[u32], at: usize) -> Option<Entry<'a>>
    ensures { result ≡ option_and_then (λ place. slice_get list.now.entries place) (slice_get rows.now at) }
{
    match place_at(rows, at) {
        Some(place) => list.at(place),
        None => None,
    }
}

/// The value at an index among those of the entry at a place, where each entry has so many.
pub fn value_at<'a>(
    values: &PackedValues<'a>,
    place: usize,
    count: usize,
    index: usize,
) -> Option<Held<'a>>
    ensures { result ≡ slice_get (drop (place * count) values.now) index }
{
    let index = place.saturating_mul(count).saturating_add(index);
    if index < values.len() {
        values.get(index)
    } else {
        None
    }
}
