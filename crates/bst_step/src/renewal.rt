//! A pool made anew in place, one window of it after the other.

ghost use Rattle.std.specs.Prelude.{◌≡◌, ◌+◌, ◌<◌, ◌≤◌, ◌++◌, ℕ, get_or, length, pos, slice_set, IfOk, MatchOption, OnErr, OnOk};
ghost use Rattle.std.specs.Bool.{OnFalse, OnTrue};
ghost use Rattle.bst_step.specs.declared.held.Held.TheVariants.{Int};
ghost use Rattle.bst_step.specs.Held.{ValuesWithin};
ghost use Rattle.bst_step.specs.Settled.{AreParted, IsGathered, IsRenewed, Stands, ValuesStand, begins_in, first_behind, moved_bytes, moved_count, next_behind, put_over, settled, values_bytes, values_count, values_settled, BeginsBehind};

use crate::held::Held;
use crate::packed_values::PackedValues;
use bv_base::bytes::part_of;
use bv_base::memory::NoMemory;

/// The least room for the strings of a window, in which most have room that were made since the pool was made anew.
const LEAST_ROOM: usize = 1048576;

/// A window takes about such a part of the pool.
const WINDOWS: usize = 8;

/// Where the next string that is to come begins, where there is none.
const NOWHERE: usize = usize::MAX;

/// A part of a pool, whose strings are brought to the end of the finished part in front of it.
#[derive(Clone, Copy)]
pub struct Window {
    /// Where the finished part ends.
    pub to: usize,
    pub from: usize,
    pub until: usize,
}

impl Window {
    /// Whether what begins there begins in the window.
    fn has(self, start: usize) -> bool
        ensures { result ≡ begins_in self start }
    {
        self.from <= start && start < self.until
    }
}

/// Brings the bytes of the strings that two lists of values hold, and that stand behind a place in the pool, down to that place,
/// so that behind it the pool has no others. Where a string stands on both sides of the place all are brought to the front of
/// the pool. Where memory is wanting the pool is longer than that.
pub fn renew_values(
    globals: &mut [Held<'_>],
    own: &mut PackedValues<'_>,
    pool: &mut Vec<u8>,
    place: usize,
) -> Result<(), NoMemory>
    requires globals { ValuesWithin (length pool.old.items) globals.old }
    requires own { ValuesWithin (length pool.old.items) own.old }
    ensures globals { IsRenewed pool.old.items globals.old pool.new.items globals.new }
    ensures own { IsRenewed pool.old.items own.old pool.new.items own.new }
{
    let front = front_of(globals, own, pool.as_slice(), place);
    let behind = pool.as_slice().len().saturating_sub(front);
    let room = LEAST_ROOM.max(behind / WINDOWS);
    let mut moved = Vec::with_capacity(*pool.allocator(), room)?;
    let mut size = room - room / 8;
    let mut to = front;
    let mut from = front;
    while from < NOWHERE {
        let window = Window {
            to,
            from,
            until: from.saturating_add(size),
        };
        match move_window(globals, own, front, window, pool, &mut moved)? {
            Some(next) => {
                to += moved.as_slice().len();
                from = next;
            }
            None => size = size.saturating_mul(2),
        }
    }
    pool.truncate(to);
    Ok(())
}

/// A place in a pool, where no string of two lists of values stands on both sides of it, and else the front of the pool.
fn front_of(globals: &[Held<'_>], own: &PackedValues<'_>, pool: &[u8], place: usize) -> usize
    ensures { AreParted result result pool.now globals.now own.now }
{
    if place <= pool.len() && values_stand(globals, place) && packed_stand(own, place) {
        place
    } else {
        0
    }
}

/// Whether no string of values stands on both sides of a place in their pool.
fn values_stand(values: &[Held<'_>], place: usize) -> bool
    ensures { OnTrue result (ValuesStand place place values.now) }
{
    for value in values {
        if !stands(*value, place) {
            return false;
        }
    }
    true
}

/// Whether no string of values that are packed stands on both sides of a place in their pool.
fn packed_stand(values: &PackedValues<'_>, place: usize) -> bool
    ensures { OnTrue result (ValuesStand place place values.now) }
{
    let mut at = values.next_behind(0, place);
    while at < values.len() {
        let Some(value) = values.get(at) else {
            unreachable!()
        };
        if !stands(value, place) {
            return false;
        }
        at = values.next_behind(at + 1, place);
    }
    true
}

/// Whether a string ends at a place at the latest, or begins there or behind it. What is no string that was made does.
#[inline(always)]
fn stands(value: Held<'_>, place: usize) -> bool
    ensures { OnTrue result (Stands place place value.entry) }
{
    match value {
        Held::Made(start, count) => place <= start || count <= place - start,
        _ => true,
    }
}

/// Brings the strings that begin in a window to the end of the finished part, where they end in front of the next one, and
/// gives where that one begins. `None` says that they have no room, and that nothing has moved.
fn move_window(
    globals: &mut [Held<'_>],
    own: &mut PackedValues<'_>,
    front: usize,
    window: Window,
    pool: &mut Vec<u8>,
    moved: &mut Vec<u8>,
) -> Result<Option<usize>, NoMemory>
    requires until { window.until ≤ 18446744073709551615 }
    requires globals { ValuesWithin (length pool.old.items) globals.old }
    requires own { ValuesWithin (length pool.old.items) own.old }
    requires parted { AreParted window.to window.from pool.old.items globals.old own.old }
    requires behind { BeginsBehind front window }
    ensures globals { IsRenewed pool.old.items globals.old pool.new.items globals.new }
    ensures own { IsRenewed pool.old.items own.old pool.new.items own.new }
    ensures parted { IfOk result (λ place. MatchOption place
        ((window.until < 18446744073709551615) × AreParted window.to window.from pool.new.items globals.new own.new)
        (λ next. (window.until ≤ next) × AreParted (window.to + length moved.new.items) next pool.new.items globals.new own.new)) }
{
    moved.clear();
    let next = gather_values(globals, window, NOWHERE, pool.as_slice(), moved)?;
    let next = gather_packed(own, front, window, next, pool.as_slice(), moved)?;
    put_window(globals, own, front, window, next, pool, moved.as_slice())
}

/// Puts the strings that begin in a window, whose bytes were gathered, behind the finished part.
fn put_window(
    globals: &mut [Held<'_>],
    own: &mut PackedValues<'_>,
    front: usize,
    window: Window,
    next: usize,
    pool: &mut Vec<u8>,
    moved: &[u8],
) -> Result<Option<usize>, NoMemory>
    requires gathered { IsGathered window next pool.old.items moved.now globals.old own.old }
    requires behind { BeginsBehind front window }
    ensures globals { IsRenewed pool.old.items globals.old pool.new.items globals.new }
    ensures own { IsRenewed pool.old.items own.old pool.new.items own.new }
    ensures parted { IfOk result (λ place. MatchOption place
        ((window.until < 18446744073709551615) × AreParted window.to window.from pool.new.items globals.new own.new)
        (λ n. (window.until ≤ n) × AreParted (window.to + length moved.now) n pool.new.items globals.new own.new)) }
{
    if window.to + moved.len() > next {
        return Ok(None);
    }
    put_over(pool, window.to, moved)?;
    let end = settle_values(globals, window, window.to);
    settle_packed(own, front, window, end);
    Ok(Some(next))
}

/// Appends the bytes of the strings that begin in a window, and gives where the first string behind it begins, or another
/// place that comes before that.
fn gather_values(
    values: &[Held<'_>],
    window: Window,
    other: usize,
    pool: &[u8],
    moved: &mut Vec<u8>,
) -> Result<usize, NoMemory>
    ensures moved { OnOk result (moved.new.items ≡ moved.old.items ++ values_bytes window pool.now values.now) }
    ensures next { IfOk result (λ next. next ≡ first_behind window.until other values.now) }
{
    let mut next = other;
    for value in values {
        gather(*value, window, pool, moved)?;
        next = next_behind(*value, window, next);
    }
    Ok(next)
}

/// Appends the bytes of the strings that begin in a window, of values that are packed, and gives where the first string behind
/// it begins, or another place that comes before that. Those in front of a place are passed over.
fn gather_packed(
    values: &PackedValues<'_>,
    front: usize,
    window: Window,
    other: usize,
    pool: &[u8],
    moved: &mut Vec<u8>,
) -> Result<usize, NoMemory>
    requires { BeginsBehind front window }
    ensures moved { OnOk result (moved.new.items ≡ moved.old.items ++ values_bytes window pool.now values.now) }
    ensures next { IfOk result (λ next. next ≡ first_behind window.until other values.now) }
{
    let mut next = other;
    let mut at = values.next_behind(0, front);
    while at < values.len() {
        let Some(value) = values.get(at) else {
            unreachable!()
        };
        gather(value, window, pool, moved)?;
        next = next_behind(value, window, next);
        at = values.next_behind(at + 1, front);
    }
    Ok(next)
}

/// Appends the bytes of a string that begins in a window.
fn gather(value: Held<'_>, window: Window, pool: &[u8], moved: &mut Vec<u8>) -> Result<(), NoMemory>
    ensures { OnOk result (moved.new.items ≡ moved.old.items ++ moved_bytes window pool.now value.entry) }
{
    match value {
        Held::Made(start, count) if window.has(start) => {
            Ok(moved.extend_from_slice(part_of(pool, start, count))?)
        }
        _ => Ok(()),
    }
}

/// Where a string begins that stands behind a window, or another place that comes before that.
fn next_behind(value: Held<'_>, window: Window, other: usize) -> usize
    ensures { result ≡ next_behind window.until other value.entry }
{
    match value {
        Held::Made(start, _) if window.until <= start => other.min(start),
        _ => other,
    }
}

/// Puts the strings that begin in a window one after the other from a place on, and gives where they end.
fn settle_values(values: &mut [Held<'_>], window: Window, to: usize) -> usize
    requires { to + values_count window values.old ≤ 18446744073709551615 }
    ensures settled { values.new ≡ values_settled window to values.old }
    ensures end { result ≡ to + values_count window values.old }
{
    let mut end = to;
    for i in 0..values.len() {
        let value = values[i];
        values[i] = settled(value, window, end);
        end += moved_count(value, window);
    }
    end
}

/// Puts the strings that begin in a window, of values that are packed, one after the other from a place on, and gives where
/// they end. Those in front of another place are passed over.
fn settle_packed(values: &mut PackedValues<'_>, front: usize, window: Window, to: usize) -> usize
    requires behind { BeginsBehind front window }
    requires fits { to + values_count window values.old ≤ 18446744073709551615 }
    ensures settled { values.new ≡ values_settled window to values.old }
    ensures end { result ≡ to + values_count window values.old }
{
    let mut end = to;
    let mut at = values.next_behind(0, front);
    while at < values.len() {
        end += settle_at(values, at, window, end);
        at = values.next_behind(at + 1, front);
    }
    end
}

/// Puts the string at a place of values that are packed from another place on, if it begins in a window, and gives how many
/// bytes it has then. Another value isn't put again: one that takes more than eight bytes would be kept once more.
fn settle_at(values: &mut PackedValues<'_>, at: usize, window: Window, to: usize) -> usize
    requires { at < length values.old }
    ensures settled { values.new ≡ slice_set values.old at (settled window to (get_or values.old at (Int (pos 0)))) }
    ensures count { result ≡ moved_count window (get_or values.old at (Int (pos 0))) }
{
    let Some(value) = values.get(at) else {
        unreachable!()
    };
    if !moves(value, window) {
        return 0;
    }
    values.set(at, settled(value, window, to));
    moved_count(value, window)
}

/// Whether a value is a string that begins in a window.
fn moves(value: Held<'_>, window: Window) -> bool
    ensures stays { OnFalse result ((to : ℕ) → settled window to value.entry ≡ value.entry) }
    ensures none { OnFalse result (moved_count window value.entry ≡ 0) }
{
    match value {
        Held::Made(start, _) => window.has(start),
        _ => false,
    }
}

/// How many bytes a string has that begins in a window.
fn moved_count(value: Held<'_>, window: Window) -> usize
    ensures { result ≡ moved_count window value.entry }
{
    match value {
        Held::Made(start, count) if window.has(start) => count,
        _ => 0,
    }
}

/// A string that begins in a window, with its bytes from a place on. Another value stays.
fn settled<'a>(value: Held<'a>, window: Window, to: usize) -> Held<'a>
    ensures { result ≡ settled window to value.entry }
{
    match value {
        Held::Made(start, count) if window.has(start) => Held::Made(to, count),
        other => other,
    }
}

/// Writes bytes over those that a pool has from a place on.
fn put_over(pool: &mut Vec<u8>, to: usize, bytes: &[u8]) -> Result<(), NoMemory>
    requires { to ≤ length pool.old.items }
    ensures put { OnOk result (pool.new.items ≡ put_over to bytes.now pool.old.items) }
    ensures err { OnErr result (pool.new.items ≡ pool.old.items) }
{
    let end = to + bytes.len();
    if end > pool.as_slice().len() {
        pool.resize(end, 0)?;
    }
    pool[to..end].copy_from_slice(bytes);
    Ok(())
}
