//! Values as the machine holds them: the bytes of a string are lent, or were made and stand in a pool.

ghost use Rattle.std.specs.Prelude.{◌≡◌, ◌+◌, ◌<◌, ◌≤◌, ℕ, List, ◌++◌, drop, length, option_map, slice_get, take, IfOk, IfSome, OnErr, OnOk};
ghost use Rattle.bst_meaning.specs.declared.value.Value.TheVariants.{Int, Str};
ghost use Rattle.bst_meaning.specs.Sorting.{string_of};
ghost use Rattle.bst_step.specs.Held.{end_of, lent_of, part_from, value_in, value_of};
ghost use Rattle.bst_step.specs.Marks as mark;
ghost use Rattle.bst_step.specs.Marks.{lent_mark, mark_of};

use bst_meaning::value::Target;
use bv_base::bytes::part_of;
use bv_base::memory::NoMemory;
use name_table::names::NameId;

/// A pool isn't made anew for fewer bytes that nobody holds.
const LEAST_SPARED: usize = 65536;

/// Nor for fewer bytes for each entry, whose values are gone through then.
const ENTRY_BYTES: usize = 8;

/// A value whose bytes are lent: those of an operand to a built-in function, or those of the style, of the entry list or of
/// a constant text to the machine.
#[derive(Clone, Copy)]
pub enum Operand<'a> {
    Int(i32),
    Str(&'a [u8]),
    /// A field that the entry doesn't have.
    Missing(NameId),
    Func(Target),
}

/// A value as the machine holds it. To copy it copies no bytes.
#[derive(Clone, Copy)]
pub enum Held<'a> {
    Int(i32),
    /// A string whose bytes the machine doesn't own.
    Str(&'a [u8]),
    /// Such a string of no bytes, which is the same wherever it comes from.
    Empty,
    /// A field that the entry doesn't have.
    Missing(NameId),
    Func(Target),
    /// A string that was made: where its bytes begin in the pool, and how many there are.
    Made(usize, usize),
}

impl<'a> Default for Held<'a> {
    fn default() -> Held<'a> {
        Held::Int(0)
    }
}

impl<'a> Operand<'a> {
    /// The value as the machine holds it, over any pool.
    #[inline(always)]
    pub fn held(self) -> Held<'a>
        ensures value { (pool : List ℕ) → value_in pool result ≡ value_of self.entry }
        ensures within { end_of result ≡ 0 }
        ensures mark { mark_of result ≡ lent_mark (value_of self.entry) }
    {
        match self {
            Operand::Int(n) => Held::Int(n),
            Operand::Str(bytes) => {
                if bytes.is_empty() {
                    Held::Empty
                } else {
                    Held::Str(bytes)
                }
            }
            Operand::Missing(name) => Held::Missing(name),
            Operand::Func(target) => Held::Func(target),
        }
    }
}

impl<'a> Held<'a> {
    /// The value, with the bytes that it has in this pool.
    #[inline(always)]
    pub fn operand<'b>(self, pool: &'b [u8]) -> Operand<'b>
    where
        'a: 'b,
        ensures { value_of result ≡ value_in pool.now self.entry }
    {
        match self {
            Held::Int(n) => Operand::Int(n),
            Held::Str(bytes) => Operand::Str(bytes),
            Held::Empty => Operand::Str(&[]),
            Held::Missing(name) => Operand::Missing(name),
            Held::Func(target) => Operand::Func(target),
            Held::Made(start, count) => Operand::Str(part_of(pool, start, count)),
        }
    }

    /// The integer that it is.
    #[inline(always)]
    pub fn integer(self) -> Option<i32>
        ensures value { (pool : List ℕ) → IfSome result (λ n. value_in pool self.entry ≡ Int n) }
        ensures mark { IfSome result (λ n. mark_of self.entry ≡ mark.NoString) }
    {
        match self {
            Held::Int(n) => Some(n),
            _ => None,
        }
    }

    /// The bytes of a string that are lent.
    #[inline(always)]
    pub fn lent(self) -> Option<&'a [u8]>
        ensures { option_map (λ bytes. bytes.now) result ≡ lent_of self.entry }
    {
        match self {
            Held::Str(bytes) => Some(bytes),
            Held::Empty => Some(&[]),
            _ => None,
        }
    }

    /// Where its bytes end in the pool.
    #[inline(always)]
    pub fn end(self, pool: &[u8]) -> usize
        requires { end_of self ≤ length pool.now }
        ensures { result ≡ end_of self.entry }
    {
        match self {
            Held::Made(start, count) => start + count,
            _ => 0,
        }
    }

    /// Of a string the part of so many bytes from a place on, or what there is of it. Another value stays.
    pub fn part(self, pool: &[u8], from: usize, count: usize) -> Held<'a>
        requires { end_of self ≤ length pool.now }
        ensures value { value_in pool.now result ≡ part_from from count (value_in pool.now self.entry) }
        ensures within { end_of result ≤ end_of self.entry }
        ensures mark { mark_of result ≡ mark_of self.entry }
    {
        match self {
            Held::Str(bytes) => Operand::Str(part_of(bytes, from, count)).held(),
            Held::Made(start, length) => {
                let skipped = from.min(length);
                Held::Made(start + skipped, count.min(length - skipped))
            }
            other => other,
        }
    }

    /// How many bytes of a string were made. No clause speaks of it.
    fn made_count(self) -> usize {
        match self {
            Held::Made(_, count) => count,
            _ => 0,
        }
    }

    /// Appends the bytes of a string to the pool in which it stands.
    pub fn append_to(self, pool: &mut Vec<u8>) -> Result<(), NoMemory>
        requires { end_of self ≤ length pool.old.items }
        ensures appended { OnOk result (pool.new.items ≡ pool.old.items ++ string_of (value_in pool.old.items self.entry)) }
        ensures err { OnErr result (pool.new.items ≡ pool.old.items) }
    {
        match self {
            Held::Str(bytes) => Ok(pool.extend_from_slice(bytes)?),
            Held::Made(start, count) => Ok(pool.extend_from_within(start..start + count)?),
            _ => Ok(()),
        }
    }
}

/// A string of these bytes, which are copied to the end of a pool.
#[tactic(auto, using(crate::proofs::ViewSteps::made_bytes, crate::proofs::ViewSteps::front_stays))]
pub fn made_in<'a>(bytes: &[u8], pool: &mut Vec<u8>) -> Result<Held<'a>, NoMemory>
    ensures value { IfOk result (λ made. value_in pool.new.items made ≡ Str bytes.now) }
    ensures within { IfOk result (λ made. end_of made ≤ length pool.new.items) }
    ensures mark { IfOk result (λ made. mark_of made ≡ mark.Made) }
    ensures grown { take (length pool.old.items) pool.new.items ≡ pool.old.items }
{
    let start = pool.as_slice().len();
    pool.extend_from_slice(bytes)?;
    Ok(Held::Made(start, bytes.len()))
}

/// A value whose bytes, where they were made and stand behind a place in the pool, are brought down to that place, and nothing
/// is left behind them. Where values are left on the stack nothing is moved.
#[inline(always)]
pub fn brought_down<'a>(value: Held<'a>, left: usize, place: usize, pool: &mut Vec<u8>) -> Held<'a>
    requires { end_of value ≤ length pool.old.items }
    ensures value { value_in pool.new.items result ≡ value_in pool.old.items value.entry }
    ensures within { end_of result ≤ length pool.new.items }
    ensures mark { mark_of result ≡ mark_of value.entry }
    ensures front { take place pool.new.items ≡ take place pool.old.items }
    ensures left { 0 < left → pool.new.items ≡ pool.old.items }
{
    match value {
        Held::Made(start, count) if left == 0 && place < start => {
            bring_down(pool, start, count, place);
            Held::Made(place, count)
        }
        other => other,
    }
}

/// Brings so many bytes of a pool down from one place to another, and leaves nothing behind them.
#[inline(never)]
fn bring_down(pool: &mut Vec<u8>, start: usize, count: usize, place: usize)
    requires behind { place < start }
    requires within { start + count ≤ length pool.old.items }
    ensures bytes { take count (drop place pool.new.items) ≡ take count (drop start pool.old.items) }
    ensures front { take place pool.new.items ≡ take place pool.old.items }
    ensures end { place + count ≤ length pool.new.items }
{
    pool.copy_within(start..start + count, place);
    pool.truncate(place + count);
}

/// The strings a and b one after the other, in the pool in which they stand. Where a stands at its end, b alone is copied.
pub fn joined_in<'a>(a: Held<'a>, b: Held<'a>, pool: &mut Vec<u8>) -> Result<Held<'a>, NoMemory>
    requires a { end_of a ≤ length pool.old.items }
    requires b { end_of b ≤ length pool.old.items }
    ensures value { IfOk result (λ joined. value_in pool.new.items joined ≡
        Str (string_of (value_in pool.old.items a.entry) ++ string_of (value_in pool.old.items b.entry))) }
    ensures within { IfOk result (λ joined. end_of joined ≤ length pool.new.items) }
    ensures mark { IfOk result (λ joined. mark_of joined ≡ mark.Made) }
    ensures grown { take (length pool.old.items) pool.new.items ≡ pool.old.items }
{
    let start = brought_to_end(a, pool)?;
    b.append_to(pool)?;
    Ok(Held::Made(start, pool.as_slice().len() - start))
}

/// Brings the bytes of a string to the end of the pool in which it stands, where they aren't there yet, and gives where
/// they begin.
fn brought_to_end(a: Held<'_>, pool: &mut Vec<u8>) -> Result<usize, NoMemory>
    requires { end_of a ≤ length pool.old.items }
    ensures last { IfOk result (λ start. drop start pool.new.items ≡ string_of (value_in pool.old.items a.entry)) }
    ensures within { IfOk result (λ start. start ≤ length pool.new.items) }
    ensures grown { take (length pool.old.items) pool.new.items ≡ pool.old.items }
{
    let end = pool.as_slice().len();
    if let Held::Made(start, count) = a {
        if start + count == end {
            return Ok(start);
        }
    }
    a.append_to(pool)?;
    Ok(end)
}

/// How many bytes variables hold once one of them has another value, if there is that one.
pub fn live_after(live: usize, old: Option<Held<'_>>, new: Held<'_>) -> usize {
    match old {
        Some(old) => live
            .saturating_sub(old.made_count())
            .saturating_add(new.made_count()),
        None => live,
    }
}

/// A pool of which so many bytes are kept, beside so many entries, is made anew where variables don't hold more of them than
/// this: so that all pools that are made take a few times what was written at most.
pub fn least_spared(kept: usize, entries: usize) -> usize {
    (kept / 8)
        .saturating_add(entries.saturating_mul(ENTRY_BYTES))
        .saturating_add(LEAST_SPARED)
}
