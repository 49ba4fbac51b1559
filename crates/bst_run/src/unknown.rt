//! Why no certificate is found, as a last line tells it.

ghost use Rattle.std.specs.Prelude.{◌≡◌, IfOk};
ghost use Rattle.std.specs.String.{string_bytes};
ghost use Rattle.bst_run.specs.Unknowns as unknowns;

use crate::refusal::demand_name;
use bv_base::memory::NoMemory;
use infer::UnknownReason;
use std::alloc::Global;

/// The name of a reason, and its number where it has one.
pub fn reason_text(alloc: Global, reason: UnknownReason) -> Result<String, NoMemory>
    ensures { IfOk result (λ text. string_bytes text ≡ unknowns.reason_text reason) }
{
    let name = name_of(reason);
    match number_of(reason) {
        Some(number) => Ok(format!(in alloc; "{name} {number}")?),
        None => Ok(String::from_str(alloc, name)?),
    }
}

/// The name of a reason, which for a demand is the demand's. Want of memory, which no answer tells, has one too.
fn name_of(reason: UnknownReason) -> &'static str
    ensures { result.now ≡ unknowns.name_of reason }
{
    match reason {
        UnknownReason::Demand(demand) => demand_name(demand.kind),
        UnknownReason::Loop => "Loop",
        UnknownReason::TooManyCases => "TooManyCases",
        UnknownReason::WalkTooLong => "WalkTooLong",
        UnknownReason::WalkTooDeep => "WalkTooDeep",
        UnknownReason::UnknownFunction => "UnknownFunction",
        UnknownReason::Rejected => "Rejected",
        UnknownReason::NoMemory => "NoMemory",
    }
}

/// The number behind the name: the operand of a demand.
fn number_of(reason: UnknownReason) -> Option<u32>
    ensures { result ≡ unknowns.number_of reason }
{
    match reason {
        UnknownReason::Demand(demand) if demand.operand > 0 => Some(u32::from(demand.operand)),
        _ => None,
    }
}
