//! Why a certificate isn't accepted, as a last line tells it.

ghost use Rattle.std.specs.Prelude.{◌≡◌};
ghost use Rattle.bst_run.specs.Refusals as refusals;

use cert_check::refusal::Reason;
use sym_state::demand::DemandKind;

/// The name of a rule, which for a demand is the demand's. Want of memory, which no answer tells, has one too.
pub fn name_of(reason: Reason) -> &'static str
    ensures { result.now ≡ refusals.name_of reason }
{
    match reason {
        Reason::Demand(demand) => demand_name(demand.kind),
        Reason::NotEntailed(_) => "NotEntailed",
        Reason::NoSummary => "NoSummary",
        Reason::NoInvariant => "NoInvariant",
        Reason::UnknownFunction => "UnknownFunction",
        Reason::HintsLeft => "HintsLeft",
        Reason::HintsShort => "HintsShort",
        Reason::TooManyCases => "TooManyCases",
        Reason::NoMemory => "NoMemory",
        Reason::CommandShape => "CommandShape",
        Reason::WalkTooLong => "WalkTooLong",
        Reason::WalkTooDeep => "WalkTooDeep",
        Reason::WrongHint => "WrongHint",
    }
}

/// The name of a demand.
pub fn demand_name(kind: DemandKind) -> &'static str
    ensures { result.now ≡ refusals.demand_name kind }
{
    match kind {
        DemandKind::EmptyPop => "EmptyPop",
        DemandKind::WrongKind => "WrongKind",
        DemandKind::NotVariable => "NotVariable",
        DemandKind::NoEntry => "NoEntry",
        DemandKind::BadCase => "BadCase",
        DemandKind::NotOneByte => "NotOneByte",
        DemandKind::NotAscii => "NotAscii",
        DemandKind::BadNameIndex => "BadNameIndex",
        DemandKind::BadName => "BadName",
        DemandKind::BadPattern => "BadPattern",
        DemandKind::IntRange => "IntRange",
        DemandKind::StackLeft => "StackLeft",
        DemandKind::WholeStack => "WholeStack",
    }
}

/// The number behind the name: the operand of a demand, and the line that isn't shown.
pub fn number_of(reason: Reason) -> Option<u32>
    ensures { result ≡ refusals.number_of reason }
{
    match reason {
        Reason::Demand(demand) if demand.operand > 0 => Some(u32::from(demand.operand)),
        Reason::NotEntailed(line) => Some(line),
        _ => None,
    }
}
