//! Why a call of the planning desk is refused, and what it then returns.
#![tactic(auto)]

ghost use Rattle.std.specs.Prelude.{◌≡◌};
ghost use Rattle.causes.specs.Causes.{call_number, call_link, call_returned};

use plan::Cause;

/// Why a call is refused: its own causes, or that of plan A or of plan B.
#[derive(Clone, Copy, Debug, PartialEq, Eq)]
pub enum CallCause {
    Limit,
    Buffer,
    TableSize,
    TableValues,
    Place,
    Choice,
    SavedWork,
    OpenSplit,
    ManyLinks,
    RowSize,
    Plan(Cause),
    SecondPlan(Cause),
}

/// A plan's cause is that of plan A where no other is named.
impl From<Cause> for CallCause {
    ghost use Rattle.causes.specs.declared.CallCause.TheVariants.{Plan};

    ghost from_gives = { λ cause c. c ≡ Plan cause };

    fn from(cause: Cause) -> CallCause {
        CallCause::Plan(cause)
    }
}

impl From<tables::Cause> for CallCause {
    ghost use Rattle.causes.specs.Causes.{of_table};

    ghost from_gives = { λ cause c. c ≡ of_table cause };

    fn from(cause: tables::Cause) -> CallCause {
        match cause {
            tables::Cause::Size => CallCause::TableSize,
            tables::Cause::Values => CallCause::TableValues,
        }
    }
}

impl CallCause {
    /// The column Number.
    fn number(self) -> u8
        ensures { result ≡ call_number self }
    {
        match self {
            CallCause::Limit => 7,
            CallCause::Buffer => 9,
            CallCause::TableSize => 12,
            CallCause::TableValues => 13,
            CallCause::Place => 8,
            CallCause::Choice => 14,
            CallCause::SavedWork => 10,
            CallCause::OpenSplit => 11,
            CallCause::ManyLinks => 15,
            CallCause::RowSize => 16,
            CallCause::Plan(p) => p.number(),
            CallCause::SecondPlan(p) => p.number() + 20,
        }
    }

    /// The link that it names, or 0.
    fn named_link(self) -> u16
        ensures { result ≡ call_link self }
    {
        match self {
            CallCause::Plan(p) | CallCause::SecondPlan(p) => p.named_link(),
            _ => 0,
        }
    }
}

/// The column Returned.
pub fn call_returned(v: Result<(), CallCause>) -> u64
    ensures { result ≡ call_returned v }
{
    match v {
        Ok(()) => 0,
        Err(c) => u64::from(c.number()) + 256 * u64::from(c.named_link()),
    }
}
