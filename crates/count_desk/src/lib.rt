//! How many sets of links connect all nodes of a plan, for each number of links.
#![tactic(auto)]

ghost use Rattle.std.specs.Prelude.{◌≤◌, ◌≡◌, length};
ghost use Rattle.causes.specs.Causes.{call_returned};
ghost use Rattle.refusals.specs.Refusals.{also};
ghost use Rattle.count_desk.specs.Counts.{few, row_room, counts_verdict, counts_outcome};

use causes::CallCause;

/// Causes 15 and 16.
#[tactic(auto, unfolding(crate::specs::Counts::few, crate::specs::Counts::row_room))]
fn room_verdict(plan: &[u8], room: usize) -> Result<(), CallCause>
    requires { 4 ≤ length plan.now }
    ensures { result ≡ also (few plan.now) (row_room plan.now room) }
{
    let m = usize::from(reader::sizes_of(plan).m);
    if 24 < m {
        Err(CallCause::ManyLinks)
    } else if room < m + 1 {
        Err(CallCause::RowSize)
    } else {
        Ok(())
    }
}

/// Those of the plan, then these.
fn count_verdict(plan: &[u8], room: usize) -> Result<(), CallCause>
    ensures { result ≡ counts_verdict plan.now room }
{
    refusals::plan_verdict(plan)?;
    room_verdict(plan, room)
}

/// The row filled where no cause refuses it. Under the built-in table: no value of a link bears on a count.
fn fill_row(plan: &[u8], row: &mut [u64]) -> Result<(), CallCause>
    ensures returned { call_returned result ≡ (counts_outcome plan.now row.old).returned }
    ensures row_after { row.new ≡ (counts_outcome plan.now row.old).buffer }
{
    count_verdict(plan, row.len())?;
    counting::fill(loading::built_in(plan), row);
    Ok(())
}

pub fn counts(plan: &[u8], row: &mut [u64]) -> u64
    ensures value { result ≡ (counts_outcome plan.now row.old).returned }
    ensures row_after { row.new ≡ (counts_outcome plan.now row.old).buffer }
{
    causes::call_returned(fill_row(plan, row))
}
