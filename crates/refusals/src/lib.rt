//! Which cause of refusal a call of the planning desk meets first.
#![tactic(auto)]

ghost use Rattle.std.specs.Prelude.{◌≡◌, ◌≤◌, length};
ghost use Rattle.plan.specs.Plans.{size_n, verdict};
ghost use Rattle.refusals.specs.Refusals.{asked, work_room, tabled, also, planned, planned_second, placed, named, table_and_plan, figure_verdict, chosen_verdict, importance_verdict, sitting_verdict};

use causes::CallCause;

/// Causes 7 and 9.
#[tactic(auto, unfolding(crate::specs::Refusals::asked))]
fn asked_verdict(limit: u64, room: usize) -> Result<(), CallCause>
    ensures { result ≡ asked limit room }
{
    if 1_000_000 < limit {
        return Err(CallCause::Limit);
    }
    if room < 16 {
        return Err(CallCause::Buffer);
    }
    Ok(())
}

/// And 9 of a sitting, which is lent a buffer for its work too.
#[tactic(auto, unfolding(crate::specs::Refusals::work_room))]
fn sitting_asked(limit: u64, answer: usize, work: usize) -> Result<(), CallCause>
    ensures { result ≡ also (asked limit answer) (work_room work) }
{
    asked_verdict(limit, answer)?;
    if work < 776 {
        return Err(CallCause::Buffer);
    }
    Ok(())
}

/// Causes 1 to 6, of plan A.
pub fn plan_verdict(plan: &[u8]) -> Result<(), CallCause>
    ensures { result ≡ planned (verdict plan.now) }
{
    Ok(plan::verdict_of(plan)?)
}

/// And of plan B.
pub fn second_verdict(plan: &[u8]) -> Result<(), CallCause>
    ensures { result ≡ planned_second (verdict plan.now) }
{
    plan::verdict_of(plan).map_err(CallCause::SecondPlan)
}

/// Causes 12 and 13.
#[tactic(auto, unfolding(crate::specs::Refusals::tabled, tables::specs::Tables::verdict))]
fn table_verdict(table: &[u8]) -> Result<(), CallCause>
    ensures { result ≡ tabled table.now }
{
    Ok(tables::verdict_of(table)?)
}

/// And then those of plan A.
fn table_and_plan(plan: &[u8], table: &[u8]) -> Result<(), CallCause>
    ensures { result ≡ table_and_plan plan.now table.now }
{
    table_verdict(table)?;
    plan_verdict(plan)
}

/// Cause 8.
#[tactic(auto, unfolding(crate::specs::Refusals::placed))]
fn place_verdict(plan: &[u8], place: u64) -> Result<(), CallCause>
    requires { 4 ≤ length plan.now }
    ensures { result ≡ placed plan.now place }
{
    if place < u64::from(reader::sizes_of(plan).m) {
        Ok(())
    } else {
        Err(CallCause::Place)
    }
}

/// Cause 14.
#[tactic(auto, using(bits::proofs::Operations::power), unfolding(crate::specs::Refusals::named))]
fn choice_verdict(plan: &[u8], choice: u64) -> Result<(), CallCause>
    requires { (4 ≤ length plan.now) × (size_n plan.now ≤ 32) }
    ensures { result ≡ named plan.now choice }
{
    let n = reader::sizes_of(plan).n;
    if choice == 0 || (1u64 << n) <= choice {
        Err(CallCause::Choice)
    } else {
        Ok(())
    }
}

pub fn figure_verdict(plan: &[u8], table: &[u8], limit: u64, room: usize) -> Result<(), CallCause>
    ensures { result ≡ figure_verdict plan.now table.now limit room }
{
    asked_verdict(limit, room)?;
    table_and_plan(plan, table)
}

pub fn chosen_verdict(
    plan: &[u8],
    table: &[u8],
    choice: u64,
    limit: u64,
    room: usize,
) -> Result<(), CallCause>
    ensures { result ≡ chosen_verdict plan.now table.now choice limit room }
{
    figure_verdict(plan, table, limit, room)?;
    choice_verdict(plan, choice)
}

pub fn importance_verdict(
    plan: &[u8],
    table: &[u8],
    place: u64,
    limit: u64,
    room: usize,
) -> Result<(), CallCause>
    ensures { result ≡ importance_verdict plan.now table.now place limit room }
{
    figure_verdict(plan, table, limit, room)?;
    place_verdict(plan, place)
}

/// What stands before causes 10 and 11.
pub fn sitting_verdict(
    plan: &[u8],
    table: &[u8],
    limit: u64,
    room: usize,
    work: usize,
) -> Result<(), CallCause>
    ensures { result ≡ sitting_verdict plan.now table.now limit room work }
{
    sitting_asked(limit, room, work)?;
    table_and_plan(plan, table)
}
