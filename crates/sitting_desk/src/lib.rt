//! A sitting of the planning desk: a long run is set aside and carried on.
#![tactic(auto)]

ghost use Rattle.std.specs.Prelude.{◌≡◌, ◌+◌, ◌-◌, ◌^◌, ◌≤◌, ◌<◌, ◌++◌, min, length, take, drop};
ghost use Rattle.reliability.specs.Rule.{more};
ghost use Rattle.causes.specs.Causes.{call_returned};
ghost use Rattle.answers.specs.Answers.{with_figure};
ghost use Rattle.sittings.specs.Sittings.{most};
ghost use Rattle.saved.specs.Format.{taken_in, saved_bytes, over};
ghost use Rattle.sitting_desk.specs.Outcome.{verdict_of, sitting_of, sitting_outcome};
ghost use Rattle.sitting_desk.specs.Carrying.{Resumable, InRow, work_of, left_of, Resumed, bytes_of};

use causes::CallCause;
use reliability::Figure;
use saved::SavedWork;
use sittings::Carried;

/// The limit, or what is left of 1,000,000 steps if that is less.
fn allowance(limit: u64, taken: u32) -> u64
    requires { taken ≤ most }
    ensures { result ≡ min limit (most - taken) }
{
    limit.min(1_000_000 - u64::from(taken))
}

/// A figure with the steps of the earlier sittings.
fn with_earlier(taken: u32, f: Figure) -> Figure
    requires { taken + f.steps < 2 ^ 32 }
    ensures { result ≡ more taken f }
{
    Figure {
        steps: taken + f.steps,
        ..f
    }
}

/// Every cause of a sitting, in order.
fn verdict_of(
    plan: &[u8],
    table: &[u8],
    limit: u64,
    saved: &[u8],
    room: usize,
    space: usize,
) -> Result<(), CallCause>
    ensures { result ≡ verdict_of plan.now table.now limit saved.now room space }
{
    refusals::sitting_verdict(plan, table, limit, room, space)?;
    saved_verdict::saved_verdict(plan, table, saved)
}

/// The open splits in the row are put back and worked under the limit.
fn carried(
    plan: &[u8],
    table: &[u8],
    limit: u64,
    earlier: SavedWork,
    row: &mut [u32; 192],
) -> Carried
    requires { Resumable plan.now table.now earlier.bytes.now × InRow earlier.bytes.now row.old }
    ensures { Resumed (work_of plan.now table.now earlier.entry.bytes.now) (left_of limit earlier.entry.bytes.now) (taken_in earlier.entry.bytes.now) row.old result row.new }
{
    let count = earlier.count();
    let taken = earlier.taken();
    let limited = allowance(limit, taken);
    let r = factoring::carry(loading::network_of(plan, table), limited, row, count);
    Carried {
        figure: with_earlier(taken, r.figure),
        ..r
    }
}

/// Complete or begun, by the figure's mark.
fn set_aside(work: &mut [u8], row: &[u32; 192], r: Carried)
    requires { (r.aside ≤ 64) × (776 ≤ length work.old) }
    ensures { work.new ≡ over (bytes_of r.figure row.now r.aside) work.old }
{
    let f = r.figure;
    if f.finished {
        saved_writing::put_complete(work, f);
    } else {
        saved_writing::put_begun(work, row, r.aside, f.steps);
    }
}

/// Complete work: the answer from its own bytes, and all of them again.
fn give_again(saved: &[u8], answer: &mut [u8], work: &mut [u8])
    requires { (length saved.now ≡ 24) × (16 ≤ length answer.old) × (24 ≤ length work.old) }
    ensures answer_after { answer.new ≡ take 16 (drop 8 saved.now) ++ drop 16 answer.old }
    ensures work_after { work.new ≡ over saved.now work.old }
{
    answer[..16].copy_from_slice(&saved[8..24]);
    work[..24].copy_from_slice(saved);
}

/// Begun work is put back, worked and set aside again.
fn carry_on(
    plan: &[u8],
    table: &[u8],
    limit: u64,
    earlier: SavedWork,
    answer: &mut [u8],
    work: &mut [u8],
)
    requires { Resumable plan.now table.now earlier.bytes.now × (16 ≤ length answer.old) × (776 ≤ length work.old) }
    ensures answer_after { answer.new ≡ with_figure (sitting_of plan.now table.now limit earlier.entry.bytes.now).answer answer.old }
    ensures work_after { work.new ≡ over (saved_bytes (sitting_of plan.now table.now limit earlier.entry.bytes.now).saved) work.old }
{
    let mut row = earlier.row();
    let r = carried(plan, table, limit, earlier, &mut row);
    let f = r.figure;
    answers::put_answer(answer, f.low, f.high, f.steps, f.finished);
    set_aside(work, &row, r);
}

/// Complete work is given again, begun work carried on.
fn answer_sitting(
    plan: &[u8],
    table: &[u8],
    limit: u64,
    saved: &[u8],
    answer: &mut [u8],
    work: &mut [u8],
) -> Result<(), CallCause>
    ensures returned { call_returned result ≡ (sitting_outcome plan.now table.now limit saved.now answer.old work.old).returned }
    ensures answer_after { answer.new ≡ (sitting_outcome plan.now table.now limit saved.now answer.old work.old).answer }
    ensures work_after { work.new ≡ (sitting_outcome plan.now table.now limit saved.now answer.old work.old).work }
{
    verdict_of(plan, table, limit, saved, answer.len(), work.len())?;
    let earlier = SavedWork { bytes: saved };
    if earlier.is_complete() {
        give_again(saved, answer, work);
        return Ok(());
    }
    carry_on(plan, table, limit, earlier, answer, work);
    Ok(())
}

pub fn sitting(
    plan: &[u8],
    table: &[u8],
    limit: u64,
    saved: &[u8],
    answer: &mut [u8],
    work: &mut [u8],
) -> u64
    ensures value { result ≡ (sitting_outcome plan.now table.now limit saved.now answer.old work.old).returned }
    ensures answer_after { answer.new ≡ (sitting_outcome plan.now table.now limit saved.now answer.old work.old).answer }
    ensures work_after { work.new ≡ (sitting_outcome plan.now table.now limit saved.now answer.old work.old).work }
{
    causes::call_returned(answer_sitting(plan, table, limit, saved, answer, work))
}
