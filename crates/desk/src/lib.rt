//! The planning desk's seven calls, for programs in C.
#![tactic(auto)]

ghost use Rattle.std.specs.Prelude.{◌≡◌, length};
ghost use Rattle.causes.specs.Causes.{call_returned};
ghost use Rattle.sitting_desk.specs.Outcome.{sitting_outcome};
ghost use Rattle.count_desk.specs.Counts.{counts_outcome};
ghost use Rattle.game_desk.specs.Games.{game_returned, GameLeaves};
ghost use Rattle.desk.specs.Outcomes.{twos, check_outcome, figure_outcome, importance_outcome, difference_outcome};

use causes::CallCause;

/// Two's complement in 32 bits.
#[tactic(auto, using(crate::proofs::TwosComplement::on_bits))]
fn bits_of(x: i32) -> u32
    ensures { result ≡ twos x }
{
    x.cast_unsigned()
}

/// The figure of the chosen nodes answered where no cause refuses it.
fn answer_figure(
    plan: &[u8],
    table: &[u8],
    choice: u64,
    limit: u64,
    answer: &mut [u8],
) -> Result<(), CallCause>
    ensures returned { call_returned result ≡ (figure_outcome plan.now table.now choice limit answer.old).returned }
    ensures answer_after { answer.new ≡ (figure_outcome plan.now table.now choice limit answer.old).buffer }
{
    refusals::chosen_verdict(plan, table, choice, limit, answer.len())?;
    let net = loading::network_of(plan, table).with_chosen(choice as u32);
    let f = factoring::work(net, limit);
    answers::put_answer(answer, f.low, f.high, f.steps, f.finished);
    Ok(())
}

/// The same of a link's importance.
fn answer_importance(
    plan: &[u8],
    table: &[u8],
    place: u64,
    limit: u64,
    answer: &mut [u8],
) -> Result<(), CallCause>
    ensures returned { call_returned result ≡ (importance_outcome plan.now table.now place limit answer.old).returned }
    ensures answer_after { answer.new ≡ (importance_outcome plan.now table.now place limit answer.old).buffer }
{
    refusals::importance_verdict(plan, table, place, limit, answer.len())?;
    let gain = comparisons::importance(loading::network_of(plan, table), place as usize, limit);
    answers::put_answer(answer, gain.low, gain.high, gain.steps, gain.finished);
    Ok(())
}

/// The same of the difference of two plans.
fn answer_difference(
    first: &[u8],
    second: &[u8],
    table: &[u8],
    limit: u64,
    answer: &mut [u8],
) -> Result<(), CallCause>
    ensures returned { call_returned result ≡ (difference_outcome first.now second.now table.now limit answer.old).returned }
    ensures answer_after { answer.new ≡ (difference_outcome first.now second.now table.now limit answer.old).buffer }
{
    refusals::figure_verdict(first, table, limit, answer.len())?;
    refusals::second_verdict(second)?;
    let d = comparisons::difference(
        loading::network_of(first, table),
        loading::network_of(second, table),
        limit,
    );
    answers::put_answer(answer, bits_of(d.low), bits_of(d.high), d.steps, d.finished);
    Ok(())
}

#[unsafe(no_mangle)]
pub extern "C" fn check(plan: &[u8]) -> u64
    ensures { result ≡ check_outcome plan.now }
{
    plan::returned(plan::verdict_of(plan))
}

#[unsafe(no_mangle)]
pub extern "C" fn figure(
    plan: &[u8],
    table: &[u8],
    choice: u64,
    limit: u64,
    answer: &mut [u8],
) -> u64
    ensures value { result ≡ (figure_outcome plan.now table.now choice limit answer.old).returned }
    ensures answer_after { answer.new ≡ (figure_outcome plan.now table.now choice limit answer.old).buffer }
{
    causes::call_returned(answer_figure(plan, table, choice, limit, answer))
}

#[unsafe(no_mangle)]
pub extern "C" fn importance(
    plan: &[u8],
    table: &[u8],
    place: u64,
    limit: u64,
    answer: &mut [u8],
) -> u64
    ensures value { result ≡ (importance_outcome plan.now table.now place limit answer.old).returned }
    ensures answer_after { answer.new ≡ (importance_outcome plan.now table.now place limit answer.old).buffer }
{
    causes::call_returned(answer_importance(plan, table, place, limit, answer))
}

#[unsafe(no_mangle)]
pub extern "C" fn difference(
    first: &[u8],
    second: &[u8],
    table: &[u8],
    limit: u64,
    answer: &mut [u8],
) -> u64
    ensures value { result ≡ (difference_outcome first.now second.now table.now limit answer.old).returned }
    ensures answer_after { answer.new ≡ (difference_outcome first.now second.now table.now limit answer.old).buffer }
{
    causes::call_returned(answer_difference(first, second, table, limit, answer))
}

#[unsafe(no_mangle)]
pub extern "C" fn sitting(
    plan: &[u8],
    table: &[u8],
    limit: u64,
    saved: &[u8],
    answer: &mut [u8],
    work: &mut [u8],
) -> u64
    ensures value { result ≡ (sitting_outcome plan.now table.now limit saved.now answer.old work.old).returned }
    ensures answer_after { answer.new ≡ (sitting_outcome plan.now table.now limit saved.now answer.old work.old).answer }
    ensures work_after { work.new ≡ (sitting_outcome plan.now table.now limit saved.now answer.old work.old).work }
{
    sitting_desk::sitting(plan, table, limit, saved, answer, work)
}

#[unsafe(no_mangle)]
pub extern "C" fn counts(plan: &[u8], row: &mut [u64]) -> u64
    ensures value { result ≡ (counts_outcome plan.now row.old).returned }
    ensures row_after { row.new ≡ (counts_outcome plan.now row.old).buffer }
{
    count_desk::counts(plan, row)
}

#[unsafe(no_mangle)]
pub extern "C" fn game(plan: &[u8], answer: &mut [u8]) -> u64
    ensures value { result ≡ game_returned plan.now (length answer.old) }
    ensures game_leaves { GameLeaves plan.now answer.old answer.new }
{
    game_desk::game(plan, answer)
}
