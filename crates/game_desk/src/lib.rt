//! Cutter and keeper on a plan: who can force the win, for each side opening, and what shows it.
#![tactic(auto)]

ghost use Rattle.std.specs.Prelude.{◌+◌, ◌≤◌, ◌≡◌, ◌++◌, ◌∷◌, cond, length, take, drop};
ghost use Rattle.plan.specs.Plans.{size_n, WellFormed};
ghost use Rattle.causes.specs.Causes.{call_returned};
ghost use Rattle.forests.specs.Answers.{Plan};
ghost use Rattle.forests.specs.Links.{links_of};
ghost use Rattle.game_desk.specs.Games.{game_verdict, game_returned, ends_of, GameLeaves};

use causes::CallCause;
use forests::{Answer, Links};

/// Cause 9, then those of the plan.
#[tactic(auto, unfolding(crate::specs::Games::game_room))]
fn game_verdict(plan: &[u8], room: usize) -> Result<(), CallCause>
    ensures { result ≡ game_verdict plan.now room }
{
    if room < 98 {
        return Err(CallCause::Buffer);
    }
    refusals::plan_verdict(plan)
}

/// The links of an accepted plan, by place.
fn links_of(plan: &[u8]) -> Links
    requires { WellFormed plan.now }
    ensures { (links_of result ≡ ends_of plan.now) × Plan result (size_n plan.now) }
{
    let m = usize::from(reader::sizes_of(plan).m);
    let mut a = [0; 64];
    let mut b = [0; 64];
    for i in 0..m {
        let e = reader::entry_at(plan, i);
        a[i] = e.a;
        b[i] = e.b;
    }
    Links { a, b, m }
}

/// The two winners, the trees and the groups; the bytes behind them keep their contents.
fn put_game(b: &mut [u8], r: Answer)
    requires { 98 ≤ length b.old }
    ensures { b.new ≡ cond r.second 1 0 ∷ cond r.first 1 0 ∷ (r.trees ++ r.groups ++ drop 98 b.old) }
{
    b[0] = u8::from(r.second);
    b[1] = u8::from(r.first);
    b[2..66].copy_from_slice(&r.trees);
    b[66..98].copy_from_slice(&r.groups);
}

/// The game answered where no cause refuses it.
fn answer_game(plan: &[u8], answer: &mut [u8]) -> Result<(), CallCause>
    ensures returned { call_returned result ≡ game_returned plan.now (length answer.old) }
    ensures game_leaves { GameLeaves plan.now answer.old answer.new }
{
    game_verdict(plan, answer.len())?;
    let n = usize::from(reader::sizes_of(plan).n);
    put_game(answer, links_of(plan).decided(n));
    Ok(())
}

pub fn game(plan: &[u8], answer: &mut [u8]) -> u64
    ensures value { result ≡ game_returned plan.now (length answer.old) }
    ensures game_leaves { GameLeaves plan.now answer.old answer.new }
{
    causes::call_returned(answer_game(plan, answer))
}
