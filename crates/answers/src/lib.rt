//! An answer: four numbers in sixteen bytes.
#![tactic(auto)]

ghost use Rattle.std.specs.Prelude.{◌≡◌, ◌≤◌, length};
ghost use Rattle.answers.specs.Answers.{answered};

use words::Word;

/// Four numbers in the first sixteen bytes.
pub fn put_answer(b: &mut [u8], low: u32, high: u32, steps: u32, finished: bool)
    requires { 16 ≤ length b.old }
    ensures { b.new ≡ answered low high steps finished b.old }
{
    low.put(b, 0);
    high.put(b, 4);
    steps.put(b, 8);
    u32::from(finished).put(b, 12);
}
