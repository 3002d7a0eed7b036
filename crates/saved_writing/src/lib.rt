//! Saved work in its bytes: written.
#![tactic(auto)]

ghost use Rattle.std.specs.Prelude.{◌≡◌, ◌++◌, ◌+◌, ◌*◌, ◌≤◌, length, take, drop};
ghost use Rattle.sittings.specs.Sittings.{complete};
ghost use Rattle.saved.specs.Format.{words, row_places, row_pairs, saved_bytes, begun_bytes, over};

use reliability::Figure;
use words::Word;

/// The places of c open splits behind the sizes, and their pairs behind the places.
fn put_places(work: &mut [u8], row: &[u32; 192], c: usize)
    requires { (c ≤ 64) × (776 ≤ length work.old) }
    ensures { work.new ≡ take 8 work.old ++ words (row_places row.now 0 c) ++ drop (8 + 4 * c) work.old }
{
    for i in 0..c {
        row[3 * i].put(work, 8 + 4 * i);
    }
}

fn put_pairs(work: &mut [u8], row: &[u32; 192], c: usize)
    requires { (c ≤ 64) × (776 ≤ length work.old) }
    ensures { work.new ≡ take (8 + 4 * c) work.old ++ words (row_pairs row.now 0 c) ++ drop (8 + 12 * c) work.old }
{
    for i in 0..c {
        let to = 8 + 4 * c + 8 * i;
        row[3 * i + 1].put(work, to);
        row[3 * i + 2].put(work, to + 4);
    }
}

/// c open splits and the steps so far.
pub fn put_begun(work: &mut [u8], row: &[u32; 192], c: usize, steps: u32)
    requires { (c ≤ 64) × (776 ≤ length work.old) }
    ensures { work.new ≡ over (begun_bytes row.now c steps) work.old }
{
    (c as u16).put(work, 0);
    0u16.put(work, 2);
    steps.put(work, 4);
    put_places(work, row, c);
    put_pairs(work, row, c);
}

/// No open split, the steps and the answer.
pub fn put_complete(work: &mut [u8], f: Figure)
    requires { 24 ≤ length work.old }
    ensures { work.new ≡ over (saved_bytes (complete f)) work.old }
{
    0u16.put(work, 0);
    1u16.put(work, 2);
    f.steps.put(work, 4);
    f.low.put(work, 8);
    f.high.put(work, 12);
    f.steps.put(work, 16);
    u32::from(f.finished).put(work, 20);
}
