//! A buyer's own table: a rating by length in place of T, and whether it is what it has to be.
#![tactic(auto)]

ghost use Rattle.std.specs.Prelude.{◌≡◌, true, ◌<◌, length};
ghost use Rattle.tables.specs.Tables.{value_in, rating, sized, never_rises, well_rated, verdict, AcceptedTable};

use rounding::UNITS;
use words::Word;

/// Why a table is refused.
#[derive(Clone, Copy, Debug, PartialEq, Eq)]
pub enum Cause {
    Size,
    Values,
}

/// Value k of a table of 512.
fn value(table: &[u8], k: usize) -> u32
    requires { (k < 512) × (length table.now ≡ 2048) }
    ensures { result ≡ value_in table.now k }
{
    u32::read(table, 4 * k)
}

/// The rating of k hundred metres: the built-in one where the table has no bytes.
pub fn rating(table: &[u8], k: usize) -> u32
    requires { (k < 512) × AcceptedTable table.now }
    ensures { result ≡ rating table.now k }
{
    if table.is_empty() {
        ratings::rating(k)
    } else {
        value(table, k)
    }
}

/// One pass: no value is above the one before.
fn never_rises(table: &[u8]) -> bool
    requires { length table.now ≡ 2048 }
    ensures { result ≡ never_rises table.now 0 511 }
{
    for k in 0..511 {
        if value(table, k) < value(table, k + 1) {
            return false;
        }
    }
    true
}

/// No bytes, or 512 values.
#[tactic(auto, unfolding(crate::specs::Tables::sized))]
pub fn is_sized(table: &[u8]) -> bool
    ensures { result ≡ sized table.now }
{
    table.is_empty() || table.len() == 2048
}

/// No bytes, or values that begin with S and never rise.
#[tactic(auto, unfolding(crate::specs::Tables::sized, crate::specs::Tables::well_rated))]
pub fn is_well_rated(table: &[u8]) -> bool
    requires { sized table.now ≡ true }
    ensures { result ≡ well_rated table.now }
{
    table.is_empty() || (value(table, 0) == UNITS && never_rises(table))
}

/// Its size is tested before its values.
#[tactic(auto, unfolding(crate::specs::Tables::verdict))]
pub fn verdict_of(table: &[u8]) -> Result<(), Cause>
    ensures { result ≡ verdict table.now }
{
    if !is_sized(table) {
        return Err(Cause::Size);
    }
    if is_well_rated(table) {
        Ok(())
    } else {
        Err(Cause::Values)
    }
}
