//! The causes of saved work: 10, then 11.
#![tactic(auto)]

ghost use Rattle.std.specs.Prelude.{◌≡◌, Ok};
ghost use Rattle.reliability.specs.Rule.{tree};
ghost use Rattle.tables.specs.Tables.{rating, AcceptedTable};
ghost use Rattle.plan.specs.Plans.{verdict, plan_of};
ghost use Rattle.saved_verdict.specs.SavedVerdict.{saved_verdict};

use causes::CallCause;
use saved::SavedWork;

/// Of an accepted plan under an accepted table; complete work has no open split to trace.
pub fn saved_verdict(plan: &[u8], table: &[u8], saved: &[u8]) -> Result<(), CallCause>
    requires { (verdict plan.now ≡ Ok tt) × AcceptedTable table.now }
    ensures { result ≡ saved_verdict (tree (plan_of (rating table.now) plan.now)) saved.now }
{
    if !saved::is_well_formed(saved) {
        return Err(CallCause::SavedWork);
    }
    let work = SavedWork { bytes: saved };
    if work.is_complete() {
        return Ok(());
    }
    let row = work.row();
    if tracing::traces(loading::network_of(plan, table), &row, work.count()) {
        Ok(())
    } else {
        Err(CallCause::OpenSplit)
    }
}
