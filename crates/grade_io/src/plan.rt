//! Calls that are to fail, by their numbers.
ghost use Rattle.std.specs.Prelude.{◌≡◌, ◌≤◌, ◌↔◌, IsTrue};
ghost use Rattle.grade_io.specs.Plans.{IsToFail, after_call, one_more};
ghost use Rattle.grade_io.specs.PlansInCode.{plan_of};

/// The calls that are to fail, by their numbers from 1, and the number of the last call.
#[derive(Drop)]
pub(crate) struct CallPlan {
    pub(crate) fails: Vec<u64>,
    pub(crate) number: u64,
}

/// Counts a call, and says whether it is one that fails.
pub(crate) fn next_fails(plan: &mut CallPlan) -> bool
    ensures counted { plan_of plan.new ≡ after_call (plan_of plan.old) }
    ensures chosen { IsTrue result ↔ IsToFail (plan_of plan.old) }
{
    plan.number = plan.number.saturating_add(1);
    plan.fails.contains(&plan.number)
}

/// Counts a fault. The count stands at its last value once it is there.
pub(crate) fn count_fault(faults: &mut u64)
    ensures counted { faults.new ≡ one_more faults.old }
    ensures later { faults.old ≤ faults.new }
{
    *faults = faults.saturating_add(1);
}
