// Every access of a plan is accounted for.
ghost use Rattle.std.specs.Prelude.{◌≡◌, ◌++◌};
ghost use Rattle.ar_extents.specs.Set.{SetState};
ghost use Rattle.ar_extents.specs.Plans.{AccessPlan, CarriesOut, Accounted, NoneFaults, planned};

/// Where a plan was carried out, the accesses that were added to the log are a path through it, and each disk has
/// counted its own. Where no disk faulted, they are exactly the planned ones. A call has no effect.
pub fn accesses_are_planned()
    ensures accounted { (plan : AccessPlan) (old new : SetState) → CarriesOut plan old new → Accounted plan old new }
    ensures planned { (plan : AccessPlan) (old new : SetState) → CarriesOut plan old new
        → NoneFaults old new → new.log ≡ old.log ++ planned plan old.health }
{}
