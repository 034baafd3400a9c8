//! Laws of plans: what a plan costs is what its command takes between two states.
#![tactic(auto)]

ghost use Rattle.plan_laws.specs.Laws.{PlanEventsLaw, PlanFencesLaw, PlanFencesBesideLaw, PlanRoomLaw};

/// The fences of a plan are those that its command takes between the state before and the one that it leaves; and so it is
/// beside calls that run, where these have left nothing of a node that the command names.
pub fn plan_fences_law()
    ensures alone { PlanFencesLaw }
    ensures beside { PlanFencesBesideLaw }
{}

/// The events of a plan are those that its command takes between the state before and the one that it leaves.
pub fn plan_events_law()
    ensures { PlanEventsLaw }
{}

/// The room in which a page is given back exactly as the plan gives one fits the tree that its command leaves.
pub fn plan_room_law()
    ensures { PlanRoomLaw }
{}
