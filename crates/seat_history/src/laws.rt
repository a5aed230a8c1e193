//! What holds of all seats of one history, and of a lane's own events in it.

ghost use Rattle.seat_history.specs.Laws.{ActsGrow, JoinsKeepLanes, OneLaneOwns, OthersAddNothing, WantsAreEntered, WholeSeatsOwnAll};

/// What a seat has of its own grows by the event of each of its acts, whatever other seats enter before it.
pub fn acts_grow()
    ensures { ActsGrow }
{}

/// What a seat sees of others' acts is none of its own.
#[tactic(auto, using(crate::proofs::Picking::others_add_none))]
pub fn others_add_nothing()
    ensures { OthersAddNothing }
{}

/// A seat that had entered nothing, and acts for one lane, has this lane's events for its own, and no others.
pub fn one_lane_owns()
    ensures { OneLaneOwns }
{}

/// Where two seats acted for lanes apart, the seat that they become has each lane's events as the one or the other had them.
pub fn joins_keep_lanes()
    ensures { JoinsKeepLanes }
{}

/// A seat whose own are all places of the history has entered all of it.
#[tactic(auto, using(crate::proofs::Picking::whole_owns))]
pub fn whole_seats_own_all()
    ensures { WholeSeatsOwnAll }
{}

/// A lane that ended for want of memory has an entry of it in the order.
pub fn wants_are_entered()
    ensures { WantsAreEntered }
{}
