//! What holds of every history.

ghost use Rattle.store_history.specs.Seats.{PicksOwn};
ghost use Rattle.store_history.specs.Touches.{FirstEntryDates, NamedIsTouched, NoneLater, SentIsTouched};
ghost use Rattle.store_history.specs.Woven.{ServedFitsRules, ServedIsWoven};

/// Where a history is legal and each lane's own events are a run of its program, the plain store, asked in the
/// history's order, gives each lane what it told, but for the numbers of a collector's report, and leaves the history's
/// last store.
#[tactic(auto, using(crate::proofs::Whole::served_woven))]
pub fn histories_are_woven()
    ensures { ServedIsWoven }
{}

/// And its order keeps the rules of order files.
#[tactic(auto, using(crate::proofs::Rules::served_rules))]
pub fn histories_keep_rules()
    ensures { ServedFitsRules }
{}

/// The events at the places that a seat knows for its own are those of its lane.
#[tactic(auto, using(crate::proofs::Picking::own_picked))]
pub fn seats_know_their_own()
    ensures { PicksOwn }
{}

/// No chunk's last touch is after the last moment.
#[tactic(auto, using(crate::proofs::LastTouches::none_later))]
pub fn no_touch_is_later()
    ensures { NoneLater }
{}

/// A chunk that was sent was touched at the moment of that act.
#[tactic(auto, using(crate::proofs::LastTouches::sent_touched))]
pub fn what_is_sent_is_touched()
    ensures { SentIsTouched }
{}

/// A chunk that is there and that an APPEND named was touched at the moment of that act.
#[tactic(auto, using(crate::proofs::LastTouches::named_touched))]
pub fn what_is_named_is_touched()
    ensures { NamedIsTouched }
{}

/// A chunk that the saved book lacks was touched at the moment of the first entry.
#[tactic(auto, using(crate::proofs::LastTouches::first_dates))]
pub fn first_entries_date()
    ensures { FirstEntryDates }
{}
