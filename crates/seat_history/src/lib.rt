//! What a seat knows of a history that many lanes share: the events that it entered, as the history grows, and as two
//! seats become one. There is no code here.
#![tactic(auto)]

mod laws;

pub use laws::{
    acts_grow, joins_keep_lanes, one_lane_owns, others_add_nothing, wants_are_entered,
    whole_seats_own_all,
};
