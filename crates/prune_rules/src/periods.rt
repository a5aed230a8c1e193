//! Periods of time in UTC.

ghost use Rattle.std.specs.Prelude.{◌≡◌, ◌<◌, ◌≤◌, ◌+◌, ◌*◌};
ghost use Rattle.store_types.specs.Calendar.{civil_of};
ghost use Rattle.store_types.specs.Times.{last_moment};
ghost use Rattle.prune_rules.specs.Slots.{number_of};

use store_types::date_of_day;

#[derive(Clone, Copy, Debug, PartialEq, Eq)]
pub enum Period {
    Second,
    Hour,
    Day,
    Week,
    Month,
    Year,
}

impl Period {
    /// The number of the period in which a second since 1970 lies.
    #[tactic(auto, unfolding(crate::specs::Prune::month_of, crate::specs::Prune::year_of))]
    pub fn of(self, time: u64) -> u64
        requires { time ≤ last_moment }
        ensures { result ≡ number_of self time }
    {
        let day = time / 86_400;
        match self {
            Period::Second => time,
            Period::Hour => time / 3600,
            Period::Day => day,
            Period::Week => (day + 3) / 7, // 1 January 1970 was a Thursday
            Period::Month => month_of(day as u32),
            Period::Year => year_of(day as u32),
        }
    }
}

fn year_of(day: u32) -> u64
    requires { day ≤ 2_932_896 }
    ensures value { result ≡ (civil_of day).year }
    ensures bound { result < 65_536 }
{
    u64::from(date_of_day(day).year.unsigned_abs())
}

fn month_of(day: u32) -> u64
    requires { day ≤ 2_932_896 }
    ensures { result ≡ 12 * (civil_of day).year + (civil_of day).month }
{
    12 * year_of(day) + u64::from(date_of_day(day).month)
}
