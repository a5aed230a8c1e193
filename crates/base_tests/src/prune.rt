//! Dates with their weeks by ISO 8601, and prunes that were done by hand.

ghost use Rattle.std.specs.Prelude.{◌≤◌, All};
ghost use Rattle.store_types.specs.Times.{last_moment};

use crate::asserts::{must, same_at};
use prune_rules::{Item, Keep, Mark, marks, marks_into};
use std::alloc::Global;
use std::process::Abort;

/// Midnights, each with its year and week.
static DATES: [(u32, u16, u8); 26] = [
    (1_582_848_000, 2020, 9), // 2020-02-28
    (1_582_934_400, 2020, 9), // 2020-02-29
    (1_583_020_800, 2020, 9), // 2020-03-01
    (1_609_027_200, 2020, 52), // 2020-12-27
    (1_609_113_600, 2020, 53), // 2020-12-28
    (1_609_372_800, 2020, 53), // 2020-12-31
    (1_609_459_200, 2020, 53), // 2021-01-01
    (1_609_632_000, 2020, 53), // 2021-01-03
    (1_609_718_400, 2021, 1), // 2021-01-04
    (1_709_164_800, 2024, 9), // 2024-02-29
    (1_735_430_400, 2024, 52), // 2024-12-29
    (1_735_516_800, 2025, 1), // 2024-12-30
    (1_766_880_000, 2025, 52), // 2025-12-28
    (1_766_966_400, 2026, 1), // 2025-12-29
    (1_767_484_800, 2026, 1), // 2026-01-04
    (1_767_571_200, 2026, 2), // 2026-01-05
    (1_798_675_200, 2026, 53), // 2026-12-31
    (1_798_934_400, 2026, 53), // 2027-01-03
    (1_956_182_400, 2031, 52), // 2031-12-28
    (1_956_268_800, 2032, 1), // 2031-12-29
    (1_956_787_200, 2032, 1), // 2032-01-04
    (1_961_625_600, 2032, 9), // 2032-02-29
    (1_987_632_000, 2032, 52), // 2032-12-26
    (1_988_064_000, 2032, 53), // 2032-12-31
    (1_988_236_800, 2032, 53), // 2033-01-02
    (1_988_323_200, 2033, 1), // 2033-01-03
];

const NONE: Keep = Keep {
    last: 0,
    hourly: 0,
    daily: 0,
    weekly: 0,
    monthly: 0,
    yearly: 0,
};

const LAST_AND_DAILY: Keep = Keep {
    last: 1,
    daily: 1,
    ..NONE
};

const HOURLY: Keep = Keep { hourly: 2, ..NONE };

const DAILY: Keep = Keep { daily: 1, ..NONE };

const WEEKLY: Keep = Keep { weekly: 2, ..NONE };

const MONTHLY: Keep = Keep { monthly: 2, ..NONE };

const YEARLY: Keep = Keep { yearly: 2, ..NONE };

fn text_of(rt: &impl Abort, alloc: Global, marks: &[Mark]) -> String {
    let mut text = String::new(alloc);
    for mark in marks {
        must(
            rt,
            text.push_str(if *mark == Mark::Kept { "k" } else { "-" }),
        );
    }
    text
}

/// The same marks, from slices that held others.
fn marked_in_place(rt: &impl Abort, alloc: Global, items: &[Item], keep: &Keep) -> Vec<Mark>
    requires { All (λ item. item.time ≤ last_moment) items.now }
{
    let mut covered = must(rt, vec![in alloc; true; items.len()]);
    let mut into = must(rt, vec![in alloc; Mark::Kept; items.len()]);
    marks_into(items, keep, &mut covered, &mut into);
    into
}

/// Which of the times are kept, as `k` and `-`; nothing where the two calls differ.
fn kept(rt: &impl Abort, alloc: Global, times: &[(u32, bool)], keep: Keep) -> String {
    let mut items = Vec::new(alloc);
    for (time, finished) in times {
        must(
            rt,
            items.push(Item {
                time: u64::from(*time),
                finished: *finished,
            }),
        );
    }
    let marks = must(rt, marks(alloc, &items, &keep));
    if marked_in_place(rt, alloc, &items, &keep) != marks {
        return String::new(alloc);
    }
    text_of(rt, alloc, &marks)
}

/// Compares whether two moments are in one period, by an option that keeps two of these, with whether they should be.
fn try_period(rt: &impl Abort, alloc: Global, moments: (u32, u32), keep: Keep, want: bool) {
    let kept = kept(rt, alloc, &[(moments.0, true), (moments.1, true)], keep);
    same_at(rt, (moments, keep), kept.as_str() != "kk", want);
}

#[test]
fn weeks_are_those_of_the_standard(rt: HostRuntime) {
    for (time, year, week) in &DATES {
        let end = time.saturating_add(86_399);
        for (later, other_year, other_week) in &DATES {
            let same = year == other_year && week == other_week;
            try_period(&rt, rt.alloc(), (end, *later), WEEKLY, same);
        }
    }
}

// The ends of months and of a year, each with its year and month.
static ENDS: [(u32, u16, u8); 5] = [
    (1_582_934_400, 2020, 2), // 2020-02-29
    (1_583_020_799, 2020, 2), // its last second
    (1_583_020_800, 2020, 3), // 2020-03-01
    (1_609_372_800, 2020, 12), // 2020-12-31
    (1_609_459_200, 2021, 1), // 2021-01-01
];

#[test]
fn months_and_years(rt: HostRuntime) {
    for (time, year, month) in &ENDS {
        for (later, other_year, other_month) in &ENDS {
            let moments = (*time, *later);
            let same = year == other_year && month == other_month;
            try_period(&rt, rt.alloc(), moments, MONTHLY, same);
            try_period(&rt, rt.alloc(), moments, YEARLY, year == other_year);
        }
    }
}

// noon of 2020-12-31 (a Thursday), 2021-01-03 (a Sunday) and 2021-01-04
const TURN: &[(u32, bool)] = &[
    (1_609_416_000, true),
    (1_609_675_200, true),
    (1_609_761_600, true),
];

// the end of 2020-01-14, and two of the 15th: the day of the last is served already
const DAYS: &[(u32, bool)] = &[
    (1_579_046_399, true),
    (1_579_046_400, true),
    (1_579_069_803, true),
];

// in any order, and with two of one time, of which the earlier in the list is kept
const MIXED: &[(u32, bool)] = &[
    (1_579_069_803, true),
    (1_579_046_399, true),
    (1_579_069_803, true),
    (1_579_046_400, true),
];

// what still runs is kept
const RUNNING: &[(u32, bool)] = &[
    (1_579_046_399, false),
    (1_579_046_400, true),
    (1_579_069_803, false),
];

/// Times, the options, and which of the times are kept.
static PRUNES: [(&[(u32, bool)], Keep, &str); 9] = [
    (TURN, WEEKLY, "-kk"),
    (DAYS, LAST_AND_DAILY, "k-k"),
    (DAYS, DAILY, "--k"),
    (DAYS, HOURLY, "-kk"),
    (MIXED, LAST_AND_DAILY, "kk--"),
    // with no option all is kept
    (DAYS, NONE, "kkk"),
    (RUNNING, DAILY, "-kk"),
    // a day on which none ended counts for nothing
    (RUNNING, Keep { daily: 2, ..NONE }, "-kk"),
    (&[], DAILY, ""),
];

#[test]
fn prunes_by_hand(rt: HostRuntime) {
    for (times, keep, want) in &PRUNES {
        let found = kept(&rt, rt.alloc(), times, *keep);
        same_at(&rt, (*times, *keep), found.as_str(), *want);
    }
}

/// So many of the first 8,192 minutes of 1970, in no order.
fn minutes(rt: &impl Abort, alloc: Global, count: u16) -> Vec<Item>
    ensures { All (λ item. item.time ≤ last_moment) result.items }
{
    let mut items = Vec::new(alloc);
    for i in 0..count {
        must(
            rt,
            items.push(Item {
                time: u64::from(i) * 7919 % 8192 * 60,
                finished: true,
            }),
        );
    }
    items
}

/// The kept minutes, in the items' order.
fn kept_minutes(rt: &impl Abort, alloc: Global, items: &[Item], marks: &[Mark]) -> Vec<u64> {
    let mut kept = Vec::new(alloc);
    for (item, mark) in items.iter().zip(marks) {
        if *mark == Mark::Kept {
            must(rt, kept.push(item.time / 60));
        }
    }
    kept
}

#[test]
fn as_many_items_as_the_table_holds_and_more(rt: HostRuntime) {
    let keep = Keep {
        last: 1,
        daily: 2,
        ..NONE
    };
    for count in [4096, 4097] {
        let items = minutes(&rt, rt.alloc(), count);
        let marks = marked_in_place(&rt, rt.alloc(), &items, &keep);
        let kept = kept_minutes(&rt, rt.alloc(), &items, &marks);
        same_at(&rt, count, kept.as_slice(), [5759, 7198, 8191].as_slice());
    }
}
