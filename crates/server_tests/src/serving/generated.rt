//! Sessions that the program makes itself, and the replay of their order.

ghost use Rattle.std.specs.Prelude.{◌≤◌};

use super::*;
use crate::gates::CountingGate;
use generator::generate;
use order_file::put_order;
use plain_store::{Plain, Woven};
use port_traits::Gate;
use replay::read_faultless;
use sha2::{Digest, Sha256};
use store_types::{Bytes, Entry};

/// Serves those that the words ask for, with these ports. The clock is not read.
fn generate_into(
    rt: &(impl Abort + Threads + Wait + Sync),
    alloc: Global,
    words: &[&str],
    ports: usize,
    disk: MemoryDisk,
    journal: &mut MemSink,
    gate: &(impl Gate + Sync),
) -> Run {
    let words = must(rt, words::words_of(alloc, words));
    let mut ports = words::empty_ports(rt, alloc, ports);
    serve(
        rt,
        alloc,
        &words,
        &mut ports,
        disk,
        None::<MemoryDisk>,
        SetClock::new(Vec::new(alloc), 5),
        journal,
        gate,
    )
}

/// What lanes 0 to `n` are sent.
fn inputs_of(rt: &impl Abort, alloc: Global, n: u32) -> Vec<Bytes>
    requires some { 1 ≤ n }
    requires most { n ≤ 63 }
{
    let mut inputs = Vec::new(alloc);
    for k in 0..n + 1 {
        must(
            rt,
            inputs.push(Bytes::from_vec(must(rt, generate(alloc, n, k)))),
        );
    }
    inputs
}

/// What the plain store tells these lanes in an order, over what a disk has.
fn woven_of(
    rt: &impl Abort,
    alloc: Global,
    disk: &MemoryDisk,
    file: &[u8],
    inputs: &[Bytes],
) -> Woven {
    let lanes = inputs.len();
    assert!(rt; lanes <= 64);
    let Some(order) = must(rt, read_faultless(alloc, lanes as u32, file)) else {
        panic!(rt; "no order");
    };
    let mut disk = must(rt, disk.crashed(alloc, 1));
    let store = must(rt, Plain::load(alloc, &mut disk));
    let endings = [Ending::Clean; 64];
    let woven = store.weave(alloc, None, &order, inputs, &endings[..lanes]);
    let Ok(woven) = must(rt, woven) else {
        panic!(rt; "an entry that does not fit");
    };
    woven
}

/// The summary's line of a lane that was told this.
fn assert_line(rt: &impl Abort, alloc: Global, line: &str, lane: usize, told: &[u8]) {
    let digest = must(rt, hex::encode(alloc, Sha256::digest(told)));
    let size = told.len();
    let wanted = must(rt, format!(in alloc; "lane {lane} {size} {digest}"));
    same(rt, line.as_bytes(), wanted.as_bytes());
}

/// The replay of a run's order tells each lane but lane 0 what the summary says; and a check of the order, with what the replay tells, finds it
/// equal.
fn assert_replayed(
    rt: &(impl Abort + Threads + Wait + Sync),
    alloc: Global,
    n: u32,
    disk: MemoryDisk,
    order: &[Entry],
    summary: &[u8],
)
    requires some { 1 ≤ n }
    requires most { n ≤ 63 }
{
    let mut file = empty_sink(alloc);
    must(rt, put_order(&mut file, order));
    let inputs = inputs_of(rt, alloc, n);
    let woven = woven_of(rt, alloc, &disk, file.as_bytes(), &inputs);
    let told = woven.replies.as_slice();
    let summary = must(rt, str::from_utf8(summary));
    for (place, line) in summary.lines().take(n as usize).enumerate() {
        let lane = place.saturating_add(1);
        let told = told.get(lane).expect(rt, "a lane");
        assert_line(rt, alloc, line, lane, told.as_slice());
    }
    let mut files: Vec<&[u8]> = Vec::new(alloc);
    must(rt, files.push(file.as_bytes()));
    for (input, told) in inputs.iter().zip(told.iter()) {
        must(rt, files.push(input.as_slice()));
        must(rt, files.push(told.as_slice()));
    }
    checks::assert_equal(rt, alloc, disk, &files);
}

/// Of four lanes beside lane 0, on an empty datastore.
const SUMMARY: &[u8] =
    b"lane 1 21149 96c01f407d7be05f429c1a94238e2f05497b081f5bffe03b1c14c12cbc235629\n\
lane 2 21149 aa8b66d15757e0967eff74ac1148c22c7a270b12ba67ac332cb4ebeec80c064d\n\
lane 3 21149 7f3538bc70a8d555acace299805a8459235c8e0b8b9e1493f03e87c8d92b8784\n\
lane 4 21149 f7b53823679ad0f401a5adcfcd183d8cb56729d1e2f4a6eb157654875ae19aac\n\
host/g1/2020-01-03T00:00:00Z 2\n\
host/g1/2020-01-04T00:00:00Z 2\n\
host/g2/2020-01-03T00:00:00Z 2\n\
host/g2/2020-01-04T00:00:00Z 2\n\
host/g3/2020-01-03T00:00:00Z 2\n\
host/g3/2020-01-04T00:00:00Z 2\n\
host/g4/2020-01-03T00:00:00Z 2\n\
host/g4/2020-01-04T00:00:00Z 2\n\
status 0\n";

/// The status, how many reports there are, and whether the journal failed.
fn assert_told(rt: &impl Abort, served: &Run, want: &[u64]) {
    let found = [
        u64::from(served.status.number()),
        served.report.lanes.len() as u64,
        u64::from(served.report.journal_failed),
    ];
    same_numbers(rt, &found, want);
}

/// However the lanes' acts come between each other.
#[test]
fn four_lanes_have_one_summary(rt: HostRuntime) {
    let alloc = rt.alloc();
    for _ in 0..2 {
        let mut journal = empty_sink(alloc);
        let disk = MemoryDisk::new(alloc);
        let words = ["gen", "root", "4"];
        let served = generate_into(&rt, alloc, &words, 0, disk, &mut journal, &FreeGate);
        same(&rt, journal.as_bytes(), SUMMARY);
        assert_told(&rt, &served, &[0, 5, 0]);
        let disk = MemoryDisk::new(alloc);
        assert_replayed(&rt, alloc, 4, disk, &served.order, SUMMARY);
    }
}

/// Of one lane on an empty datastore, and where it was served before: then no snapshot is newer.
static SUMMARIES: [&[u8]; 2] = [
    b"lane 1 21149 96c01f407d7be05f429c1a94238e2f05497b081f5bffe03b1c14c12cbc235629\n\
host/g1/2020-01-03T00:00:00Z 2\n\
host/g1/2020-01-04T00:00:00Z 2\n\
status 0\n",
    b"lane 1 1250 883757fbf3596a69acf8b571a4cf03b113018f2a11682d85b348a32a5c01bc5a\n\
host/g1/2020-01-03T00:00:00Z 2\n\
host/g1/2020-01-04T00:00:00Z 2\n\
status 0\n",
];

/// Lane 0 has four GCs, lane 1 has 190 commands, and the gate is called round each.
#[test]
fn one_lane_is_served_again(rt: HostRuntime) {
    let alloc = rt.alloc();
    let mut disk = MemoryDisk::new(alloc);
    for summary in &SUMMARIES {
        let mut journal = empty_sink(alloc);
        let before = must(&rt, disk.crashed(alloc, 1));
        let words = ["gen", "root", "1"];
        let gate = must(&rt, CountingGate::of(alloc, 2));
        let served = generate_into(&rt, alloc, &words, 0, disk, &mut journal, &gate);
        same_numbers(&rt, &gate.counts(0), &[4, 4, 0]);
        same_numbers(&rt, &gate.counts(1), &[190, 190, 0]);
        same(&rt, journal.as_bytes(), summary);
        assert_told(&rt, &served, &[0, 2, 0]);
        assert_replayed(&rt, alloc, 1, before, &served.order, summary);
        disk = served.disk;
    }
}

/// The journal's write with this number fails, of 100 bytes at most: so many bytes are written.
static FAILING: [(u64, u64); 3] = [(0, 0), (1, 100), (2, 149)];

#[test]
fn the_summary_is_cut_off(rt: HostRuntime) {
    let alloc = rt.alloc();
    for (call, size) in &FAILING {
        let mut journal = MemSink::new(alloc, must(&rt, [*call].to_vec(alloc))).at_most(100);
        let disk = MemoryDisk::new(alloc);
        let words = ["gen", "root", "1"];
        let served = generate_into(&rt, alloc, &words, 0, disk, &mut journal, &FreeGate);
        same(&rt, journal.as_bytes(), front(SUMMARIES[0], *size));
        assert_told(
            &rt,
            &served,
            if *size < 149 { &[5, 2, 1] } else { &[0, 2, 0] },
        );
        let disk = MemoryDisk::new(alloc);
        assert_replayed(&rt, alloc, 1, disk, &served.order, SUMMARIES[0]);
    }
}

/// They take no ports.
#[test]
fn a_port_is_too_many(rt: HostRuntime) {
    let alloc = rt.alloc();
    let mut journal = empty_sink(alloc);
    let disk = MemoryDisk::new(alloc);
    let words = ["gen", "root", "1"];
    let served = generate_into(&rt, alloc, &words, 1, disk, &mut journal, &FreeGate);
    same(&rt, journal.as_bytes(), b"");
    assert_told(&rt, &served, &[2, 0, 0]);
}
