//! Words of the command line.

use crate::asserts::{must, same_at};
use command_line::{Plan, WordFault, plan_words};
use std::alloc::Global;
use std::process::Abort;

/// Lines of words, each with how many ports its plan has, and the plan: its words, options with theirs behind the root.
static PLANS: [&str; 20] = [
    "run R S|1 run R S",
    "run R S T U|3 run R S T U",
    "run R - T|2 run R - T",
    "run run run run|2 run run run run",
    "run R gen check|2 run R gen check",
    "run --remote X R S|1 run R --remote X S",
    "run R --remote X S T|2 run R --remote X S T",
    "run R S --remote X T|2 run R --remote X S T",
    "run R --remote=X S|1 run R --remote X S",
    "run R --remote - S|1 run R --remote - S",
    "run R --order F S|1 run R --order F S",
    "run R S --order F T --remote X|2 run R --remote X --order F S T",
    "run -- R S --remote|2 run R S --remote",
    "gen R 1|0 gen R 1",
    "gen - 10|0 gen - 10",
    "gen R 63|0 gen R 63",
    "check R O S|3 check R O S",
    "check R O S T U|7 check R O S T U",
    "check R --remote X O S|3 check R O --remote X S",
    "check R O S --remote X T|5 check R O --remote X S T",
];

/// Lines of words without a reading. There is one session at least. An option stands behind the command, once, and has a word behind
/// it that is no option. Neither help nor the version is asked for.
static OTHERS: [&str; 40] = [
    "",
    "run",
    "run R",
    "run R --order F",
    "run R --remote S",
    "run R S --remote",
    "run R S --order",
    "run R S --remote -x",
    "run R S -x",
    "run R S --remot X",
    "run R S --n 4",
    "run --remote X R --remote Y S",
    "run --order F R --order G S",
    "run R S --help",
    "run R S -h",
    "run R S --version",
    "run R S -V",
    "--remote X run R S",
    "ru R S",
    "RUN R S",
    "pbstore run R S",
    "gen",
    "gen R",
    "gen R 0",
    "gen R 64",
    "gen R 100",
    "gen R 07",
    "gen R +5",
    "gen R -5",
    "gen R 5a",
    "gen R 4 5",
    "gen R 4 --remote X",
    "gen R --help",
    "check R O",
    "check R O --remote S",
    "check R O S --order F",
    "check R O S -h",
    "help",
    "help run",
    "--version",
];

fn words_of(rt: &impl Abort, alloc: Global, line: &str) -> Vec<String> {
    let mut words = Vec::new(alloc);
    for word in line.split(' ') {
        if !word.is_empty() {
            must(rt, words.push(must(rt, String::from_str(alloc, word))));
        }
    }
    words
}

fn push_option(rt: &impl Abort, text: &mut String, name: &str, word: &Option<String>) {
    if let Some(word) = word {
        must(rt, text.push_str(name));
        must(rt, text.push_str(word.as_str()));
    }
}

fn push_words(rt: &impl Abort, text: &mut String, words: &[String]) {
    for word in words {
        must(rt, text.push_str(" "));
        must(rt, text.push_str(word.as_str()));
    }
}

/// The plan's ports and words.
fn text_of(rt: &impl Abort, alloc: Global, plan: &Plan) -> String {
    let ports = plan.ports();
    match plan {
        Plan::Run {
            root,
            remote,
            order,
            sessions,
        } => {
            let mut text = must(rt, format!(in alloc; "{ports} run {root}"));
            push_option(rt, &mut text, " --remote ", remote);
            push_option(rt, &mut text, " --order ", order);
            push_words(rt, &mut text, sessions);
            text
        }
        Plan::Gen { root, n } => must(rt, format!(in alloc; "{ports} gen {root} {n}")),
        Plan::Check {
            root,
            order,
            remote,
            sessions,
        } => {
            let mut text = must(rt, format!(in alloc; "{ports} check {root} {order}"));
            push_option(rt, &mut text, " --remote ", remote);
            push_words(rt, &mut text, sessions);
            text
        }
    }
}

fn read(rt: &impl Abort, alloc: Global, line: &str) -> String {
    match plan_words(alloc, &words_of(rt, alloc, line)) {
        Ok(plan) => text_of(rt, alloc, &plan),
        Err(WordFault::NoReading) => must(rt, String::from_str(alloc, "none")),
        Err(WordFault::NoMemory) => must(rt, String::from_str(alloc, "no memory")),
    }
}

fn try_line(rt: &impl Abort, alloc: Global, line: &str, want: &str) {
    let found = read(rt, alloc, line);
    same_at(rt, line, found.as_bytes(), want.as_bytes());
}

#[test]
fn words_are_read(rt: HostRuntime) {
    for row in &PLANS {
        let (line, want) = row.split_once('|').unwrap_or((row, ""));
        try_line(&rt, rt.alloc(), line, want);
    }
}

#[test]
fn other_words_are_none(rt: HostRuntime) {
    for line in &OTHERS {
        try_line(&rt, rt.alloc(), line, "none");
    }
}
