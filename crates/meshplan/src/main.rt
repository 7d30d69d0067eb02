// Reads plan frames, one a line, and prints for each whether it may go into the chip, and the timetable or the reason.
#![tactic(auto)]

mod report;

use frames::lines::Lines;
use planner::judgement::{Judgement, judge};
use report::report_line;
use schedule::plan::Plan;
use std::fmt;
use std::io::Read;

// How many lines so far.
#[derive(Clone, Copy, Debug, Default)]
struct Counts {
    accepted: u64,
    refused: u64,
}

impl Counts {
    fn count(&mut self, judgement: &Judgement) {
        let lines = match judgement {
            Ok(_) => &mut self.accepted,
            Err(_) => &mut self.refused,
        };
        *lines = lines.saturating_add(1);
    }
}

impl fmt::Display for Counts {
    fn fmt<W: fmt::Write>(&self, f: &mut fmt::Formatter<W>) -> fmt::Result {
        write!(f, "{} accepted, {} refused", self.accepted, self.refused)
    }
}

fn main(rt: HostRuntime) -> anyhow::Result<()> {
    run(&rt)
}

fn run(rt: &HostRuntime) -> anyhow::Result<()> {
    let mut input = Vec::new(rt.alloc());
    rt.stdin().read_to_end(&mut input)?;
    let mut plan = Plan::smallest();
    let mut counts = Counts::default();
    for (before, line) in Lines::new(&input).enumerate() {
        let judgement = judge(rt.alloc(), line, &mut plan)?;
        counts.count(&judgement);
        report_line(rt, before + 1, judgement, &plan)?;
    }
    println!(rt; "{counts}")?;
    Ok(())
}
