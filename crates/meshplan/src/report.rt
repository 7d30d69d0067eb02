// What is printed for one line.
use frames::limits::Excess;
use planner::judgement::{Accepted, Judgement};
use schedule::plan::Plan;
use schedule::refusal::Refusal;
use schedule::side::Side;
use std::io;

pub fn report_line(
    rt: &HostRuntime,
    number: usize,
    judgement: Judgement,
    plan: &Plan,
) -> io::Result<()> {
    match judgement {
        Ok(accepted) => {
            println!(rt; "line {number}: accepted")?;
            report_accepted(rt, accepted, plan)
        }
        Err(rejection) => println!(rt; "line {number}: {rejection}"),
    }
}

// The timetable that the plan holds now, and what the line chose beside it.
fn report_accepted(rt: &HostRuntime, accepted: Accepted, plan: &Plan) -> io::Result<()> {
    report_sizes(rt, plan)?;
    println!(rt; "  {}, offsets {}", accepted.choices, accepted.offsets)?;
    report_meshrun(rt, plan)?;
    report_domains(rt, plan)?;
    report_routers(rt, plan)
}

fn report_sizes(rt: &HostRuntime, plan: &Plan) -> io::Result<()> {
    let sizes = plan.sizes;
    println!(rt;
        "  columns {}, rows {}, domains {}, queue places {}, cycles a hop {}, slots {}",
        sizes.width, sizes.height, sizes.domains, sizes.depth, sizes.hop, plan.period
    )
}

// Whether the smaller limits of the program `meshrun` allow the plan too.
fn report_meshrun(rt: &HostRuntime, plan: &Plan) -> io::Result<()> {
    match Excess::of(plan.sizes) {
        Some(excess) => {
            let refusal = Refusal::from(excess);
            println!(rt; "  meshrun refuses it by {}: {excess}", refusal.number())
        }
        None => println!(rt; "  within the limits of meshrun"),
    }
}

fn report_domains(rt: &HostRuntime, plan: &Plan) -> io::Result<()> {
    let period = plan.period;
    for domain in 0..plan.sizes.domains {
        if let (Some(share), Some(gap)) = (plan.share(domain), plan.gap(domain)) {
            println!(rt; "  domain {domain}: slots {share} of {period}, longest gap {gap}")?;
        }
    }
    Ok(())
}

fn report_routers(rt: &HostRuntime, plan: &Plan) -> io::Result<()> {
    for router in 0..plan.routers() {
        if let Some(at) = plan.position(router) {
            println!(rt; "  router {router}, column {}, row {}", at.column, at.row)?;
        }
        for side in [
            Side::East,
            Side::West,
            Side::South,
            Side::North,
            Side::Local,
        ] {
            report_port(rt, plan, router, side)?;
        }
    }
    Ok(())
}

// The owner of a port in each cycle of one period, a digit a cycle.
fn report_port(rt: &HostRuntime, plan: &Plan, router: u8, side: Side) -> io::Result<()> {
    let owners: String = (0..u32::from(plan.period))
        .filter_map(|cycle| plan.owner(router, side.into(), cycle))
        .map(|owner| char::from(b'0'.saturating_add(owner)))
        .collect(rt.alloc())?;
    println!(rt; "    {side:<5} {owners}")
}
