// Steps of a mesh, and the lines that they print.
ghost use Rattle.std.specs.Prelude.{◌≡◌, ◌++◌, take, OnOk};
ghost use Rattle.frames.specs.Chosen.{arbiter_meant, route_meant};
ghost use Rattle.machine.specs.Machine.{machine};
ghost use Rattle.runner.specs.Running.{lent};
ghost use Rattle.runner.specs.Steps.{behind, left, refusal_line, run_steps};
ghost use Rattle.runner.specs.Told.{table_line, table_lines};

use super::state::{MeshTables, PayloadTables};
use frames::choices::Choices;
use frames::hex::append_line;
use frames::output::{delivery_frame, refusal_frame};
use frames::payload::Payload;
use machine::tables::Delivery;
use mesh::step::step;
use schedule::plan::Plan;
use schedule::refusal::Refusal;
use std::alloc::AllocError;

// Appends the line of a refusal.
pub(crate) fn append_refusal(out: &mut Vec<u8>, why: Refusal) -> Result<(), AllocError>
    ensures { OnOk result (out.new.items ≡ out.old.items ++ refusal_line why) }
{
    append_line(out, &refusal_frame(why))
}

// Appends the line of a delivery record that has a mark.
#[tactic(auto, unfolding(crate::specs::Told::table_line))]
fn append_delivery<P: Payload>(
    out: &mut Vec<u8>,
    cycle: u32,
    router: u8,
    told: Delivery,
    payload: P,
) -> Result<(), AllocError>
    ensures { OnOk result (out.new.items ≡ out.old.items ++ table_line P.Payload.form cycle router told payload) }
{
    if told.mark != 1 {
        return Ok(());
    }
    let frame = delivery_frame(cycle, router, told.domain, told.source, payload.to_bytes());
    append_line(out, &frame)
}

// Appends a line for each of the first `routers` delivery records that has a mark.
fn append_deliveries<P: Payload>(
    out: &mut Vec<u8>,
    cycle: u32,
    routers: u8,
    deliveries: &[Delivery],
    delivered: &[P],
) -> Result<(), AllocError>
    ensures { OnOk result (out.new.items ≡ out.old.items
        ++ table_lines P.Payload.form cycle 0 (take routers deliveries.now) (take routers delivered.now)) }
{
    for (router, (told, payload)) in (0..routers).zip(deliveries.iter().zip(delivered)) {
        append_delivery(out, cycle, router, *told, *payload)?;
    }
    Ok(())
}

impl MeshTables {
    // So many steps; a refused one is told and drops the rest.
    pub(crate) fn run<P: Payload>(
        &mut self,
        out: &mut Vec<u8>,
        plan: &Plan,
        choices: Choices,
        payloads: &mut PayloadTables<P>,
        count: u8,
    ) -> Result<(), AllocError>
        ensures { OnOk result (left (lent self.new payloads.new.held) out.new.items
            ≡ behind out.old.items (run_steps P.Payload.form
            (machine plan.now (arbiter_meant choices.arbiter) (route_meant choices.route)) count
            (lent self.old payloads.old.held))) }
    {
        for _ in 0..count {
            let mut deliveries = [Delivery::default(); 16];
            let stepped = step(
                plan,
                &choices.arbiter,
                &choices.route,
                &mut self.cycle,
                &mut self.queues,
                &mut self.places,
                &mut payloads.held,
                &mut self.words,
                &mut deliveries,
                &mut payloads.delivered,
            );
            match stepped {
                Ok(cycle) => {
                    append_deliveries(out, cycle, plan.routers(), &deliveries, &payloads.delivered)?
                }
                Err(why) => return append_refusal(out, why),
            }
        }
        Ok(())
    }
}
