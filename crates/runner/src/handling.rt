// What each kind of frame does to the running mesh, and what it prints.
ghost use Rattle.std.specs.Prelude.{◌≡◌, ℕ, [], ◌∷◌, length, replicate, OnOk};
ghost use Rattle.schedule.specs.Built.{built};
ghost use Rattle.schedule.specs.Plans.{outcome as plan_outcome, replaced_by, timetable_of};
ghost use Rattle.schedule.specs.Timetable.{timetable};
ghost use Rattle.schedule.specs.Verdict.{earliest, verdict};
ghost use Rattle.schedule.specs.declared.geometry.Position.{Position};
ghost use Rattle.frames.specs.Frames.{frame_value, plan_value};
ghost use Rattle.frames.specs.Lines.{line_value};
ghost use Rattle.machine.specs.Machine.{machine};
ghost use Rattle.runner.specs.Printed.{framed, framed_line, injected_as, planned, program_check, reopened, steps_as};
ghost use Rattle.runner.specs.Running.{at_first as first_mesh, lent, running};
ghost use Rattle.runner.specs.Steps.{behind, injected, left};

use super::state::{MeshTables, PayloadTables, RunningMesh};
use super::stepping::append_refusal;
use frames::choices::{ArbiterKind, Choices, PayloadKind, RouteKind};
use frames::frame::{Frame, Injection, decode};
use frames::hex::from_hex;
use frames::limits::Excess;
use frames::lines::Line;
use frames::payload::{Collection, Payload};
use machine::tables::{Place, Queue};
use mesh::inject::inject;
use mesh::open::open;
use schedule::plan::Plan;
use schedule::refusal::Refusal;
use schedule::sizes::Sizes;
use std::alloc::{AllocError, Global};

// Takes up a plan that the program allows, or refuses it and leaves the plan as it is.
fn adopt(plan: &mut Plan, sizes: Sizes, slots: &[u8]) -> Result<(), Refusal>
    ensures { plan_outcome result (timetable_of plan.new)
        ≡ replaced_by
        (earliest (program_check sizes ∷ verdict (timetable sizes slots.now (built sizes (length slots.now))) ∷ []))
        (timetable sizes slots.now (built sizes (length slots.now))) (timetable_of plan.old) }
{
    match Excess::of(sizes) {
        Some(excess) => Err(Refusal::from(excess)),
        None => plan.adopt_built(sizes, slots),
    }
}

impl MeshTables {
    // An injection into a mesh of one payload kind.
    fn inject<P: Payload>(
        &mut self,
        out: &mut Vec<u8>,
        plan: &Plan,
        payloads: &mut [P],
        injection: Injection,
    ) -> Result<(), AllocError>
        ensures { OnOk result ((choose : ℕ → ℕ → ℕ × ℕ) (route : Position → Position → ℕ) →
            left (lent self.new payloads.new) out.new.items
            ≡ behind out.old.items (injected P.Payload.form (machine plan.now choose route)
            (lent self.old payloads.old)
            injection.router injection.domain injection.destination injection.payload)) }
    {
        let answer = inject(
            plan,
            self.cycle,
            &mut self.queues,
            &mut self.places,
            payloads,
            &self.words,
            injection.router,
            injection.domain,
            injection.destination,
            P::from_bytes(injection.payload),
        );
        match answer {
            Ok(_) => Ok(()),
            Err(why) => append_refusal(out, why),
        }
    }
}

impl<P: Copy> PayloadTables<P> {
    // The same payload everywhere.
    fn filled_with(payload: P) -> PayloadTables<P>
        ensures { result.held ≡ replicate 1280 payload }
    {
        PayloadTables {
            held: [payload; 1280],
            delivered: [payload; 16],
        }
    }
}

impl RunningMesh {
    // The mesh before any plan frame.
    pub(crate) fn at_first() -> RunningMesh
        ensures { running result ≡ first_mesh }
    {
        RunningMesh {
            plan: Plan::smallest(),
            choices: Choices {
                arbiter: ArbiterKind::Fixed,
                route: RouteKind::ColumnsFirst,
                payload: PayloadKind::Word,
            },
            tables: MeshTables {
                cycle: 0,
                queues: [Queue::default(); 320],
                places: [Place::default(); 1280],
                words: [0; 320],
            },
            words: PayloadTables::filled_with(0),
            records: PayloadTables::filled_with(Collection::default()),
        }
    }

    // Opens the mesh by the plan that it holds.
    fn reopen(&mut self)
        ensures { running self.new ≡ reopened (running self.old) }
    {
        let _ = open(
            &self.plan,
            &mut self.tables.cycle,
            &mut self.tables.queues,
            &mut self.tables.places,
            &mut self.words.held,
            &mut self.tables.words,
        );
    }

    // A plan: the mesh is opened anew by it, or it is refused and the mesh runs on.
    fn plan_frame(
        &mut self,
        out: &mut Vec<u8>,
        sizes: Sizes,
        choices: Choices,
        slots: &[u8],
    ) -> Result<(), AllocError>
        ensures { OnOk result (left (running self.new) out.new.items
            ≡ behind out.old.items (planned (plan_value sizes choices slots.now) (running self.old))) }
    {
        match adopt(&mut self.plan, sizes, slots) {
            Ok(()) => {
                self.choices = choices;
                self.reopen();
                Ok(())
            }
            Err(why) => append_refusal(out, why),
        }
    }

    // An injection of a payload of the mesh's kind. Each kind has an arm, since its table has a type of its own.
    fn inject_frame(&mut self, out: &mut Vec<u8>, injection: Injection) -> Result<(), AllocError>
        ensures { OnOk result (left (running self.new) out.new.items
            ≡ behind out.old.items (injected_as self.old.choices.payload (running self.old)
            injection.router injection.domain injection.destination injection.payload)) }
    {
        let plan = &self.plan;
        match self.choices.payload {
            PayloadKind::Word => self
                .tables
                .inject(out, plan, &mut self.words.held, injection),
            PayloadKind::Record => self
                .tables
                .inject(out, plan, &mut self.records.held, injection),
        }
    }

    // That many steps of a mesh of its kind. Each kind has an arm here too.
    fn steps_frame(&mut self, out: &mut Vec<u8>, count: u8) -> Result<(), AllocError>
        ensures { OnOk result (left (running self.new) out.new.items
            ≡ behind out.old.items (steps_as self.old.choices.payload (running self.old) count)) }
    {
        let (plan, choices) = (&self.plan, self.choices);
        match choices.payload {
            PayloadKind::Word => self.tables.run(out, plan, choices, &mut self.words, count),
            PayloadKind::Record => self
                .tables
                .run(out, plan, choices, &mut self.records, count),
        }
    }

    // What a frame does.
    #[tactic(auto, unfolding(crate::specs::Printed::framed))]
    fn frame(&mut self, out: &mut Vec<u8>, frame: Frame<'_>) -> Result<(), AllocError>
        ensures { OnOk result (left (running self.new) out.new.items
            ≡ behind out.old.items (framed (frame_value frame.entry) (running self.old))) }
    {
        match frame {
            Frame::Plan {
                sizes,
                choices,
                slots,
            } => self.plan_frame(out, sizes, choices, slots),
            Frame::Inject(injection) => self.inject_frame(out, injection),
            Frame::Steps { count } => self.steps_frame(out, count),
        }
    }

    // What a line does.
    #[tactic(auto, unfolding(crate::specs::Printed::framed_line))]
    pub(crate) fn line(
        &mut self,
        heap: Global,
        out: &mut Vec<u8>,
        line: Line<'_>,
    ) -> Result<(), AllocError>
        ensures { OnOk result (left (running self.new) out.new.items
            ≡ behind out.old.items (framed_line (line_value line.entry) (running self.old))) }
    {
        // as the planner does: what both share is the two tests, since one appends a line here where the other answers
        let Line::Ended(text) = line else {
            return append_refusal(out, Refusal::NotAFrame);
        };
        let Some(bytes) = from_hex(heap, text)? else {
            return append_refusal(out, Refusal::NotAFrame);
        };
        match decode(bytes.as_slice()) {
            Ok(frame) => self.frame(out, frame),
            Err(why) => append_refusal(out, why),
        }
    }
}
