ghost use Rattle.std.specs.Prelude.{◌≡◌};
ghost use Rattle.std.specs.Option.{option_map, ok_or};
ghost use Rattle.schedule.specs.declared.refusal.Refusal.TheVariants.{NotAFrame};
ghost use Rattle.frames.specs.Frames.{OneFrame, bare, decoded, frame_value, injection_of, plan_of, steps_of, told};

use super::choices::Choices;
use super::given::{GivenPlan, plan_fields};
use schedule::refusal::Refusal;
use schedule::sizes::Sizes;

// What a program is told to do.
#[derive(Clone, Copy, Debug, PartialEq, Eq)]
pub enum Frame<'a> {
    // start a mesh by a plan, whose offsets are built
    Plan {
        sizes: Sizes,
        choices: Choices,
        slots: &'a [u8],
    },
    // put a packet into the queue of a router's own core
    Inject(Injection),
    // let that many cycles pass
    Steps {
        count: u8,
    },
}

// A packet on its way into the mesh.
#[derive(Clone, Copy, Debug, PartialEq, Eq)]
pub struct Injection {
    pub router: u8,
    pub domain: u8,
    pub destination: u8,
    pub payload: [u8; 4],
}

// The frame that has these bytes.
pub fn decode<'a>(bytes: &'a [u8]) -> Result<Frame<'a>, Refusal>
    ensures frame { told frame_value result ≡ ok_or (decoded bytes.now) NotAFrame }
    ensures one { OneFrame }
{
    frame_of(bytes).ok_or(Refusal::NotAFrame)
}

fn frame_of<'a>(bytes: &'a [u8]) -> Option<Frame<'a>>
    ensures { option_map frame_value result ≡ decoded bytes.now }
{
    let [kind, fields @ ..] = bytes else {
        return None;
    };
    // a kind is named by its first byte alone: an enum of kinds would be matched as this is
    match *kind {
        1 => bare_plan(fields),
        2 => injected(fields),
        3 => steps(fields),
        _ => None,
    }
}

// A plan with nothing behind its slots.
fn bare_plan<'a>(fields: &'a [u8]) -> Option<Frame<'a>>
    ensures { option_map frame_value result ≡ bare (plan_of fields.now) }
{
    let plan = plan_fields(fields)?;
    if !plan.offsets.is_empty() {
        return None;
    }
    Some(Frame::Plan {
        sizes: plan.sizes,
        choices: plan.choices,
        slots: plan.slots,
    })
}

fn injected<'a>(fields: &'a [u8]) -> Option<Frame<'a>>
    ensures { option_map frame_value result ≡ injection_of fields.now }
{
    match fields {
        [router, domain, destination, a, b, c, d] => Some(Frame::Inject(Injection {
            router: *router,
            domain: *domain,
            destination: *destination,
            payload: [*a, *b, *c, *d],
        })),
        _ => None,
    }
}

fn steps<'a>(fields: &'a [u8]) -> Option<Frame<'a>>
    ensures { option_map frame_value result ≡ steps_of fields.now }
{
    match fields {
        [count] => Some(Frame::Steps { count: *count }),
        _ => None,
    }
}
