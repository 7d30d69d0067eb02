ghost use Rattle.std.specs.Prelude.{◌≡◌};
ghost use Rattle.std.specs.Option.{option_map, ok_or};
ghost use Rattle.schedule.specs.declared.refusal.Refusal.TheVariants.{NotAFrame};
ghost use Rattle.frames.specs.Frames.{OneGiven, Split, given_of, given_value, plan_of, told};

use super::choices::{ArbiterKind, Choices, PayloadKind, RouteKind};
use schedule::refusal::Refusal;
use schedule::sizes::Sizes;

// A plan with its offsets given: the planner's own frame, number 6.
#[derive(Clone, Copy, Debug, PartialEq, Eq)]
pub struct GivenPlan<'a> {
    pub sizes: Sizes,
    pub choices: Choices,
    pub slots: &'a [u8],
    pub offsets: &'a [u8],
}

// The plan and the offsets that have these bytes.
#[tactic(auto, using(crate::proofs::OneFrame::one_given))]
pub fn decode_given<'a>(bytes: &'a [u8]) -> Result<GivenPlan<'a>, Refusal>
    ensures plan { told given_value result ≡ ok_or (given_of bytes.now) NotAFrame }
    ensures one { OneGiven }
{
    given_plan(bytes).ok_or(Refusal::NotAFrame)
}

fn given_plan<'a>(bytes: &'a [u8]) -> Option<GivenPlan<'a>>
    ensures { option_map given_value result ≡ given_of bytes.now }
{
    let [kind, fields @ ..] = bytes else {
        return None;
    };
    // the kind's first byte, as in `frame.rt`
    match *kind {
        6 => plan_fields(fields),
        _ => None,
    }
}

// The plan that the fields of a frame begin with; what follows it is taken for offsets.
pub(crate) fn plan_fields<'a>(fields: &'a [u8]) -> Option<GivenPlan<'a>>
    ensures { option_map given_value result ≡ plan_of fields.now }
{
    let [
        width,
        height,
        domains,
        depth,
        hop,
        arbiter,
        route,
        payload,
        period,
        rest @ ..,
    ] = fields
    else {
        return None;
    };
    let (slots, offsets) = split_slots(*period, rest)?;
    Some(GivenPlan {
        sizes: Sizes {
            width: *width,
            height: *height,
            domains: *domains,
            depth: *depth,
            hop: *hop,
        },
        choices: Choices {
            arbiter: ArbiterKind::try_from(*arbiter).ok()?,
            route: RouteKind::try_from(*route).ok()?,
            payload: PayloadKind::try_from(*payload).ok()?,
        },
        slots,
        offsets,
    })
}

// As many slots as the period says, and the bytes behind them.
fn split_slots<'a>(period: u8, bytes: &'a [u8]) -> Option<(&'a [u8], &'a [u8])>
    ensures { Split period bytes.now result }
{
    bytes.split_at_checked(usize::from(period))
}
