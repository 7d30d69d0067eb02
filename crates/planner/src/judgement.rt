// The judgement of a line of a planner's file.
ghost use Rattle.std.specs.Prelude.{◌≡◌, Err, Some, MatchResult};
ghost use Rattle.std.specs.Fmt.{padded};
ghost use Rattle.schedule.specs.Plans.{timetable_of};
ghost use Rattle.frames.specs.Lines.{line_value};
ghost use Rattle.frames.specs.Frames.{frame_value, given_of};
ghost use Rattle.planner.specs.Judged.{judged, judged_bytes, judged_frame, judged_given, judgement_value, kind_number, left};
ghost use Rattle.planner.specs.Judged.{offsets_name, other_name, rejection_text};
ghost use Rattle.planner.specs.declared.judgement.Rejection.TheVariants.{Refused};

use frames::choices::Choices;
use frames::frame::{Frame, decode};
use frames::given::decode_given;
use frames::hex::from_hex;
use frames::lines::Line;
use schedule::plan::Plan;
use schedule::refusal::Refusal;
use std::alloc::{AllocError, Global};
use std::error::Error;
use std::fmt;

// Where a plan's offsets come from.
#[derive(Clone, Copy, Debug, PartialEq, Eq)]
pub enum Offsets {
    Built,
    Given,
}

impl Offsets {
    // The name in print.
    fn name(self) -> &'static str
        ensures { result.now ≡ offsets_name self }
    {
        match self {
            Offsets::Built => "built",
            Offsets::Given => "given",
        }
    }
}

impl fmt::Display for Offsets {
    ghost output = { λ offsets. Some (offsets_name offsets) };

    ghost styled_output = { λ offsets spec. Some (padded spec (offsets_name offsets)) };

    fn fmt<W: fmt::Write>(&self, f: &mut fmt::Formatter<W>) -> fmt::Result {
        f.pad(self.name())
    }
}

// A frame that is no plan.
#[derive(Clone, Copy, Debug, PartialEq, Eq)]
pub enum OtherKind {
    Injection,
    Steps,
}

// The number of the kind's frames.
impl From<OtherKind> for u8 {
    ghost from_gives = { λ kind number. number ≡ kind_number kind };

    fn from(kind: OtherKind) -> u8 {
        match kind {
            OtherKind::Injection => 2,
            OtherKind::Steps => 3,
        }
    }
}

impl OtherKind {
    // The name in print.
    fn name(self) -> &'static str
        ensures { result.now ≡ other_name self }
    {
        match self {
            OtherKind::Injection => "an injection",
            OtherKind::Steps => "a number of steps",
        }
    }
}

impl fmt::Display for OtherKind {
    ghost output = { λ kind. Some (other_name kind) };

    ghost styled_output = { λ kind spec. Some (padded spec (other_name kind)) };

    fn fmt<W: fmt::Write>(&self, f: &mut fmt::Formatter<W>) -> fmt::Result {
        f.pad(self.name())
    }
}

// A line whose timetable may go into a chip.
#[derive(Clone, Copy, Debug, PartialEq, Eq)]
pub struct Accepted {
    pub choices: Choices,
    pub offsets: Offsets,
}

// Why a line brings no timetable.
#[derive(Clone, Copy, Debug, PartialEq, Eq)]
pub enum Rejection {
    Refused(Refusal),
    AnotherKind(OtherKind),
}

impl From<Refusal> for Rejection {
    ghost from_gives = { λ refusal rejection. rejection ≡ Refused refusal };

    fn from(refusal: Refusal) -> Rejection {
        Rejection::Refused(refusal)
    }
}

impl fmt::Display for Rejection {
    ghost output = { λ rejection. Some (rejection_text rejection) };

    #[tactic(auto, using(crate::proofs::FrameDigits::frame_digits))]
    fn fmt<W: fmt::Write>(&self, f: &mut fmt::Formatter<W>) -> fmt::Result {
        match *self {
            Rejection::Refused(refusal) => write!(f, "refused {}: {refusal}", refusal.number()),
            Rejection::AnotherKind(kind) => {
                let number = u8::from(kind);
                write!(f, "refused, no plan: frame {number:02x} is {kind}")
            }
        }
    }
}

impl Error for Rejection {}

// What becomes of a line. Where it is accepted, the caller's plan holds its timetable now.
pub type Judgement = Result<Accepted, Rejection>;

// A plan frame: its offsets are built.
fn judge_frame(frame: Frame<'_>, plan: &mut Plan) -> Judgement
    ensures { left (judgement_value result) (timetable_of plan.new) ≡ judged_frame (frame_value frame.entry) (timetable_of plan.old) }
{
    match frame {
        Frame::Plan {
            sizes,
            choices,
            slots,
        } => {
            plan.adopt_built(sizes, slots)?;
            Ok(Accepted {
                choices,
                offsets: Offsets::Built,
            })
        }
        Frame::Inject(_) => Err(Rejection::AnotherKind(OtherKind::Injection)),
        Frame::Steps { .. } => Err(Rejection::AnotherKind(OtherKind::Steps)),
    }
}

// A planner's own frame: its offsets are given.
fn judge_given(bytes: &[u8], plan: &mut Plan) -> Judgement
    ensures { left (judgement_value result) (timetable_of plan.new) ≡ judged_given (given_of bytes.now) (timetable_of plan.old) }
{
    let given = decode_given(bytes)?;
    plan.adopt(given.sizes, given.slots, given.offsets)?;
    Ok(Accepted {
        choices: given.choices,
        offsets: Offsets::Given,
    })
}

fn judge_bytes(bytes: &[u8], plan: &mut Plan) -> Judgement
    ensures { left (judgement_value result) (timetable_of plan.new) ≡ judged_bytes (Some bytes.now) (timetable_of plan.old) }
{
    match decode(bytes) {
        Ok(frame) => judge_frame(frame, plan),
        Err(_) => judge_given(bytes, plan),
    }
}

// Judges a line, and takes an accepted timetable up into the caller's plan; for want of memory the plan stays as it is.
pub fn judge(heap: Global, line: Line<'_>, plan: &mut Plan) -> Result<Judgement, AllocError>
    ensures { MatchResult result
        (λ j. left (judgement_value j) (timetable_of plan.new) ≡ judged (line_value line.entry) (timetable_of plan.old))
        (λ _. timetable_of plan.new ≡ timetable_of plan.old) }
{
    // as the runner does, but for what is answered
    let Line::Ended(text) = line else {
        return Ok(Err(Refusal::NotAFrame.into()));
    };
    let Some(bytes) = from_hex(heap, text)? else {
        return Ok(Err(Refusal::NotAFrame.into()));
    };
    Ok(judge_bytes(&bytes, plan))
}
