// From a block of input to the lines that are printed for it.
ghost use Rattle.std.specs.Prelude.{◌≡◌, IfOk};
ghost use Rattle.runner.specs.Printed.{printed};

use super::state::RunningMesh;
use super::stepping::append_refusal;
use frames::lines::Lines;
use schedule::refusal::Refusal;
use std::alloc::{AllocError, Global};

// The longest input that is read.
const MOST_BYTES: usize = 32768;

// Runs the frames of the input on a mesh, and answers the lines that are to be printed.
#[tactic(auto, unfolding(crate::specs::Printed::printed))]
pub fn run(heap: Global, input: &[u8]) -> Result<Vec<u8>, AllocError>
    ensures { IfOk result (λ out. out.items ≡ printed input.now) }
{
    let mut out = Vec::new(heap);
    if input.len() > MOST_BYTES {
        append_refusal(&mut out, Refusal::NotAFrame)?;
        return Ok(out);
    }
    let mut mesh = RunningMesh::at_first();
    for line in Lines::new(input) {
        mesh.line(heap, &mut out, line)?;
    }
    Ok(out)
}
