ghost use Rattle.std.specs.Prelude.{◌≡◌};
ghost use Rattle.frames.specs.Output.{delivery_bytes, refusal_bytes};

use schedule::refusal::Refusal;

// A packet that reached its destination in a cycle, told field by field as the frame has it. A kind's first byte stands as it is, as in `frame.rt`.
pub fn delivery_frame(cycle: u32, router: u8, domain: u8, source: u8, payload: [u8; 4]) -> [u8; 12]
    ensures { result ≡ delivery_bytes cycle router domain source payload }
{
    let [c0, c1, c2, c3] = cycle.to_be_bytes();
    let [p0, p1, p2, p3] = payload;
    [4, c0, c1, c2, c3, router, domain, source, p0, p1, p2, p3]
}

// A line or a plan that was turned away.
pub fn refusal_frame(refusal: Refusal) -> [u8; 2]
    ensures { result ≡ refusal_bytes refusal }
{
    [5, refusal.number()]
}
