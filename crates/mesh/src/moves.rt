// What a port does in a cycle in which it passes a packet. The fields lie from the widest down: a cycle holds a table of these, and so it is as small as can be.
#[derive(Clone, Copy)]
pub(crate) struct Move {
    // the place of the packet
    pub(crate) from: usize,
    // the arbiter's next word
    pub(crate) next: u32,
    // the domain that the port belongs to
    pub(crate) owner: u8,
    // the side whose first packet it passes, by its number: as the arbiter tells it, and as the queue's number has it
    pub(crate) winner: u8,
    // what stands at the place
    pub(crate) destination: u8,
    pub(crate) source: u8,
}
