// The records of the tables that a caller lends. Each is laid out as in C, as a step towards callers in other languages.
// Payloads lie in slices of their own beside places and delivery records, since the caller says of which type they are and where they lie.

// One virtual channel queue, a ring of places: the place of its first packet, and how many packets it holds. The caller's places are the ring.
#[repr(C)]
#[derive(Clone, Copy, Debug, PartialEq, Eq, Default)]
pub struct Queue {
    pub first: u8,
    pub count: u8,
}

// One place of a queue: where its packet goes, whence it came, and the first cycle in which it may leave.
#[repr(C)]
#[derive(Clone, Copy, Debug, PartialEq, Eq, Default)]
pub struct Place {
    pub destination: u8,
    pub source: u8,
    pub ready: u64,
}

// What a step tells of one router: mark 1 with the domain and the source of the packet delivered there, or three zeros.
// A mark with values beside it, and no Option: callers lend these records, and their layout is fixed as three bytes.
#[repr(C)]
#[derive(Clone, Copy, Debug, PartialEq, Eq, Default)]
pub struct Delivery {
    pub mark: u8,
    pub domain: u8,
    pub source: u8,
}
