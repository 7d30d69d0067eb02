ghost use Rattle.std.specs.Prelude.{◌≡◌, Some};
ghost use Rattle.schedule.specs.Names.{port_name, refusal_text};
ghost use Rattle.schedule.specs.Refusals.{number as number_of};

use super::side::Side;
use super::sizes::Size;
use std::error::Error;
use std::fmt;

// Why a line or a plan is turned away, with the place of the fault.
// A port or a side is told by its number, as a router and a slot are: that is its place in the list that the caller gave.
#[derive(Clone, Copy, Debug, PartialEq, Eq, Hash)]
pub enum Refusal {
    // the line is no frame
    NotAFrame,
    // the first size, in the order of `Size`, that is outside its limits
    SizeOutOfLimits { size: Size },
    // there are not five offsets for each router
    OffsetCount,
    // the first slot that names a domain the plan does not have
    UnknownDomain { slot: u8 },
    // the lowest domain that no slot names
    DomainWithoutSlot { domain: u8 },
    // the first port, by router and then by port, whose offset is not below the period
    OffsetTooLarge { router: u8, port: u8 },
    // the first port, by router and then by side, at which the wave breaks
    WaveBroken { router: u8, side: u8 },
    // a table is shorter than the plan needs
    TableTooShort,
    // a queue record does not fit its places, or a held packet does not belong into the mesh or the present cycle
    UnsoundTable,
    // the router or the destination is not in the mesh
    OutsideMesh,
    // the plan does not have the domain
    NoSuchDomain,
    // the queue has no free place
    QueueFull,
    // the cycle counter is at its end
    CyclesSpent,
}

impl Refusal {
    // The number by which a refusal is reported. A method and no `From`, since its name says what the number is.
    pub fn number(self) -> u8
        ensures { result ≡ number_of self }
    {
        match self {
            Refusal::NotAFrame => 1,
            Refusal::SizeOutOfLimits { .. } => 2,
            Refusal::OffsetCount => 3,
            Refusal::UnknownDomain { .. } => 4,
            Refusal::DomainWithoutSlot { .. } => 5,
            Refusal::OffsetTooLarge { .. } => 6,
            Refusal::WaveBroken { .. } => 7,
            Refusal::TableTooShort => 8,
            Refusal::UnsoundTable => 9,
            Refusal::OutsideMesh => 10,
            Refusal::NoSuchDomain => 11,
            Refusal::QueueFull => 12,
            Refusal::CyclesSpent => 13,
        }
    }
}

// A port, which is printed as the side that it is on; one past the last is printed as the last, as the definition has it.
#[derive(Clone, Copy)]
struct PortOn(u8);

impl fmt::Display for PortOn {
    ghost output = { λ port. Some (port_name port.0) };

    #[tactic(auto, unfolding(crate::specs::Names::port_name))]
    fn fmt<W: fmt::Write>(&self, f: &mut fmt::Formatter<W>) -> fmt::Result {
        let side = Side::try_from(self.0).unwrap_or(Side::Local);
        write!(f, "{side}")
    }
}

impl fmt::Display for Refusal {
    ghost output = { λ refusal. Some (refusal_text refusal) };

    fn fmt<W: fmt::Write>(&self, f: &mut fmt::Formatter<W>) -> fmt::Result {
        match *self {
            Refusal::NotAFrame => f.write_str("the line is not a frame"),
            Refusal::SizeOutOfLimits { size } => {
                write!(f, "the {size} is not from 1 to {}", size.largest())
            }
            Refusal::OffsetCount => f.write_str("there are not five offsets for each router"),
            Refusal::UnknownDomain { slot } => {
                write!(f, "slot {slot} names a domain that the plan does not have")
            }
            Refusal::DomainWithoutSlot { domain } => write!(f, "domain {domain} has no slot"),
            Refusal::OffsetTooLarge { router, port } => {
                let on = PortOn(port);
                write!(
                    f,
                    "the offset of router {router}, port {on}, is not below the number of slots"
                )
            }
            Refusal::WaveBroken { router, side } => {
                let on = PortOn(side);
                write!(
                    f,
                    "the wave breaks from router {router} to its neighbour {on}"
                )
            }
            Refusal::TableTooShort => f.write_str("a table is shorter than the plan needs"),
            Refusal::UnsoundTable => f.write_str("a queue record or a held packet is unsound"),
            Refusal::OutsideMesh => f.write_str("the router or the destination is not in the mesh"),
            Refusal::NoSuchDomain => f.write_str("the plan does not have the domain"),
            Refusal::QueueFull => f.write_str("the queue is full"),
            Refusal::CyclesSpent => f.write_str("no cycle is left to run"),
        }
    }
}

impl Error for Refusal {}
