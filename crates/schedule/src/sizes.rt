ghost use Rattle.std.specs.Prelude.{◌≡◌, Some};
ghost use Rattle.std.specs.Fmt.{padded};
ghost use Rattle.schedule.specs.Names.{size_name};
ghost use Rattle.schedule.specs.Limits.{largest as largest_of};

use std::fmt;

// The sizes of a mesh and its queues. The sixth size of a plan, its period, is the length of its slot list.
#[repr(C)]
#[derive(Clone, Copy, Debug, PartialEq, Eq, Hash)]
pub struct Sizes {
    // columns of routers
    pub width: u8,
    // rows of routers
    pub height: u8,
    // domains that share the mesh
    pub domains: u8,
    // places for packets in each queue (a queue is one virtual channel: of one router side, for one domain)
    pub depth: u8,
    // cycles from leaving one router to being ready at the next
    pub hop: u8,
}

// Which of a plan's six sizes.
#[derive(Clone, Copy, Debug, PartialEq, Eq, Hash)]
pub enum Size {
    Width,
    Height,
    Domains,
    Depth,
    Hop,
    Period,
}

impl Size {
    // The top of a size's limits; each begins at 1.
    pub fn largest(self) -> u8
        ensures { result ≡ largest_of self }
    {
        match self {
            Size::Width | Size::Height | Size::Domains | Size::Hop => 8,
            Size::Depth => 4,
            Size::Period => 64,
        }
    }

    // The size's name in print.
    fn name(self) -> &'static str
        ensures { result.now ≡ size_name self }
    {
        match self {
            Size::Width => "number of columns",
            Size::Height => "number of rows",
            Size::Domains => "number of domains",
            Size::Depth => "number of queue places",
            Size::Hop => "number of cycles a hop",
            Size::Period => "number of slots",
        }
    }
}

impl fmt::Display for Size {
    ghost output = { λ size. Some (size_name size) };

    ghost styled_output = { λ size spec. Some (padded spec (size_name size)) };

    fn fmt<W: fmt::Write>(&self, f: &mut fmt::Formatter<W>) -> fmt::Result {
        f.pad(self.name())
    }
}
