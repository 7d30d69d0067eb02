// The sides of a router by their numbers and names.
ghost use Rattle.std.specs.Prelude.{◌≡◌, Some};
ghost use Rattle.std.specs.Fmt.{padded};
ghost use Rattle.schedule.specs.Names.{no_side_text, side_name};
ghost use Rattle.schedule.specs.Sides.{side_number, side_told};

use std::error::Error;
use std::fmt;

// A side of a router, and the port on it: towards one of the four neighbours, or to the router's own core.
#[derive(Clone, Copy, Debug, PartialEq, Eq)]
pub enum Side {
    East,
    West,
    South,
    North,
    Local,
}

// A number that is no side's.
#[derive(Clone, Copy, Debug, PartialEq, Eq)]
pub struct NoSuchSide(pub u8);

impl From<Side> for u8 {
    ghost from_gives = { λ side n. n ≡ side_number side };

    fn from(side: Side) -> u8 {
        match side {
            Side::East => 0,
            Side::West => 1,
            Side::South => 2,
            Side::North => 3,
            Side::Local => 4,
        }
    }
}

impl TryFrom<u8> for Side {
    type Error = NoSuchSide;

    ghost try_from_gives = { λ number told. told ≡ side_told number };

    fn try_from(number: u8) -> Result<Self, NoSuchSide> {
        match number {
            0 => Ok(Side::East),
            1 => Ok(Side::West),
            2 => Ok(Side::South),
            3 => Ok(Side::North),
            4 => Ok(Side::Local),
            _ => Err(NoSuchSide(number)),
        }
    }
}

impl Side {
    // The side's name in print.
    fn name(self) -> &'static str
        ensures { result.now ≡ side_name self }
    {
        match self {
            Side::East => "east",
            Side::West => "west",
            Side::South => "south",
            Side::North => "north",
            Side::Local => "local",
        }
    }
}

impl fmt::Display for Side {
    ghost output = { λ side. Some (side_name side) };

    ghost styled_output = { λ side spec. Some (padded spec (side_name side)) };

    fn fmt<W: fmt::Write>(&self, f: &mut fmt::Formatter<W>) -> fmt::Result {
        f.pad(self.name())
    }
}

impl fmt::Display for NoSuchSide {
    ghost output = { λ e. Some (no_side_text e) };

    fn fmt<W: fmt::Write>(&self, f: &mut fmt::Formatter<W>) -> fmt::Result {
        write!(f, "no side has number {}", self.0)
    }
}

impl Error for NoSuchSide {}
