ghost use Rattle.std.specs.Prelude.{◌≡◌, Some};
ghost use Rattle.std.specs.Fmt.{padded};
ghost use Rattle.frames.specs.Choices.{arbiter_number, arbiter_of, arbiter_told, route_number, route_of, route_told};
ghost use Rattle.frames.specs.Choices.{payload_number, payload_of, payload_told};
ghost use Rattle.frames.specs.Choices.{arbiter_name, route_name, payload_name, choices_text, unknown_text};
ghost use Rattle.frames.specs.Numbered.{ToldApart};

use std::error::Error;
use std::fmt;

// How a plan's ports choose among the queues that ask. Each kind has conversions and a name of its own below: these are impls of the
// library's traits, which no trait of ours could give to all of them.
#[derive(Clone, Copy, Debug, PartialEq, Eq)]
pub enum ArbiterKind {
    Fixed,
    Rotating,
    OrderList,
}

// Which way a packet goes first.
#[derive(Clone, Copy, Debug, PartialEq, Eq)]
pub enum RouteKind {
    ColumnsFirst,
    RowsFirst,
}

// What a packet's four payload bytes are.
#[derive(Clone, Copy, Debug, PartialEq, Eq)]
pub enum PayloadKind {
    Word,
    Record,
}

// What a plan frame chooses for its mesh.
#[derive(Clone, Copy, Debug, PartialEq, Eq)]
pub struct Choices {
    pub arbiter: ArbiterKind,
    pub route: RouteKind,
    pub payload: PayloadKind,
}

// A number that none of the kinds looked for has.
#[derive(Clone, Copy, Debug, PartialEq, Eq)]
pub struct UnknownKind(pub u8);

impl From<ArbiterKind> for u8 {
    ghost from_gives = { λ kind number. number ≡ arbiter_number kind };

    fn from(kind: ArbiterKind) -> u8 {
        match kind {
            ArbiterKind::Fixed => 0,
            ArbiterKind::Rotating => 1,
            ArbiterKind::OrderList => 2,
        }
    }
}

impl TryFrom<u8> for ArbiterKind {
    type Error = UnknownKind;

    ghost try_from_gives = { λ number told. told ≡ arbiter_told number };

    fn try_from(number: u8) -> Result<ArbiterKind, UnknownKind>
        ensures kind { result ≡ arbiter_told number }
        ensures apart { ToldApart arbiter_number arbiter_of }
    {
        match number {
            0 => Ok(ArbiterKind::Fixed),
            1 => Ok(ArbiterKind::Rotating),
            2 => Ok(ArbiterKind::OrderList),
            _ => Err(UnknownKind(number)),
        }
    }
}

impl From<RouteKind> for u8 {
    ghost from_gives = { λ kind number. number ≡ route_number kind };

    fn from(kind: RouteKind) -> u8 {
        match kind {
            RouteKind::ColumnsFirst => 0,
            RouteKind::RowsFirst => 1,
        }
    }
}

impl TryFrom<u8> for RouteKind {
    type Error = UnknownKind;

    ghost try_from_gives = { λ number told. told ≡ route_told number };

    fn try_from(number: u8) -> Result<RouteKind, UnknownKind>
        ensures kind { result ≡ route_told number }
        ensures apart { ToldApart route_number route_of }
    {
        match number {
            0 => Ok(RouteKind::ColumnsFirst),
            1 => Ok(RouteKind::RowsFirst),
            _ => Err(UnknownKind(number)),
        }
    }
}

impl From<PayloadKind> for u8 {
    ghost from_gives = { λ kind number. number ≡ payload_number kind };

    fn from(kind: PayloadKind) -> u8 {
        match kind {
            PayloadKind::Word => 0,
            PayloadKind::Record => 1,
        }
    }
}

impl TryFrom<u8> for PayloadKind {
    type Error = UnknownKind;

    ghost try_from_gives = { λ number told. told ≡ payload_told number };

    fn try_from(number: u8) -> Result<PayloadKind, UnknownKind>
        ensures kind { result ≡ payload_told number }
        ensures apart { ToldApart payload_number payload_of }
    {
        match number {
            0 => Ok(PayloadKind::Word),
            1 => Ok(PayloadKind::Record),
            _ => Err(UnknownKind(number)),
        }
    }
}

impl ArbiterKind {
    // The arbiter kind's name in print.
    fn name(self) -> &'static str
        ensures { result.now ≡ arbiter_name self }
    {
        match self {
            ArbiterKind::Fixed => "fixed",
            ArbiterKind::Rotating => "rotating",
            ArbiterKind::OrderList => "order list",
        }
    }
}

impl fmt::Display for ArbiterKind {
    ghost output = { λ kind. Some (arbiter_name kind) };

    ghost styled_output = { λ kind spec. Some (padded spec (arbiter_name kind)) };

    fn fmt<W: fmt::Write>(&self, f: &mut fmt::Formatter<W>) -> fmt::Result {
        f.pad(self.name())
    }
}

impl RouteKind {
    // The route kind's name in print.
    fn name(self) -> &'static str
        ensures { result.now ≡ route_name self }
    {
        match self {
            RouteKind::ColumnsFirst => "columns first",
            RouteKind::RowsFirst => "rows first",
        }
    }
}

impl fmt::Display for RouteKind {
    ghost output = { λ kind. Some (route_name kind) };

    ghost styled_output = { λ kind spec. Some (padded spec (route_name kind)) };

    fn fmt<W: fmt::Write>(&self, f: &mut fmt::Formatter<W>) -> fmt::Result {
        f.pad(self.name())
    }
}

impl PayloadKind {
    // The payload kind's name in print.
    fn name(self) -> &'static str
        ensures { result.now ≡ payload_name self }
    {
        match self {
            PayloadKind::Word => "word",
            PayloadKind::Record => "record",
        }
    }
}

impl fmt::Display for PayloadKind {
    ghost output = { λ kind. Some (payload_name kind) };

    ghost styled_output = { λ kind spec. Some (padded spec (payload_name kind)) };

    fn fmt<W: fmt::Write>(&self, f: &mut fmt::Formatter<W>) -> fmt::Result {
        f.pad(self.name())
    }
}

impl fmt::Display for Choices {
    ghost output = { λ choices. Some (choices_text choices) };

    fn fmt<W: fmt::Write>(&self, f: &mut fmt::Formatter<W>) -> fmt::Result {
        let Choices {
            arbiter,
            route,
            payload,
        } = self;
        write!(f, "arbiter {arbiter}, route {route}, payload {payload}")
    }
}

impl fmt::Display for UnknownKind {
    ghost output = { λ unknown. Some (unknown_text unknown) };

    fn fmt<W: fmt::Write>(&self, f: &mut fmt::Formatter<W>) -> fmt::Result {
        write!(f, "no kind has number {}", self.0)
    }
}

impl Error for UnknownKind {}
