// The limits of the program `meshrun`, which are smaller than a plan's.
ghost use Rattle.std.specs.Prelude.{◌≡◌, Some};
ghost use Rattle.frames.specs.Limits.{allowed as allowed_of, excess as excess_of, excess_text, refusal_of};

use schedule::refusal::Refusal;
use schedule::sizes::{Size, Sizes};
use std::fmt;

// What of a plan is too large for `meshrun`.
#[derive(Clone, Copy, Debug, PartialEq, Eq)]
pub enum Excess {
    Routers,
    Domains,
}

impl Excess {
    // How many of it `meshrun` allows.
    pub fn allowed(self) -> u8
        ensures { result ≡ allowed_of self }
    {
        match self {
            Excess::Routers => 16,
            Excess::Domains => 4,
        }
    }

    // What of these sizes is more than `meshrun` allows; none where it allows them.
    pub fn of(sizes: Sizes) -> Option<Excess>
        ensures { result ≡ excess_of sizes }
    {
        let routers = u16::from(sizes.width) * u16::from(sizes.height);
        if routers > u16::from(Excess::Routers.allowed()) {
            Some(Excess::Routers)
        } else if sizes.domains > Excess::Domains.allowed() {
            Some(Excess::Domains)
        } else {
            None
        }
    }
}

impl fmt::Display for Excess {
    ghost output = { λ excess. Some (excess_text excess) };

    fn fmt<W: fmt::Write>(&self, f: &mut fmt::Formatter<W>) -> fmt::Result {
        let allowed = self.allowed();
        match self {
            Excess::Routers => write!(f, "more than {allowed} routers"),
            Excess::Domains => write!(f, "more than {allowed} domains"),
        }
    }
}

// Too many routers are told as too many columns.
impl From<Excess> for Refusal {
    ghost from_gives = { λ excess refusal. refusal ≡ refusal_of excess };

    fn from(excess: Excess) -> Refusal {
        match excess {
            Excess::Routers => Refusal::SizeOutOfLimits { size: Size::Width },
            Excess::Domains => Refusal::SizeOutOfLimits {
                size: Size::Domains,
            },
        }
    }
}
