ghost use Rattle.std.specs.Prelude.{◌≡◌, ◌<◌};
ghost use Rattle.rules.specs.Arbiters.{grant, rotating, start as start_of};
ghost use Rattle.rules.specs.Lawful.{rotating_arbitrates};

use super::arbiter::Arbiter;
use super::sides::{NO_SIDE, contested, first_upward};

// Rotating priority: the word names the side that is looked at first, and after a grant it is the turn of the side after the winner.
#[derive(Clone, Copy, Debug, PartialEq, Eq, Default)]
pub struct Rotating;

impl Arbiter for Rotating {
    ghost bits = { λ _. rotating.bits };

    ghost meaning = { λ _. grant rotating };

    ghost arbitrates = { λ _. rotating_arbitrates };

    fn memory_bits(&self) -> u32 {
        3
    }

    // Asks itself whether a side can win: one helper for all arbiters, told the choice as a closure, is no shorter.
    fn choose(&self, word: u32, sides: u8) -> (u8, u32) {
        let kept = word % 8;
        if contested(sides) {
            let winner = first_upward(start(kept), sides);
            (winner as u8, (winner + 1) % 5)
        } else {
            (NO_SIDE, kept)
        }
    }
}

// The side that is looked at first: three bits can name 5 to 7 too, which are read as 0.
fn start(kept: u32) -> u32
    ensures reads { result ≡ start_of kept }
    ensures side { result < 5 }
{
    if kept < 5 { kept } else { 0 }
}
