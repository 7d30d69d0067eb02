ghost use Rattle.rules.specs.Arbiters.{fixed, grant};
ghost use Rattle.std.proofs.Common.{rules};

use super::arbiter::Arbiter;
use super::sides::{NO_SIDE, contested, first_upward};

// Fixed priority: the lowest side that asks wins.
#[derive(Clone, Copy, Debug, PartialEq, Eq, Default)]
pub struct Fixed;

impl Arbiter for Fixed {
    ghost bits = { λ _. fixed.bits };

    ghost meaning = { λ _. grant fixed };

    ghost arbitrates = { Prim.search rules };

    fn memory_bits(&self) -> u32 {
        0
    }

    // Asks itself whether a side can win: one helper for all arbiters, told the choice as a closure, is no shorter.
    fn choose(&self, _word: u32, sides: u8) -> (u8, u32) {
        if contested(sides) {
            (first_upward(0, sides) as u8, 0)
        } else {
            (NO_SIDE, 0)
        }
    }
}
