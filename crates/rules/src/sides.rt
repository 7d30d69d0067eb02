// Sets of sides: bit i stands for side i, from 0 to 4.
ghost use Rattle.std.specs.Prelude.{◌≡◌, ◌<◌, true};
ghost use Rattle.rules.specs.Arbiters.{asks as is_asking, contested as is_contested, first_asking, upward_from};

// What an arbiter answers in the place of a winner where there is none: a number and no None, as the fixed form of its answer has it.
pub(crate) const NO_SIDE: u8 = 5;

// Can one of these sides win: is there one, and none above 4?
pub(crate) fn contested(sides: u8) -> bool
    ensures { result ≡ is_contested sides }
{
    (1..32).contains(&sides)
}

// Is this side in the set of those that ask? The side is a number, the place of its bit.
pub(crate) fn asks(sides: u8, side: u8) -> bool
    requires { side < 8 }
    ensures { result ≡ is_asking sides side }
{
    (sides >> side) % 2 == 1
}

// The first side that asks, looking upward from `start` with 0 after 4.
pub(crate) fn first_upward(start: u32, sides: u8) -> u32
    requires { (start < 5) × (is_contested sides ≡ true) }
    ensures wins { result ≡ first_asking sides (upward_from start) }
    ensures side { result < 5 }
{
    // the set twice in a row: bit i of it, once shifted, is the side i above the start
    let twice = u32::from(sides) | u32::from(sides) << 5;
    (start + (twice >> start).trailing_zeros()) % 5
}
