ghost use Rattle.std.specs.Prelude.{◌≡◌, ◌<◌};
ghost use Rattle.rules.specs.Arbiters.{Digits, all_sides, first_asking, grant, kept_order, lists_all, moved_to_end};
ghost use Rattle.rules.specs.Arbiters.{order_list, packed, unpacked};
ghost use Rattle.rules.specs.Lawful.{order_list_arbitrates};

use super::arbiter::Arbiter;
use super::sides::{NO_SIDE, asks, contested};

// Least recently granted: the word lists the five sides, the first listed that asks wins and moves to the end.
#[derive(Clone, Copy, Debug, PartialEq, Eq, Default)]
pub struct OrderList;

impl Arbiter for OrderList {
    ghost bits = { λ _. order_list.bits };

    ghost meaning = { λ _. grant order_list };

    ghost arbitrates = { λ _. order_list_arbitrates };

    fn memory_bits(&self) -> u32 {
        15
    }

    // Asks itself whether a side can win: one helper for all arbiters, told the choice as a closure, is no shorter.
    fn choose(&self, word: u32, sides: u8) -> (u8, u32) {
        let kept = word % 32768;
        if contested(sides) {
            let order = read_order(kept);
            let (winner, next_order) = first_to_end(order, sides);
            (winner, pack(next_order))
        } else {
            (NO_SIDE, kept)
        }
    }
}

// The kept list of the five sides, or 0 to 4 in turn where the kept number does not list them all.
fn read_order(kept: u32) -> [u8; 5]
    ensures { result ≡ kept_order kept }
{
    let order = unpack(kept);
    if lists_all(&order) {
        order
    } else {
        [0, 1, 2, 3, 4]
    }
}

// Five digits of three bits, the lowest first.
fn unpack(number: u32) -> [u8; 5]
    ensures { result ≡ unpacked 5 number }
{
    [number, number >> 3, number >> 6, number >> 9, number >> 12].map(|digits| (digits % 8) as u8)
}

// The inverse: one number for five digits. No fold over them: each of its turns would owe that the number so far has room for one more.
fn pack(order: [u8; 5]) -> u32
    ensures { result ≡ packed order }
{
    let [first, second, third, fourth, last] = order.map(u32::from);
    first + 8 * (second + 8 * (third + 8 * (fourth + 8 * last)))
}

// Does the order list each of the five sides?
fn lists_all(order: &[u8; 5]) -> bool
    ensures { result ≡ lists_all order.now all_sides }
{
    [0, 1, 2, 3, 4].iter().all(|side| order.contains(side))
}

// The first side of the order that asks, and the order with that side moved to its end.
fn first_to_end(order: [u8; 5], sides: u8) -> (u8, [u8; 5])
    requires { (Digits order) × (first_asking sides order < 5) }
    ensures { result ≡ (first_asking sides order, moved_to_end (first_asking sides order) order) }
{
    let place = order
        .iter()
        .position(|side| asks(sides, *side))
        .unwrap_or(4);
    let winner = order[place];
    // Picked place by place: `rotate_left` moves memory, and a choice with it takes half as long again.
    let next_at = |at: usize| {
        if at < place {
            order[at]
        } else if at < 4 {
            order[at + 1]
        } else {
            winner
        }
    };
    (winner, std::array::from_fn(next_at))
}
