ghost use Rattle.std.specs.Prelude.{◌≡◌, ℕ};
ghost use Rattle.rules.specs.Arbiters.{Arbitrates};

// Chooses among the sides that ask for one port in one domain.
//
// The arbiter itself never changes: what it has to remember of earlier choices stands in a word, which the caller keeps for it
// from one choice to the next. A set of sides has bit i for side i, from 0 to 4.
pub trait Arbiter {
    // how many bits of the word it keeps, counted from the lowest
    ghost bits: { Self → ℕ };
    // the winner and the next word, for each word and each set of sides
    ghost meaning: { Self → ℕ → ℕ → (ℕ × ℕ) };

    // How many bits of memory one word needs; a mesh keeps a word for each port and domain.
    fn memory_bits(&self) -> u32
        ensures { result ≡ bits self.now };

    // The winner among the sides, or 5 where the set is empty or has a side above 4; and the next word.
    // Bare numbers, with 5 in the place of a None: this is the fixed form in which the project hands sides to an arbiter.
    fn choose(&self, word: u32, sides: u8) -> (u8, u32)
        ensures { result ≡ meaning self.now word sides };

    ghost arbitrates: { (a : Self) → Arbitrates (bits a) (meaning a) };
}
