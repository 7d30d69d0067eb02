ghost use Rattle.std.specs.Prelude.{◌≡◌, ℕ, ◌<◌, true, List, length, is_some, ◌==◌};
ghost use Rattle.std.specs.Iterator.{YieldsFirstBy, at_most};
ghost use Rattle.std.specs.Option.{SomeIff, option_map};
ghost use Rattle.frames.specs.Lines.{line_feed, feed_place, after_line, first_line, lines_left, unread, line_value, Whole, Walked};

pub const LINE_FEED: u8 = 10;

// A line of the input without its line feed. No Result: a line that nothing ends is no error here, and its reader has the text too.
#[derive(Clone, Copy, Debug, PartialEq, Eq)]
pub enum Line<'a> {
    Ended(&'a [u8]),
    // bytes after the last line feed
    Unended(&'a [u8]),
}

// Hands out the lines of a block of bytes, first to last.
#[derive(Drop)]
pub struct Lines<'a> {
    rest: &'a [u8],
}

fn ends_line(byte: u8) -> bool
    ensures { result ≡ (byte == line_feed) }
{
    byte == LINE_FEED
}

// Where the first line feed stands.
fn feed_place(block: &[u8]) -> Option<usize>
    ensures { SomeIff result (feed_place block.now < length block.now) (feed_place block.now) }
{
    block.iter().position(|byte| ends_line(*byte))
}

// The first line of a block, and what follows it.
#[tactic(auto, using(crate::proofs::Blocks::line_ended, crate::proofs::Blocks::first_unended, std::proofs::lemmas::List::take_rest))]
fn cut_line<'a>(block: &'a [u8]) -> (Option<Line<'a>>, &'a [u8])
    ensures line { option_map line_value result.0 ≡ first_line block.now }
    ensures left { result.1.now ≡ after_line block.now }
    ensures shorter { is_some result.0 ≡ true → length result.1.now < length block.now }
{
    match feed_place(block) {
        Some(place) => (Some(Line::Ended(&block[..place])), &block[place + 1..]),
        None if block.is_empty() => (None, block),
        None => (Some(Line::Unended(block)), &[]),
    }
}

impl<'a> Lines<'a> {
    #[tactic(auto, using(crate::proofs::Blocks::whole, crate::proofs::Blocks::walked))]
    pub fn new(block: &'a [u8]) -> Lines<'a>
        ensures unread { unread result ≡ block.now }
        ensures whole { Whole block.now }
        ensures walked { (left : List ℕ) → Walked left }
    {
        Lines { rest: block }
    }

    // The next line; none where no byte is left.
    pub fn next_line(&mut self) -> Option<Line<'a>>
        ensures line { option_map line_value result ≡ first_line (unread self.old) }
        ensures left { unread self.new ≡ after_line (unread self.old) }
        ensures shorter { is_some result ≡ true → length (unread self.new) < length (unread self.old) }
    {
        let (line, left) = cut_line(self.rest);
        self.rest = left;
        line
    }
}

impl<'a> Iterator for Lines<'a> {
    type Item = Line<'a>;

    ghost next_gives = { YieldsFirstBy line_value lines_left };

    // a line has at least one byte, or the line feed behind it
    ghost remaining = { λ lines. at_most (length (unread lines)) };

    #[tactic(auto, using(crate::proofs::Blocks::handed_out))]
    fn next(&mut self) -> Option<Line<'a>> {
        self.next_line()
    }
}
