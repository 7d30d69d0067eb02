ghost use Rattle.std.specs.Prelude.{◌≡◌, ◌+◌, ◌*◌, ◌^◌, ◌<◌, ◌≤◌, true, [], ◌∷◌, ◌++◌, length, IfSome, is_ok, IfOk, if◌then◌else◌, Some, vec_items, vec_len, vec_capacity};
ghost use Rattle.std.specs.Option.{SomeIff, option_map};
ghost use Rattle.frames.specs.Hex.{OneSpelling, bytes_of, digit, digit_value, hex_line, paired};

use super::lines::LINE_FEED;
use std::alloc::{AllocError, Global};

const DIGITS: &[u8; 16] = b"0123456789abcdef";

fn digit_of(value: u8) -> u8
    requires { value < 16 }
    ensures { result ≡ digit value }
{
    DIGITS[value as usize]
}

fn value_of(character: u8) -> Option<u8>
    ensures value { result ≡ digit_value character }
    ensures small { IfSome result (λ value. value < 16) }
{
    match character {
        b'0'..=b'9' => Some(character - b'0'),
        b'a'..=b'f' => Some(character - b'a' + 10),
        _ => None,
    }
}

fn byte_of(high: u8, low: u8) -> Option<u8>
    ensures { option_map (λ byte. byte ∷ []) result ≡ paired (digit_value high) (digit_value low) (Some []) }
{
    Some(value_of(high)? * 16 + value_of(low)?)
}

// The bytes that a line's text spells, where it is pairs of lowercase hexadecimal digits.
#[tactic(auto, using(crate::proofs::Digits::bytes_back, crate::proofs::Digits::text_back))]
pub fn from_hex(heap: Global, line: &[u8]) -> Result<Option<Vec<u8>>, AllocError>
    ensures bytes { IfOk result (λ bytes. option_map vec_items bytes ≡ bytes_of line.now) }
    ensures spelling { OneSpelling }
{
    let mut bytes = Vec::new(heap);
    let mut rest = line;
    while let [high, low, after @ ..] = rest {
        let Some(byte) = byte_of(*high, *low) else {
            return Ok(None);
        };
        bytes.push(byte)?;
        rest = after;
    }
    if rest.is_empty() {
        Ok(Some(bytes))
    } else {
        Ok(None)
    }
}

// How many characters a line has: two for each byte, and the line feed.
fn line_length(bytes: &[u8]) -> Option<usize>
    ensures { SomeIff result (length bytes.now * 2 + 1 < 2 ^ 64) (length bytes.now * 2 + 1) }
{
    bytes.len().checked_mul(2)?.checked_add(1)
}

// Appends the line that spells the bytes; for want of memory nothing is appended.
#[tactic(auto, using(crate::proofs::Digits::bytes_back, crate::proofs::Digits::text_back))]
pub fn append_line(out: &mut Vec<u8>, bytes: &[u8]) -> Result<(), AllocError>
    ensures line { out.new.items ≡ out.old.items ++ (if is_ok result then hex_line bytes.now else []) }
    ensures succeeds { vec_len out.old + length (hex_line bytes.now) ≤ vec_capacity out.old → is_ok result ≡ true }
    ensures spelling { OneSpelling }
{
    let Some(length) = line_length(bytes) else {
        return Err(AllocError);
    };
    out.reserve(length)?;
    for byte in bytes {
        out.push_reserved(digit_of(*byte / 16));
        out.push_reserved(digit_of(*byte % 16));
    }
    out.push_reserved(LINE_FEED);
    Ok(())
}
