// The words of a line, and the numbers among them.
ghost use Rattle.std.specs.Prelude.{◌≡◌, ◌^◌, ◌<◌, ◌≤◌, IfOk, IfSome, map};
ghost use Rattle.session.specs.Words.{Trims, number_of, words};

use std::alloc::{AllocError, Global};

/// The words of a line, parted by one or more spaces.
pub fn words_of(alloc: Global, line: &[u8]) -> Result<Vec<&[u8]>, AllocError>
    ensures { IfOk result (λ v. map (λ w. w.now) v.items ≡ words line.now) }
{
    line.split(|byte| *byte == b' ')
        .filter(|word| !word.is_empty())
        .collect(alloc)
}

/// The bytes without the spaces before and after them.
pub fn trimmed(bytes: &[u8]) -> &[u8]
    ensures { Trims bytes.now result.now }
{
    let mut start = 0;
    while start < bytes.len() && bytes[start] == b' ' {
        start += 1;
    }
    let mut end = bytes.len();
    while start < end && bytes[end - 1] == b' ' {
        end -= 1;
    }
    &bytes[start..end]
}

/// The number that is written in digits alone, none where it is more than the most.
pub fn number(word: &[u8], most: u32) -> Option<u32>
    requires { most < 2 ^ 20 }
    ensures value { result ≡ number_of most word.now }
    ensures limit { IfSome result (λ value. value ≤ most) }
{
    if word.is_empty() {
        return None;
    }
    let mut value = 0;
    for digit in word {
        if !digit.is_ascii_digit() {
            return None;
        }
        value = value * 10 + u32::from(*digit - b'0');
        if value > most {
            return None;
        }
    }
    Some(value)
}
