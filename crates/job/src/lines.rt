// The lines that a job writes into a lent buffer, put together in fixed memory first. That a length is at most 512 stays a
// clause: a type for it would ask callers of `refusal_line` to take it apart.
ghost use Rattle.std.specs.Prelude.{◌≡◌, ℕ, ◌+◌, ◌<◌, ◌≤◌, ◌++◌, length, if◌then◌else◌, nat_lt, Ok, Err, MatchResult};
ghost use Rattle.listing.specs.declared.refusal.Reason.TheVariants.{BufferTooShort};
ghost use Rattle.arrayvec.specs.ArrayString.{array_string_len};
ghost use Rattle.listing.specs.Reasons.{number_of};
ghost use Rattle.job.specs.Lent.{after_line};
ghost use Rattle.job.specs.Text.{placed, before, report, refusal};

use crate::solution::Solution;
use crate::text::put;
use arrayvec::ArrayString;
use itoa::Buffer;
use listing::program::Program;
use listing::refusal::{Reason, Refusal};

// No line or report needs more bytes than this.
const LEAST_BUFFER: usize = 512;

// Refuses a buffer in which a line or a report may find no room.
pub(crate) fn long_enough(out: &[u8]) -> Result<(), Refusal>
    ensures { result ≡ (if nat_lt (length out.now) 512 then Err (record { reason = BufferTooShort; line = 0 }) else Ok tt) }
{
    if out.len() < LEAST_BUFFER {
        return Err(Reason::BufferTooShort.refusal());
    }
    Ok(())
}

// Writes the text at the start of the buffer, and answers its length.
fn put_text(text: ArrayString<512>, out: &mut [u8]) -> usize
    requires { 512 ≤ length out.old }
    ensures end { result ≡ length text.bytes }
    ensures after { out.new ≡ placed out.old 0 text.bytes }
    ensures limit { result ≤ 512 }
{
    put(out, 0, text.as_str().as_bytes())
}

/// Writes `refused`, the number, `line`, the line, and answers the length. Refused by 16 where the buffer has fewer than 512
/// bytes, which is left as it was.
pub fn refusal_line(refused: Refusal, out: &mut [u8]) -> Result<usize, Refusal>
    ensures value { (result, out.new) ≡ after_line refused out.old }
    ensures limit { MatchResult result (λ n. n ≤ 512) (λ _. length out.old < 512) }
{
    long_enough(out)?;
    Ok(put_text(refusal_text(refused), out))
}

// The report of a kept placement.
pub(crate) fn put_report(out: &mut [u8], program: &Program, kept: Solution) -> usize
    requires room { 512 ≤ length out.old }
    requires few { kept.fences ≤ 32 }
    ensures end { result ≡ length (report program.now kept) }
    ensures after { out.new ≡ placed out.old 0 (report program.now kept) }
    ensures limit { result ≤ 512 }
{
    put_text(report_text(program, kept), out)
}

// Each text is appended by a call that cannot fail: by its contract `write!` may fail even where there is room.
fn refusal_text(refused: Refusal) -> ArrayString<512>
    ensures { result.bytes ≡ refusal (number_of refused.reason) refused.line }
{
    let mut text = ArrayString::new();
    let mut digits = Buffer::new();
    text.push_str("refused ");
    text.push_str(digits.format(refused.reason.number()));
    text.push_str(" line ");
    text.push_str(digits.format(refused.line));
    text.push_str("\n");
    text
}

// Appends the line that names a place: its thread, and its number within it.
fn push_before(text: &mut ArrayString<512>, program: &Program, place: u8)
    requires room { array_string_len text.old + 15 ≤ 512 }
    requires place_bound { place < 32 }
    ensures after { text.new.bytes ≡ text.old.bytes ++ before program.now place }
    ensures limit { array_string_len text.new ≤ array_string_len text.old + 15 }
{
    let thread = program.thread_at(place);
    let number = place - program.first_place(thread);
    let mut digits = Buffer::new();
    text.push_str("before ");
    text.push_str(digits.format(thread));
    text.push_str(" ");
    text.push_str(digits.format(number));
    text.push_str("\n");
}

// `fences` and their count, then a line for each place.
fn report_text(program: &Program, kept: Solution) -> ArrayString<512>
    requires { kept.fences ≤ 32 }
    ensures { result.bytes ≡ report program.now kept }
{
    let mut text = ArrayString::new();
    text.push_str("fences ");
    text.push_str(Buffer::new().format(kept.fences));
    text.push_str("\n");
    for place in kept.places {
        push_before(&mut text, program, place);
    }
    text
}
