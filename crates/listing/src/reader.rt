// From a text to the program that is written in it.
ghost use Rattle.std.specs.Prelude.{◌≡◌, ◌<◌, ◌≤◌, true, length, IfErr, MatchResult};
ghost use Rattle.listing.specs.declared.refusal.Reason.TheVariants.{TextTooLong};
ghost use Rattle.listing.specs.Code.{code_of};
ghost use Rattle.listing.specs.Drafts.{Adds, progress_of};
ghost use Rattle.listing.specs.Laws.{Exactly, FirstWrong, OneOrOther};
ghost use Rattle.listing.specs.Lines.{Declined, Refused, of_reading};
ghost use Rattle.listing.specs.Reading.{line as line_rules, reading, told};

use crate::draft::Draft;
use crate::lexer::{first_line, words_of};
use crate::program::Program;
use crate::refusal::{Reason, Refusal};
use limits::short_enough;

fn read_line(draft: &mut Draft, bytes: &[u8], line: u16) -> Result<(), Refusal>
    ensures declined { IfErr result (Declined line) }
    ensures adds { Adds (line_rules (progress_of draft.old) line bytes.now) draft.new result }
{
    draft.add_words(words_of(bytes, line)?)
}

// The program that a text holds, or the first thing wrong with it.
pub fn read(text: &[u8]) -> Result<Program, Refusal>
    ensures length { MatchResult result (λ _. length text.now ≤ 4096) (λ e. 4096 < length text.now → Refused TextTooLong 0 e) }
    ensures reason { IfErr result (λ e. of_reading e.reason ≡ true) }
    ensures value { told code_of result ≡ reading text.now }
    ensures exactly { Exactly text.now (told code_of result) }
    ensures first_wrong { FirstWrong text.now (told code_of result) }
    ensures one_or_other { OneOrOther text.now (told code_of result) }
{
    if !short_enough(text.len()) {
        return Err(Reason::TextTooLong.refusal());
    }
    let mut draft = Draft::new();
    let mut rest = text;
    let mut line = 0;
    // By `first_line`, whose promise stands apart: `split_inclusive` leaves each line end in its line, and counts no lines.
    while !rest.is_empty() {
        let (bytes, after) = first_line(rest);
        line += 1;
        read_line(&mut draft, bytes, line)?;
        rest = after;
    }
    draft.finish()
}
