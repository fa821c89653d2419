// What a session prints that needs no job: refusals, lines that are no command, files that cannot be read, and help.
ghost use Rattle.std.specs.Prelude.{◌≡◌, ◌++◌, IfOk, OnOk, codes};
ghost use Rattle.listing.specs.Reasons.{number_of};
ghost use Rattle.job.specs.Text.{refusal as refusal_bytes};
ghost use Rattle.session.specs.Replies.{status_of, both, spot_line};

use crate::command::Spot;
use job::lines::refusal_line;
use listing::refusal::Refusal;
use std::io;
use std::io::Write;

/// How a command ended.
#[derive(Clone, Copy, PartialEq, Eq)]
pub enum Outcome {
    Granted,
    // It was refused, or was no command, or its file could not be read.
    Declined,
}

impl Outcome {
    /// How two commands ended, of which both are to be granted.
    pub fn and(self, other: Outcome) -> Outcome
        ensures { result ≡ both self other }
    {
        match self {
            Outcome::Granted => other,
            Outcome::Declined => Outcome::Declined,
        }
    }

    /// The status with which a process ends.
    pub fn status(self) -> u8
        ensures { result ≡ status_of self }
    {
        match self {
            Outcome::Granted => 0,
            Outcome::Declined => 1,
        }
    }
}

// The line of a refusal, as a job writes it.
#[tactic(auto, using(crate::proofs::Placed::written_first))]
pub(crate) fn put_refusal(refusal: Refusal, out: &mut Vec<u8>) -> io::Result<Outcome>
    ensures outcome { IfOk result (λ outcome. outcome ≡ Outcome.Declined) }
    ensures line { OnOk result
        (out.new.items ≡ out.old.items ++ refusal_bytes (number_of refusal.reason) refusal.line) }
{
    let mut line = [0; 512];
    let length = refusal_line(refusal, &mut line).unwrap();
    out.write_all(&line[..length])?;
    Ok(Outcome::Declined)
}

/// The line as it came, which may be no text.
pub fn put_no_command(line: &[u8], out: &mut Vec<u8>) -> io::Result<Outcome>
    ensures outcome { IfOk result (λ outcome. outcome ≡ Outcome.Declined) }
    ensures line { OnOk result
        (out.new.items ≡ out.old.items ++ codes "no such command: " ++ line.now ++ codes "\n") }
{
    out.write_all(b"no such command: ")?;
    out.write_all(line)?;
    out.write_all(b"\n")?;
    Ok(Outcome::Declined)
}

/// The path as it came, and why.
pub fn put_unread(path: &[u8], error: io::Error, out: &mut Vec<u8>) -> io::Result<Outcome>
    ensures { IfOk result (λ outcome. outcome ≡ Outcome.Declined) }
{
    out.write_all(b"cannot read ")?;
    out.write_all(path)?;
    writeln!(out, ": {error}")?;
    Ok(Outcome::Declined)
}

// A word and the instruction that it is said of.
pub(crate) fn put_spot(word: &str, spot: Spot, out: &mut Vec<u8>) -> io::Result<()>
    ensures { OnOk result (out.new.items ≡ out.old.items ++ spot_line word.now spot) }
{
    writeln!(out, "{word} {} {}", spot.thread, spot.number)
}

const COMMANDS: &str = "\
board tso|none    a new job, for the board with write queues or for the one without
rows N            rows of search memory, and the length of the run list, 0 to 65536
runs N            the length of the run list alone, 0 to 65536
read PATH         reads a listing from a file
listing           reads a listing from the lines that follow, up to a line `end`
bar T I           bars the place before instruction I of thread T
free T I          frees a barred place
solve             finds the fewest fences, keeps them and prints the report
report            prints the report of the kept placement
test T I T I ..   whether fences at these places are enough, or else a fault run
show T I          a fault run that this kept fence alone keeps out
plain             whether the board without queues is free of faults, or else a fault run
look              prints the bars and the kept placement
help              prints these lines
quit              ends the session
";

pub(crate) fn put_help(out: &mut Vec<u8>) -> io::Result<()> {
    out.write_all(COMMANDS.as_bytes())
}
