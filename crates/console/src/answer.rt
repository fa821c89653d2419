// The whole of what the console prints for a text.
ghost use Rattle.std.specs.Prelude.{◌≡◌, ◌≤◌, length, IfOk, MatchResult};
ghost use Rattle.search.specs.Enough.{rows_lent};
ghost use Rattle.job.specs.Calls.{SameMemory};
ghost use Rattle.console.specs.Prints.{answered, report_or_refusal, reported};

use job::call::{Answer, Call, Memory};
use job::job::Job;
use job::lines::refusal_line;
use listing::refusal::Refusal;
use machines::buffered::Buffered;
use machines::standing::Standing;

// Reads, solves and reports.
fn report(text: &[u8], memory: &mut Memory<'_, Standing>) -> Result<usize, Refusal>
    requires { 512 ≤ length memory.old.out.now }
    ensures value { (result, memory.new.out.now) ≡
        reported (report_or_refusal text.now (rows_lent memory.old.rows.now memory.old.notes.now)) memory.old.out.now }
    ensures limit { IfOk result (λ n. n ≤ 512) }
    ensures same_memory { SameMemory memory.old memory.new }
{
    let mut job = Job::<Buffered>::new();
    job.call(Call::Read(text), memory)?;
    job.call(Call::Solve, memory)?;
    let Answer::Reported(length) = job.call(Call::Report, memory)? else {
        unreachable!()
    };
    Ok(length)
}

/// The length of the report, or else of the line of the first refusal.
pub fn answer(text: &[u8], memory: &mut Memory<'_, Standing>) -> Result<usize, usize>
    requires { 512 ≤ length memory.old.out.now }
    ensures limit { MatchResult result (λ n. n ≤ 512) (λ n. n ≤ 512) }
    ensures value { (result, memory.new.out.now) ≡
        answered (report_or_refusal text.now (rows_lent memory.old.rows.now memory.old.notes.now)) memory.old.out.now }
{
    // By `map_err` it is left open what the closure wrote into the buffer.
    match report(text, memory) {
        Ok(length) => Ok(length),
        Err(refusal) => Err(refusal_line(refusal, memory.out).unwrap()),
    }
}
