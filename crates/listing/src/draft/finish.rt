// What is looked at once all lines are read: that nothing is missing, and that what is named is there.
ghost use Rattle.std.specs.Prelude.{◌≡◌, true, not, Bool, IfErr};
ghost use Rattle.std.specs.Fn.{FnReturnsAt};
ghost use Rattle.listing.specs.declared.refusal.Reason.TheVariants.{Missing, TargetMissing};
ghost use Rattle.listing.specs.Code.{code_of};
ghost use Rattle.listing.specs.Drafts.{Checks, progress_of};
ghost use Rattle.listing.specs.Limits.{all, condition_there, jump_within};
ghost use Rattle.listing.specs.Lines.{of_reading};
ghost use Rattle.listing.specs.Reading.{finished, first_failing, jump_failing, some, told};

use crate::code::{Condition, FaultLine, Instruction};
use crate::draft::Draft;
use crate::program::Program;
use crate::refusal::{Reason, Refusal};

// Looks at parts with their lines, and answers the refusal of the first part that does not pass the test.
fn check<T, F: Fn(&T) -> bool>(
    parts: &[T],
    lines: &[u16],
    reason: Reason,
    passes: F,
) -> Result<(), Refusal>
    requires { F.IsAlwaysCallable passes }
    ensures { (test : T → Bool) → ((part : T) (b : Bool) → FnReturnsAt F.Fn passes part b → b ≡ test part) → Checks (first_failing test lines.now parts.now) reason result }
{
    for (part, line) in parts.iter().zip(lines) {
        if !passes(part) {
            return Err(reason.at(*line));
        }
    }
    Ok(())
}

fn jump_fits(instruction: Instruction<u8>, length: usize) -> bool
    ensures { result ≡ jump_within length instruction }
{
    match instruction {
        Instruction::Jump(n)
        | Instruction::JumpIfEqual(_, _, n)
        | Instruction::JumpUnlessEqual(_, _, n) => usize::from(n) <= length,
        _ => true,
    }
}

impl Draft {
    fn check_threads_used(&self) -> Result<(), Refusal>
        ensures { Checks (first_failing some self.now.thread_lines self.now.threads) Missing result }
    {
        check(
            self.threads.as_slice(),
            self.thread_lines.as_slice(),
            Reason::Missing,
            |code| !code.is_empty(),
        )
    }

    fn check_jumps(&self) -> Result<(), Refusal>
        ensures { Checks (jump_failing self.now.instruction_lines self.now.threads) TargetMissing result }
    {
        let threads = self.threads.as_slice();
        for (code, lines) in threads.iter().zip(self.instruction_lines.as_slice()) {
            check(
                code.as_slice(),
                lines.as_slice(),
                Reason::TargetMissing,
                |instruction| jump_fits(*instruction, code.len()),
            )?;
        }
        Ok(())
    }

    fn condition_fits(&self, condition: Condition<u8>) -> bool
        ensures { result ≡ condition_there self.now.threads condition }
    {
        match condition {
            Condition::At(thread, place) => self
                .threads
                .get(usize::from(thread))
                .is_some_and(|code| usize::from(place) <= code.len()),
            Condition::Holds(thread, _, _) => usize::from(thread) < self.threads.len(),
            Condition::Memory(_, _) => true,
        }
    }

    fn line_fits(&self, fault: &FaultLine) -> bool
        ensures { result ≡ all (condition_there self.now.threads) fault.now }
    {
        fault
            .as_slice()
            .iter()
            .all(|condition| self.condition_fits(*condition))
    }

    fn check_faults(&self) -> Result<(), Refusal>
        ensures { Checks (first_failing (all (condition_there self.now.threads)) self.now.fault_lines self.now.faults) TargetMissing result }
    {
        check(
            self.faults.as_slice(),
            self.fault_lines.as_slice(),
            Reason::TargetMissing,
            |fault| self.line_fits(fault),
        )
    }

    // The program, if nothing is missing and each thread and place that it names is there.
    pub fn finish(&self) -> Result<Program, Refusal>
        ensures reason { IfErr result (λ e. of_reading e.reason ≡ true) }
        ensures value { told code_of result ≡ finished (progress_of self.now) }
    {
        self.check_threads_used()?;
        let bound = self.bound.ok_or(Reason::Missing.refusal())?;
        if self.threads.is_empty() || self.faults.is_empty() {
            return Err(Reason::Missing.refusal());
        }
        self.check_jumps()?;
        self.check_faults()?;
        Ok(Program {
            bound,
            threads: self.threads,
            faults: self.faults,
        })
    }
}
