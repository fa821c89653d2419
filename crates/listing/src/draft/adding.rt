// What a line adds to a draft, if it may stand there and there is room for it. The number of the line is handed beside each
// part: a struct of the two would be made and taken apart at each call. The clause `declined` says apart what `adds` implies
// of a refusal: what stands above wants only that much.
ghost use Rattle.std.specs.Prelude.{◌≡◌, ◌<◌, true, IfErr, length};
ghost use Rattle.listing.specs.Drafts.{Adds, progress_of};
ghost use Rattle.listing.specs.Forms.{means, thread_line, instruction_line, fault_line as fault_says};
ghost use Rattle.listing.specs.Lines.{Declined, stands_on};
ghost use Rattle.listing.specs.Limits.{fault_fits};
ghost use Rattle.listing.specs.Reading.{nothing, held, standing, worded, bound_stands, thread_stands, instruction_stands, fault_stands};
ghost use Rattle.listing.specs.Taking.{bound_read, fault_read, left, line_read, line_stands, written_read};
ghost use Rattle.listing.specs.Values.{instruction_fits};

use crate::code::{FaultLine, Instruction, ThreadCode, together};
use crate::draft::Draft;
use crate::lexer::{Token, Words};
use crate::lines::{Line, WrittenInstruction, bound, fault_line, instruction};
use crate::refusal::{Reason, Refusal};
use few::Few;
use limits::MOST_INSTRUCTIONS;

impl Draft {
    pub fn new() -> Draft
        ensures { progress_of result ≡ nothing }
    {
        Draft {
            bound: None,
            threads: Few::new(),
            faults: Few::new(),
            thread_lines: Few::new(),
            instruction_lines: Few::new(),
            fault_lines: Few::new(),
        }
    }

    // Adds a thread without instructions.
    fn push_thread(&mut self, line: u16) -> Result<(), Refusal>
        ensures declined { IfErr result (Declined line) }
        ensures adds { Adds (held (progress_of self.old) line (means thread_line)) self.new result }
    {
        if self.threads.is_full() {
            return Err(Reason::TooMany.at(line));
        }
        self.threads.push(ThreadCode::new());
        self.thread_lines.push(line);
        self.instruction_lines.push(Few::new());
        Ok(())
    }

    // Adds an instruction to the last thread.
    fn push_instruction(&mut self, instruction: Instruction<u8>, line: u16) -> Result<(), Refusal>
        requires some { 0 < length self.old.threads }
        requires value { instruction_fits instruction ≡ true }
        ensures declined { IfErr result (Declined line) }
        ensures adds { Adds (held (progress_of self.old) line (means (instruction_line instruction))) self.new result }
    {
        let last = self.threads.len() - 1;
        let mut code = self.threads.as_slice()[last];
        if code.is_full() || together(self.threads.as_slice()) >= MOST_INSTRUCTIONS {
            return Err(Reason::TooMany.at(line));
        }
        code.push(instruction);
        let mut lines = self.instruction_lines.as_slice()[last];
        lines.push(line);
        self.threads.replace_last(code);
        self.instruction_lines.replace_last(lines);
        Ok(())
    }

    fn push_fault(&mut self, fault: FaultLine, line: u16) -> Result<(), Refusal>
        requires { fault_fits fault ≡ true }
        ensures declined { IfErr result (Declined line) }
        ensures adds { Adds (held (progress_of self.old) line (means (fault_says fault))) self.new result }
    {
        if self.faults.is_full() {
            return Err(Reason::TooMany.at(line));
        }
        self.faults.push(fault);
        self.fault_lines.push(line);
        Ok(())
    }

    fn add_bound(&mut self, digits: &[u8], line: u16) -> Result<(), Refusal>
        ensures declined { IfErr result (Declined line) }
        ensures adds { Adds (standing (progress_of self.old) line (bound_stands (progress_of self.old)) (bound_read digits.entry)) self.new result }
    {
        if self.bound.is_some() {
            return Err(Reason::NoForm.at(line));
        }
        self.bound = Some(bound(digits, line)?);
        Ok(())
    }

    fn add_thread(&mut self, line: u16) -> Result<(), Refusal>
        ensures declined { IfErr result (Declined line) }
        ensures adds { Adds (standing (progress_of self.old) line (thread_stands (progress_of self.old)) (means thread_line)) self.new result }
    {
        if self.bound.is_none() || !self.faults.is_empty() {
            return Err(Reason::NoForm.at(line));
        }
        self.push_thread(line)
    }

    fn add_instruction(&mut self, written: WrittenInstruction<'_>, line: u16) -> Result<(), Refusal>
        ensures declined { IfErr result (Declined line) }
        ensures adds { Adds (standing (progress_of self.old) line (instruction_stands (progress_of self.old)) (written_read written.entry)) self.new result }
    {
        if self.threads.is_empty() || !self.faults.is_empty() {
            return Err(Reason::NoForm.at(line));
        }
        self.push_instruction(instruction(written, line)?, line)
    }

    // Refusals tell the line that is given; what is wrong with the words themselves is told by the line that they stand on.
    fn add_fault(&mut self, words: Words<'_>, line: u16) -> Result<(), Refusal>
        ensures declined { words.entry.line ≡ line → IfErr result (Declined line) }
        ensures adds { words.entry.line ≡ line → Adds (standing (progress_of self.old) line (fault_stands (progress_of self.old)) (fault_read words.entry)) self.new result }
    {
        if self.bound.is_none() {
            return Err(Reason::NoForm.at(line));
        }
        self.push_fault(fault_line(words)?, line)
    }

    // Adds what a line says, if it may stand here and there is room for it.
    pub fn add(&mut self, form: Line<'_>, line: u16) -> Result<(), Refusal>
        ensures declined { stands_on line form.entry → IfErr result (Declined line) }
        ensures adds { stands_on line form.entry → Adds (standing (progress_of self.old) line (line_stands (progress_of self.old) form.entry) (line_read form.entry)) self.new result }
    {
        match form {
            Line::Bound(digits) => self.add_bound(digits, line),
            Line::Thread => self.add_thread(line),
            Line::Instruction(written) => self.add_instruction(written, line),
            Line::Fault(words) => self.add_fault(words, line),
        }
    }

    // Adds what a line says by its words; a line without words says nothing.
    pub(crate) fn add_words(&mut self, mut words: Words<'_>) -> Result<(), Refusal>
        ensures declined { IfErr result (Declined words.entry.line) }
        ensures adds { Adds (worded (progress_of self.old) words.entry.line (left words.entry)) self.new result }
    {
        let Some(first) = words.next() else {
            return Ok(());
        };
        let line = words.line;
        // The words of a fault line are taken once: by its form they would be taken twice.
        if let Token::Word { bytes, .. } = first {
            if let b"fault" = bytes {
                return self.add_fault(words, line);
            }
        }
        self.add(words.form(first)?, line)
    }
}
