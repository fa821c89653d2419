// What one step of a run does, in words.
ghost use Rattle.std.specs.Prelude.{◌≡◌};
ghost use Rattle.std.specs.List.{list_any};
ghost use Rattle.machines.specs.Queues.{is_to};

use crate::spelling::Spelled;
use listing::code::{Instruction, Operand, Register, Variable};
use machines::picture::Shown;
use machines::queue::Queue;
use std::io;
use std::io::Write;

// A step that does an instruction: what a picture shows of its thread before and after it, and memory after it.
#[derive(Clone, Copy)]
pub(crate) struct Change<'a> {
    pub instruction: Instruction<u8>,
    pub before: &'a Shown,
    pub after: &'a Shown,
    pub memory: &'a [u8; 8],
}

impl Change<'_> {
    // What an instruction does where no write waits.
    pub(crate) fn put(&self, out: &mut Vec<u8>) -> io::Result<()> {
        let spelled = Spelled(self.instruction);
        match self.instruction {
            Instruction::Store(variable, _) => {
                write!(
                    out,
                    "{spelled}: {} is {}",
                    Spelled(variable),
                    self.word(variable)
                )
            }
            Instruction::Load(register, _) => {
                write!(
                    out,
                    "{spelled} reads {} from memory",
                    self.after.register(register)
                )
            }
            Instruction::Set(register, _) | Instruction::Add(register, _) => {
                write!(out, "{spelled}: ")?;
                self.put_register(register, out)
            }
            Instruction::Cas(register, variable, _, _) => self.put_cas(register, variable, out),
            Instruction::Fence => write!(out, "{spelled} passes"),
            Instruction::Jump(to) => write!(out, "{spelled} goes to {to}"),
            Instruction::JumpIfEqual(register, operand, to) => {
                self.put_jump(self.equal(register, operand), to, out)
            }
            Instruction::JumpUnlessEqual(register, operand, to) => {
                self.put_jump(!self.equal(register, operand), to, out)
            }
        }
    }

    // What an instruction does where writes wait in the queue of its thread.
    pub(crate) fn put_queued(&self, queue: &Queue, out: &mut Vec<u8>) -> io::Result<()> {
        let spelled = Spelled(self.instruction);
        match self.instruction {
            Instruction::Store(_, operand) => {
                write!(out, "{spelled}")?;
                self.put_operand(operand, out)?;
                out.write_all(b" waits in its queue")
            }
            Instruction::Load(register, variable) if holds_write(queue, variable) => {
                let value = self.after.register(register);
                write!(out, "{spelled} reads {value} from its own queue")
            }
            Instruction::Fence => write!(out, "{spelled} passes: its queue is empty"),
            _ => self.put(out),
        }
    }

    // What memory holds after the step.
    fn word(&self, variable: Variable) -> u8 {
        self.memory[variable.number()]
    }

    // Whether the register holds what the operand is, before the step.
    fn equal(&self, register: Register, operand: Operand<u8>) -> bool {
        self.before.register(register) == self.before.value(operand)
    }

    fn put_register(&self, register: Register, out: &mut Vec<u8>) -> io::Result<()> {
        write!(
            out,
            "{} is {}",
            Spelled(register),
            self.after.register(register)
        )
    }

    // The value that a register stands for.
    fn put_operand(&self, operand: Operand<u8>, out: &mut Vec<u8>) -> io::Result<()> {
        match operand {
            Operand::Value(_) => Ok(()),
            Operand::Register(_) => write!(out, ", which is {},", self.before.value(operand)),
        }
    }

    fn put_cas(&self, register: Register, variable: Variable, out: &mut Vec<u8>) -> io::Result<()> {
        let outcome = if self.after.register(register) == 1 {
            "succeeds"
        } else {
            "fails"
        };
        write!(out, "{} {outcome}: ", Spelled(self.instruction))?;
        write!(out, "{} is {}, ", Spelled(variable), self.word(variable))?;
        self.put_register(register, out)
    }

    fn put_jump(&self, taken: bool, to: u8, out: &mut Vec<u8>) -> io::Result<()> {
        write!(out, "{} ", Spelled(self.instruction))?;
        if taken {
            write!(out, "goes to {to}")
        } else {
            write!(out, "moves on to {}", self.after.at)
        }
    }
}

// Whether a write to the variable waits: then what is read of it does not depend on memory.
#[tactic(auto, using(crate::proofs::Newest::depends_on_memory))]
fn holds_write(queue: &Queue, variable: Variable) -> bool
    ensures { result ≡ list_any (is_to variable) queue.now }
{
    queue.read(variable, 0) == queue.read(variable, 1)
}

// What a drain does: the oldest write of the queue before it reaches memory.
pub(crate) fn put_drain(queue: &Queue, out: &mut Vec<u8>) -> io::Result<()> {
    let mut queue = *queue;
    match queue.shift() {
        Some(oldest) => {
            let variable = Spelled(oldest.variable);
            write!(
                out,
                "the write of {} to {variable} reaches memory",
                oldest.value
            )
        }
        None => Ok(()),
    }
}
