// Instructions as a listing spells them.
ghost use Rattle.std.specs.Prelude.{Some};
ghost use Rattle.listing.specs.Names.{register_word, variable_word};
ghost use Rattle.session.specs.Spelled.{instruction_text, operand_text};

use listing::code::{Instruction, Operand, Register, Variable};
use std::fmt;

// Prints what it holds as a listing spells it.
#[derive(Clone, Copy)]
pub(crate) struct Spelled<T>(pub T);

impl fmt::Display for Spelled<Variable> {
    ghost output = { λ s. Some (variable_word s.0) };

    fn fmt<W: fmt::Write>(&self, f: &mut fmt::Formatter<W>) -> fmt::Result {
        let letter = match self.0 {
            Variable::A => "a",
            Variable::B => "b",
            Variable::C => "c",
            Variable::D => "d",
            Variable::E => "e",
            Variable::F => "f",
            Variable::G => "g",
            Variable::H => "h",
        };
        f.write_str(letter)
    }
}

impl fmt::Display for Spelled<Register> {
    ghost output = { λ s. Some (register_word s.0) };

    fn fmt<W: fmt::Write>(&self, f: &mut fmt::Formatter<W>) -> fmt::Result {
        let name = match self.0 {
            Register::R0 => "r0",
            Register::R1 => "r1",
            Register::R2 => "r2",
            Register::R3 => "r3",
        };
        f.write_str(name)
    }
}

impl fmt::Display for Spelled<Operand<u8>> {
    ghost output = { λ s. Some (operand_text s.0) };

    fn fmt<W: fmt::Write>(&self, f: &mut fmt::Formatter<W>) -> fmt::Result {
        match self.0 {
            Operand::Value(value) => write!(f, "{value}"),
            Operand::Register(register) => Spelled(register).fmt(f),
        }
    }
}

impl fmt::Display for Spelled<Instruction<u8>> {
    ghost output = { λ s. Some (instruction_text s.0) };

    fn fmt<W: fmt::Write>(&self, f: &mut fmt::Formatter<W>) -> fmt::Result {
        match self.0 {
            Instruction::Store(variable, operand) => {
                write!(f, "store {} {}", Spelled(variable), Spelled(operand))
            }
            Instruction::Load(register, variable) => {
                write!(f, "load {} {}", Spelled(register), Spelled(variable))
            }
            Instruction::Set(register, operand) => {
                write!(f, "set {} {}", Spelled(register), Spelled(operand))
            }
            Instruction::Add(register, operand) => {
                write!(f, "add {} {}", Spelled(register), Spelled(operand))
            }
            Instruction::Cas(register, variable, expected, new) => {
                write!(f, "cas {} {} ", Spelled(register), Spelled(variable))?;
                write!(f, "{} {}", Spelled(expected), Spelled(new))
            }
            Instruction::Fence => f.write_str("fence"),
            Instruction::Jump(to) => write!(f, "jump {to}"),
            Instruction::JumpIfEqual(register, operand, to) => {
                write!(f, "jeq {} {} {to}", Spelled(register), Spelled(operand))
            }
            Instruction::JumpUnlessEqual(register, operand, to) => {
                write!(f, "jne {} {} {to}", Spelled(register), Spelled(operand))
            }
        }
    }
}
