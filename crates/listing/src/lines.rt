// The words of a line, taken one by one by the form that its first word begins, and the values that its numbers have. A number
// out of its range is refused once all words of the line are taken, since a line without a form is refused for that. Some clauses
// say apart what the equation beside them implies: what stands above wants only that much of it.
ghost use Rattle.std.specs.Prelude.{◌≡◌, ℕ, ◌+◌, ◌<◌, ◌≤◌, true, [], ◌∷◌, ◌++◌, codes, IfOk, IfErr, IfSome, Some, MatchResult};
ghost use Rattle.listing.specs.declared.refusal.Reason.TheVariants.{NoForm, NumberOutOfRange};
ghost use Rattle.listing.specs.Forms.{called, fault, no_form, number as number_says, operand as operand_says, register as register_says, variable as variable_says};
ghost use Rattle.listing.specs.Limits.{all, fault_fits};
ghost use Rattle.listing.specs.Words.{is_digit};
ghost use Rattle.listing.specs.Lines.{Declined, Refused, stands_on};
ghost use Rattle.listing.specs.Names.{value_of, variable_of, register_of};
ghost use Rattle.listing.specs.Written.{decimal, NamesVariable, NamesRegister, operand_of, instruction_of, condition_of};
ghost use Rattle.listing.specs.Reading.{refusal, some};
ghost use Rattle.listing.specs.Taking.{Begins, Operands, Whole, mnemonic_word, FormedBy, Had, TookCondition, line_at, Valued, fitted, left, number_read, operand_read, instruction_read, condition_read};
ghost use Rattle.listing.specs.Values.{operand_fits, instruction_fits, condition_fits};

use crate::code::{Condition, FaultLine, Instruction, Operand, Register, Variable};
use crate::lexer::{Token, Words};
use crate::refusal::{Reason, Refusal};

// What is written: each number is the bytes of its digits.
pub type WrittenOperand<'a> = Operand<&'a [u8]>;

pub type WrittenInstruction<'a> = Instruction<&'a [u8]>;

pub type WrittenCondition<'a> = Condition<&'a [u8]>;

// What a line with words is; of a fault line, the words are its conditions.
#[derive(Clone, Copy)]
pub enum Line<'a> {
    Bound(&'a [u8]),
    Thread,
    Fault(Words<'a>),
    Instruction(WrittenInstruction<'a>),
}

// The first word of an instruction. A rule of the project: it is named first, by a byte pattern, and its operands are taken
// after.
#[derive(Clone, Copy)]
enum Mnemonic {
    Store,
    Load,
    Set,
    Add,
    Cas,
    Fence,
    Jump,
    JumpIfEqual,
    JumpUnlessEqual,
}

fn mnemonic_named(word: &[u8], line: u16) -> Result<Mnemonic, Refusal>
    ensures { Begins word.now line result }
{
    match word {
        b"store" => Ok(Mnemonic::Store),
        b"load" => Ok(Mnemonic::Load),
        b"set" => Ok(Mnemonic::Set),
        b"add" => Ok(Mnemonic::Add),
        b"cas" => Ok(Mnemonic::Cas),
        b"fence" => Ok(Mnemonic::Fence),
        b"jump" => Ok(Mnemonic::Jump),
        b"jeq" => Ok(Mnemonic::JumpIfEqual),
        b"jne" => Ok(Mnemonic::JumpUnlessEqual),
        _ => Err(Reason::NoForm.at(line)),
    }
}

fn variable_named(word: &[u8]) -> Option<Variable>
    ensures named { IfSome result (NamesVariable word.now) }
    ensures value { result ≡ variable_of word.now }
{
    match word {
        b"a" => Some(Variable::A),
        b"b" => Some(Variable::B),
        b"c" => Some(Variable::C),
        b"d" => Some(Variable::D),
        b"e" => Some(Variable::E),
        b"f" => Some(Variable::F),
        b"g" => Some(Variable::G),
        b"h" => Some(Variable::H),
        _ => None,
    }
}

fn register_named(word: &[u8]) -> Option<Register>
    ensures named { IfSome result (NamesRegister word.now) }
    ensures value { result ≡ register_of word.now }
{
    match word {
        [b'r', b'0'] => Some(Register::R0),
        [b'r', b'1'] => Some(Register::R1),
        [b'r', b'2'] => Some(Register::R2),
        [b'r', b'3'] => Some(Register::R3),
        _ => None,
    }
}

// A rule of the project: each operand is had by `let .. else`, with the refusal of its line on the other branch. There is no
// token in hand there, as the line may have ended, so the line is the one that the words stand on.
impl<'a> Words<'a> {
    fn variable(&mut self) -> Option<Variable>
        ensures { Had variable_says Some self.old self.new result }
    {
        let Token::Word { bytes, .. } = self.next()? else {
            return None;
        };
        variable_named(bytes)
    }

    fn register(&mut self) -> Option<Register>
        ensures { Had register_says Some self.old self.new result }
    {
        let Token::Word { bytes, .. } = self.next()? else {
            return None;
        };
        register_named(bytes)
    }

    pub(crate) fn digits(&mut self) -> Option<&'a [u8]>
        ensures { (low high : ℕ) → Had (number_says low high) (number_read low high) self.old self.new result }
    {
        let Token::Number { bytes, .. } = self.next()? else {
            return None;
        };
        Some(bytes)
    }

    fn operand(&mut self) -> Option<WrittenOperand<'a>>
        ensures { Had operand_says operand_read self.old self.new result }
    {
        match self.next()? {
            Token::Number { bytes, .. } => Some(Operand::Value(bytes)),
            Token::Word { bytes, .. } => {
                let Some(register) = register_named(bytes) else {
                    return None;
                };
                Some(Operand::Register(register))
            }
        }
    }

    fn store(&mut self) -> Result<WrittenInstruction<'a>, Refusal>
        ensures { Operands (codes "store") self.old self.new result }
    {
        let Some(variable) = self.variable() else {
            return Err(Reason::NoForm.at(self.line));
        };
        let Some(operand) = self.operand() else {
            return Err(Reason::NoForm.at(self.line));
        };
        Ok(Instruction::Store(variable, operand))
    }

    fn load(&mut self) -> Result<WrittenInstruction<'a>, Refusal>
        ensures { Operands (codes "load") self.old self.new result }
    {
        let Some(register) = self.register() else {
            return Err(Reason::NoForm.at(self.line));
        };
        let Some(variable) = self.variable() else {
            return Err(Reason::NoForm.at(self.line));
        };
        Ok(Instruction::Load(register, variable))
    }

    fn set(&mut self) -> Result<WrittenInstruction<'a>, Refusal>
        ensures { Operands (codes "set") self.old self.new result }
    {
        let Some(register) = self.register() else {
            return Err(Reason::NoForm.at(self.line));
        };
        let Some(operand) = self.operand() else {
            return Err(Reason::NoForm.at(self.line));
        };
        Ok(Instruction::Set(register, operand))
    }

    fn add(&mut self) -> Result<WrittenInstruction<'a>, Refusal>
        ensures { Operands (codes "add") self.old self.new result }
    {
        let Some(register) = self.register() else {
            return Err(Reason::NoForm.at(self.line));
        };
        let Some(operand) = self.operand() else {
            return Err(Reason::NoForm.at(self.line));
        };
        Ok(Instruction::Add(register, operand))
    }

    fn cas(&mut self) -> Result<WrittenInstruction<'a>, Refusal>
        ensures { Operands (codes "cas") self.old self.new result }
    {
        let Some(register) = self.register() else {
            return Err(Reason::NoForm.at(self.line));
        };
        let Some(variable) = self.variable() else {
            return Err(Reason::NoForm.at(self.line));
        };
        let Some(old) = self.operand() else {
            return Err(Reason::NoForm.at(self.line));
        };
        let Some(new) = self.operand() else {
            return Err(Reason::NoForm.at(self.line));
        };
        Ok(Instruction::Cas(register, variable, old, new))
    }

    fn jump(&mut self) -> Result<WrittenInstruction<'a>, Refusal>
        ensures { Operands (codes "jump") self.old self.new result }
    {
        let Some(target) = self.digits() else {
            return Err(Reason::NoForm.at(self.line));
        };
        Ok(Instruction::Jump(target))
    }

    fn jump_if_equal(&mut self) -> Result<WrittenInstruction<'a>, Refusal>
        ensures { Operands (codes "jeq") self.old self.new result }
    {
        let Some(register) = self.register() else {
            return Err(Reason::NoForm.at(self.line));
        };
        let Some(operand) = self.operand() else {
            return Err(Reason::NoForm.at(self.line));
        };
        let Some(target) = self.digits() else {
            return Err(Reason::NoForm.at(self.line));
        };
        Ok(Instruction::JumpIfEqual(register, operand, target))
    }

    fn jump_unless_equal(&mut self) -> Result<WrittenInstruction<'a>, Refusal>
        ensures { Operands (codes "jne") self.old self.new result }
    {
        let Some(register) = self.register() else {
            return Err(Reason::NoForm.at(self.line));
        };
        let Some(operand) = self.operand() else {
            return Err(Reason::NoForm.at(self.line));
        };
        let Some(target) = self.digits() else {
            return Err(Reason::NoForm.at(self.line));
        };
        Ok(Instruction::JumpUnlessEqual(register, operand, target))
    }

    // The words after an instruction's first.
    fn operands(&mut self, mnemonic: Mnemonic) -> Result<WrittenInstruction<'a>, Refusal>
        ensures { Operands (mnemonic_word mnemonic) self.old self.new result }
    {
        match mnemonic {
            Mnemonic::Store => self.store(),
            Mnemonic::Load => self.load(),
            Mnemonic::Set => self.set(),
            Mnemonic::Add => self.add(),
            Mnemonic::Cas => self.cas(),
            Mnemonic::Fence => Ok(Instruction::Fence),
            Mnemonic::Jump => self.jump(),
            Mnemonic::JumpIfEqual => self.jump_if_equal(),
            Mnemonic::JumpUnlessEqual => self.jump_unless_equal(),
        }
    }

    // The next condition, none where the line ends. Inlined, as `next` is: words are most of what there is to read.
    #[inline(always)]
    fn condition(&mut self) -> Result<Option<WrittenCondition<'a>>, Refusal>
        ensures { TookCondition self.old self.new result }
    {
        let Some(first) = self.next() else {
            return Ok(None);
        };
        let Token::Word { bytes, line } = first else {
            return Err(Reason::NoForm.at(first.line()));
        };
        match bytes {
            b"at" => {
                let Some(thread) = self.digits() else {
                    return Err(Reason::NoForm.at(self.line));
                };
                let Some(target) = self.digits() else {
                    return Err(Reason::NoForm.at(self.line));
                };
                Ok(Some(Condition::At(thread, target)))
            }
            b"reg" => {
                let Some(thread) = self.digits() else {
                    return Err(Reason::NoForm.at(self.line));
                };
                let Some(register) = self.register() else {
                    return Err(Reason::NoForm.at(self.line));
                };
                let Some(value) = self.digits() else {
                    return Err(Reason::NoForm.at(self.line));
                };
                Ok(Some(Condition::Holds(thread, register, value)))
            }
            b"mem" => {
                let Some(variable) = self.variable() else {
                    return Err(Reason::NoForm.at(self.line));
                };
                let Some(value) = self.digits() else {
                    return Err(Reason::NoForm.at(self.line));
                };
                Ok(Some(Condition::Memory(variable, value)))
            }
            _ => Err(Reason::NoForm.at(line)),
        }
    }

    fn conditions(mut self) -> Result<(), Refusal>
        ensures form { IfErr result (Refused NoForm self.entry.line) }
        ensures none { IfErr result (λ e. (e ≡ refusal NoForm self.entry.line) × (fault (left self.entry) ≡ no_form)) }
    {
        let line = self.line;
        let Some(_) = self.condition()? else {
            return Err(Reason::NoForm.at(line));
        };
        while let Some(_) = self.condition()? {}
        Ok(())
    }

    // One word too many makes no form.
    pub(crate) fn end(&mut self) -> Result<(), Refusal>
        ensures form { IfErr result (Refused NoForm self.old.line) }
        ensures ends { MatchResult result (λ _. left self.old ≡ []) (λ e. (e ≡ refusal NoForm self.old.line) × some (left self.old) ≡ true) }
    {
        match self.next() {
            None => Ok(()),
            Some(extra) => Err(Reason::NoForm.at(extra.line())),
        }
    }

    // An instruction whose first word is given, with its line.
    pub(crate) fn instruction(
        mut self,
        first: &[u8],
        line: u16,
    ) -> Result<WrittenInstruction<'a>, Refusal>
        requires { line ≡ self.line }
        ensures { Whole first.now self.entry result }
    {
        let mnemonic = mnemonic_named(first, line)?;
        let written = self.operands(mnemonic)?;
        self.end()?;
        Ok(written)
    }

    // The form of a line by its words; its numbers may be any.
    pub fn form(mut self, first: Token<'a>) -> Result<Line<'a>, Refusal>
        requires { line_at first ≡ self.line }
        ensures on { MatchResult result (stands_on self.entry.line) (Refused NoForm self.entry.line) }
        ensures formed { FormedBy first.entry self.entry result }
    {
        let Token::Word { bytes, line } = first else {
            return Err(Reason::NoForm.at(first.line()));
        };
        match bytes {
            b"bound" => {
                let Some(digits) = self.digits() else {
                    return Err(Reason::NoForm.at(self.line));
                };
                self.end()?;
                Ok(Line::Bound(digits))
            }
            b"thread" => {
                self.end()?;
                Ok(Line::Thread)
            }
            b"fault" => {
                self.conditions()?;
                Ok(Line::Fault(self))
            }
            mnemonic => Ok(Line::Instruction(self.instruction(mnemonic, line)?)),
        }
    }
}

// The number that one or two digits write. By `parse` a sign would be read as well, and more than two digits.
fn written(digits: &[u8]) -> Option<u8>
    ensures named { IfSome result (λ n. n ≡ decimal digits.now) }
    ensures value { result ≡ value_of digits.now }
{
    match digits {
        [d @ b'0'..=b'9'] => Some(*d - b'0'),
        [t @ b'0'..=b'9', d @ b'0'..=b'9'] => Some((*t - b'0') * 10 + (*d - b'0')),
        _ => None,
    }
}

// The same, if it lies from `low` to `high`.
fn in_range(low: u8, high: u8, digits: &[u8]) -> Option<u8>
    ensures { result ≡ number_read low high digits.entry }
{
    let n = written(digits)?;
    (low <= n && n <= high).then_some(n)
}

// The ranges by their names, so that each pair of numbers stands once; the bound's is below.
fn value(digits: &[u8]) -> Option<u8>
    ensures { result ≡ number_read 0 15 digits.entry }
{
    in_range(0, 15, digits)
}

fn target(digits: &[u8]) -> Option<u8>
    ensures { result ≡ number_read 0 16 digits.entry }
{
    in_range(0, 16, digits)
}

fn thread(digits: &[u8]) -> Option<u8>
    ensures { result ≡ number_read 0 3 digits.entry }
{
    in_range(0, 3, digits)
}

fn operand(written: WrittenOperand<'_>) -> Option<Operand<u8>>
    ensures { result ≡ operand_read written.entry }
{
    match written {
        Operand::Value(digits) => Some(Operand::Value(value(digits)?)),
        Operand::Register(register) => Some(Operand::Register(register)),
    }
}

// A number from `low` to `high`, or the refusal of its line.
pub fn number(low: u8, high: u8, digits: &[u8], line: u16) -> Result<u8, Refusal>
    ensures value { MatchResult result (λ n. (n ≡ decimal digits.now) × ((low ≤ n) × (n ≤ high))) (Refused NumberOutOfRange line) }
    ensures read { Valued (number_read low high digits.entry) line result }
{
    let Some(number) = in_range(low, high, digits) else {
        return Err(Reason::NumberOutOfRange.at(line));
    };
    Ok(number)
}

pub(crate) fn bound(digits: &[u8], line: u16) -> Result<u8, Refusal>
    ensures { Valued (number_read 1 4 digits.entry) line result }
{
    number(1, 4, digits, line)
}

// What an instruction says, or the refusal of its line for a number out of its range.
pub fn instruction(written: WrittenInstruction<'_>, line: u16) -> Result<Instruction<u8>, Refusal>
    ensures value { MatchResult result (λ i. (i ≡ instruction_of written.entry) × (instruction_fits i ≡ true)) (Refused NumberOutOfRange line) }
    ensures read { Valued (instruction_read written.entry) line result }
{
    match written {
        Instruction::Store(v, e) => {
            let Some(e) = operand(e) else {
                return Err(Reason::NumberOutOfRange.at(line));
            };
            Ok(Instruction::Store(v, e))
        }
        Instruction::Load(r, v) => Ok(Instruction::Load(r, v)),
        Instruction::Set(r, e) => {
            let Some(e) = operand(e) else {
                return Err(Reason::NumberOutOfRange.at(line));
            };
            Ok(Instruction::Set(r, e))
        }
        Instruction::Add(r, e) => {
            let Some(e) = operand(e) else {
                return Err(Reason::NumberOutOfRange.at(line));
            };
            Ok(Instruction::Add(r, e))
        }
        Instruction::Cas(r, v, old, new) => {
            let Some(old) = operand(old) else {
                return Err(Reason::NumberOutOfRange.at(line));
            };
            let Some(new) = operand(new) else {
                return Err(Reason::NumberOutOfRange.at(line));
            };
            Ok(Instruction::Cas(r, v, old, new))
        }
        Instruction::Fence => Ok(Instruction::Fence),
        Instruction::Jump(n) => {
            let Some(n) = target(n) else {
                return Err(Reason::NumberOutOfRange.at(line));
            };
            Ok(Instruction::Jump(n))
        }
        Instruction::JumpIfEqual(r, e, n) => {
            let Some(e) = operand(e) else {
                return Err(Reason::NumberOutOfRange.at(line));
            };
            let Some(n) = target(n) else {
                return Err(Reason::NumberOutOfRange.at(line));
            };
            Ok(Instruction::JumpIfEqual(r, e, n))
        }
        Instruction::JumpUnlessEqual(r, e, n) => {
            let Some(e) = operand(e) else {
                return Err(Reason::NumberOutOfRange.at(line));
            };
            let Some(n) = target(n) else {
                return Err(Reason::NumberOutOfRange.at(line));
            };
            Ok(Instruction::JumpUnlessEqual(r, e, n))
        }
    }
}

// What a condition says, or the same refusal.
fn condition(written: WrittenCondition<'_>, line: u16) -> Result<Condition<u8>, Refusal>
    ensures { Valued (condition_read written.entry) line result }
{
    match written {
        Condition::At(t, n) => {
            let Some(t) = thread(t) else {
                return Err(Reason::NumberOutOfRange.at(line));
            };
            let Some(n) = target(n) else {
                return Err(Reason::NumberOutOfRange.at(line));
            };
            Ok(Condition::At(t, n))
        }
        Condition::Holds(t, r, d) => {
            let Some(t) = thread(t) else {
                return Err(Reason::NumberOutOfRange.at(line));
            };
            let Some(d) = value(d) else {
                return Err(Reason::NumberOutOfRange.at(line));
            };
            Ok(Condition::Holds(t, r, d))
        }
        Condition::Memory(v, d) => {
            let Some(d) = value(d) else {
                return Err(Reason::NumberOutOfRange.at(line));
            };
            Ok(Condition::Memory(v, d))
        }
    }
}

// The conditions of a fault line. All its words are taken before a number or the count is refused.
pub fn fault_line(mut words: Words<'_>) -> Result<FaultLine, Refusal>
    ensures fits { MatchResult result (λ l. fault_fits l ≡ true) (Declined words.entry.line) }
    ensures value { result ≡ fitted words.entry.line (fault (left words.entry)) }
{
    let line = words.line;
    let mut fault = FaultLine::new();
    let mut wrong = None;
    while let Some(written) = words.condition()? {
        match condition(written, line) {
            Err(refusal) => wrong = Some(refusal.reason),
            Ok(condition) if !fault.is_full() => fault.push(condition),
            Ok(_) => wrong = wrong.or(Some(Reason::TooMany)),
        }
    }
    if let Some(reason) = wrong {
        return Err(reason.at(line));
    }
    if fault.is_empty() {
        return Err(Reason::NoForm.at(line));
    }
    Ok(fault)
}
