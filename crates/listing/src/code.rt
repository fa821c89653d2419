// What a listing is made of: instructions and conditions, with the values they name.
ghost use Rattle.std.specs.Prelude.{◌≡◌, ◌<◌, ◌^◌, length};
ghost use Rattle.listing.specs.Code.{index, slot};
ghost use Rattle.listing.specs.Limits.{together};

use few::{Few, Filler};
use limits::{MOST_CONDITIONS, MOST_IN_THREAD};

// A shared word.
#[derive(Clone, Copy, PartialEq, Eq)]
pub enum Variable {
    A,
    B,
    C,
    D,
    E,
    F,
    G,
    H,
}

// A trait for this `number` and a register's would need both bodies and both clauses all the same. By `as`, since the number
// of a case is meant: a `From` would spell out the cases.
impl Variable {
    // Its place in memory.
    pub fn number(self) -> usize
        ensures value { result ≡ index self }
        ensures limit { result < 8 }
    {
        self as usize
    }
}

#[derive(Clone, Copy, PartialEq, Eq)]
pub enum Register {
    R0,
    R1,
    R2,
    R3,
}

impl Register {
    // Its place among a thread's registers.
    pub fn number(self) -> usize
        ensures value { result ≡ slot self }
        ensures limit { result < 4 }
    {
        self as usize
    }
}

// The numbers of an operand, an instruction and a condition are of any type: in a program they are values, in a line that is
// being read the bytes of their digits.
#[derive(Clone, Copy, PartialEq, Eq)]
pub enum Operand<N> {
    Value(N),
    Register(Register),
}

#[derive(Clone, Copy, PartialEq, Eq)]
pub enum Instruction<N> {
    Store(Variable, Operand<N>),
    Load(Register, Variable),
    Set(Register, Operand<N>),
    Add(Register, Operand<N>),
    Cas(Register, Variable, Operand<N>, Operand<N>),
    Fence,
    Jump(N),
    JumpIfEqual(Register, Operand<N>, N),
    JumpUnlessEqual(Register, Operand<N>, N),
}

impl Filler for Instruction<u8> {
    ghost use Rattle.listing.specs.declared.code.Instruction.TheVariants.{Fence};

    ghost filler = { Fence };

    fn filler() -> Self {
        Instruction::Fence
    }
}

#[derive(Clone, Copy, PartialEq, Eq)]
pub enum Condition<N> {
    At(N, N),
    Holds(N, Register, N),
    Memory(Variable, N),
}

impl Filler for Condition<u8> {
    ghost use Rattle.listing.specs.declared.code.Condition.TheVariants.{At};

    ghost filler = { At 0 0 };

    fn filler() -> Self {
        Condition::At(0, 0)
    }
}

// The instructions of one thread.
pub type ThreadCode = Few<Instruction<u8>, MOST_IN_THREAD>;

// The conditions of one fault line.
pub type FaultLine = Few<Condition<u8>, MOST_CONDITIONS>;

// How many instructions some threads have.
pub(crate) fn together(threads: &[ThreadCode]) -> usize
    requires { together threads.now < 2 ^ 32 }
    ensures { result ≡ together threads.now }
{
    threads.iter().map(|code| code.len()).sum()
}
