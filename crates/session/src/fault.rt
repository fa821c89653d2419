// Which fault line holds of a picture.
ghost use Rattle.std.specs.Prelude.{◌≡◌, position};
ghost use Rattle.listing.specs.Code.{lines_of};
ghost use Rattle.machines.specs.Pictures.{holds, line_holds};

use listing::code::Condition;
use listing::program::Program;
use machines::picture::Picture;

// The number of the first fault line that holds of the picture, from 0.
pub(crate) fn first_fault(program: &Program, picture: &Picture) -> Option<usize>
    ensures { result ≡ position (line_holds picture.now) (lines_of program.now) }
{
    program
        .faults()
        .iter()
        .position(|line| holds_all(picture, line.as_slice()))
}

fn holds_all(picture: &Picture, conditions: &[Condition<u8>]) -> bool
    ensures { result ≡ line_holds picture.now conditions.now }
{
    conditions
        .iter()
        .all(|condition| holds(picture, *condition))
}

// A thread that is not there stands at 0 with all registers 0: then no condition needs one of four threads.
fn holds(picture: &Picture, condition: Condition<u8>) -> bool
    ensures { result ≡ holds picture.now condition }
{
    match condition {
        Condition::At(thread, at) => {
            let thread = picture.threads.get(usize::from(thread));
            thread.map_or(0, |shown| shown.at) == at
        }
        Condition::Holds(thread, register, value) => {
            let thread = picture.threads.get(usize::from(thread));
            thread.map_or(0, |shown| shown.register(register)) == value
        }
        Condition::Memory(variable, value) => picture.memory[variable.number()] == value,
    }
}
