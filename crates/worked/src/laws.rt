// What small listings read as, what their machines do, and what is printed for them.
ghost use Rattle.worked.specs.Examples.{ExamplesHold};

/// Does nothing: its contract names the table.
pub fn examples_hold()
    ensures { ExamplesHold }
{}
