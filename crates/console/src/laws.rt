// What is printed means what is said by runs.
ghost use Rattle.console.specs.Meaning.{ConsoleTells};

/// A report is that of the best set; else the refusal is the first one that applies.
pub fn console_tells()
    ensures { ConsoleTells }
{}
