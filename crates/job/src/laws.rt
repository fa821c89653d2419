// What every job promises, whatever calls it was made and changed by.
ghost use Rattle.std.specs.Prelude.{◌≡◌};
ghost use Rattle.job.specs.Changes.{Changes, OpenPlaces, Seen};
ghost use Rattle.job.specs.Checks.{HasThese};
ghost use Rattle.job.specs.Gives.{CallsLeave, CallsRefused, Prints, Runs};
ghost use Rattle.job.specs.Promises.{Always};
ghost use Rattle.job.specs.Refusals.{InOrder};
ghost use Rattle.job.specs.Reports.{OneText, Printing};
ghost use Rattle.job.specs.States.{Held, State};
ghost use Rattle.job.specs.Texts.{ReadsAs};
ghost use Rattle.job.specs.Verdicts.{MemoryLeft, Verdicts};

use machines::machine::Kind;

/// For each kind of machine and every list of calls, granted or not.
pub fn every_history<K: Kind>()
    ensures { Always (λ p. K.means (K.made p)) }
{}

/// The program that a text reads as is the reading of the text.
pub fn texts_are_read()
    ensures { ReadsAs }
{}

/// What each call changes of a job, told by what is in the sets; a refused call changes nothing. And what `look` shows.
pub fn calls_change<K: Kind>()
    ensures changes { (s : State) → Changes (λ p. K.means (K.made p)) s }
    ensures unbarred { OpenPlaces }
    ensures seen { Seen }
{}

/// What the answers of `test` and `plain` mean, told by runs, and what the calls that search leave of lent memory.
pub fn answers_mean<K: Kind>()
    ensures verdicts { (s : State) → Verdicts (λ p. K.means (K.made p)) s }
    ensures memory { (s : State) → MemoryLeft (λ p. K.means (K.made p)) s }
{}

/// The set of some places has these and no others.
pub fn sets_are_their_places()
    ensures { HasThese }
{}

/// Which refusals apply is said for each number by itself; a call is refused by the lowest that applies, and granted when none
/// does.
pub fn lowest_number_first<K: Kind>()
    ensures { (s : State) → InOrder (λ p. K.means (K.made p)) s }
{}

/// What a call gives: the run that is written, and the bytes of a report and of a refusal's line, past which all is as it was.
/// And as a value each call is refused by the same rules, and leaves the same of the job.
pub fn calls_give<K: Kind>()
    ensures prints { Prints }
    ensures runs { (h : Held) → Runs (λ p. K.means (K.made p)) h }
    ensures refused { CallsRefused (λ p. K.means (K.made p)) }
    ensures left { CallsLeave (λ p. K.means (K.made p)) }
{}

/// A report has one line for each place of its set, in ascending order, which names the thread and the number within it; a
/// refusal's line has its number and its line. Numbers are in decimal, with no leading zero. And what is written into a buffer one
/// after the other is one text.
pub fn lines_are_printed()
    ensures printing { Printing }
    ensures one_text { OneText }
{}
