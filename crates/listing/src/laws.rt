// What holds of reading as a whole, beyond the answer to one text, and of what is read.
ghost use Rattle.std.specs.Prelude.{ℕ, List};
ghost use Rattle.listing.specs.Laws.{InReach, KnownByLists, ProgramsInReach};
ghost use Rattle.listing.specs.LineLaws.{ByteTold, FormTold, NamesTold, OrderTold, WordsTold};
ghost use Rattle.listing.specs.Numbering.{PlacesCount, RegistersApart, VariablesApart};
ghost use Rattle.listing.specs.Reading.{Progress};
ghost use Rattle.listing.specs.Reasons.{NumbersAreTheTable};
ghost use Rattle.listing.specs.TextLines.{LinesTold};
ghost use Rattle.listing.specs.WithinLimits.{LimitsAre, ProgramsKeep};

// Does nothing: its contract names the laws. So do those below.
pub fn reading_stands()
    ensures in_reach { InReach }
    ensures programs_in_reach { ProgramsInReach }
    ensures known_by_lists { KnownByLists }
{}

// What a program keeps, and how its parts and the refusals are numbered.
pub fn numbers_stand()
    ensures limits { LimitsAre }
    ensures programs { ProgramsKeep }
    ensures places { PlacesCount }
    ensures registers { RegistersApart }
    ensures variables { VariablesApart }
    ensures refusals { NumbersAreTheTable }
{}

// The lines of a text, and the rules of one line: which bytes it may have, which forms there are, and which line may stand where.
pub fn lines_are_told()
    ensures lines { (text : List ℕ) → LinesTold text }
    ensures bytes { (b : ℕ) → ByteTold b }
    ensures names { NamesTold }
    ensures words { (bs : List ℕ) → WordsTold bs }
    ensures forms { (w : List ℕ) (ws : List (List ℕ)) → FormTold w ws }
    ensures order { (p : Progress) → OrderTold p }
{}
