// What holds of the machines as they are shipped, and of the values they are made of.
ghost use Rattle.std.specs.Prelude.{◌≡◌, ◌==◌, Decides};
ghost use Rattle.listing.specs.declared.code.Variable.{Variable};
ghost use Rattle.listing.specs.declared.program.Program.{Program};
ghost use Rattle.listing.specs.Code.{index};
ghost use Rattle.machines.specs.Bounds.{BufferedBounded, FencedBounded, UnbufferedBounded};
ghost use Rattle.machines.specs.Buffered.{buffered};
ghost use Rattle.machines.specs.FaultRules.{FaultsAreTold, ShownFaultsAreTold};
ghost use Rattle.machines.specs.Follows.{InOrder, OneThread, OnlyByLanding, ReadsOwn, WaitsAlone, WithinBound};
ghost use Rattle.machines.specs.Laws.{NoQueues};
ghost use Rattle.machines.specs.Machines.{leaving_out};
ghost use Rattle.machines.specs.Pictures.{start};
ghost use Rattle.machines.specs.Places.{has, SetLaws};
ghost use Rattle.machines.specs.Rules.{ByConfiguration, ByRules};
ghost use Rattle.machines.specs.Settled.{BufferedSettles, UnbufferedSettles};
ghost use Rattle.machines.specs.Start.{AllAtRest, StartsAtRest};
ghost use Rattle.machines.specs.Unbuffered.{unbuffered};
ghost use Rattle.machines.specs.UnbufferedRules.{UnbufferedByRules};

use crate::buffered::Buffered;
use crate::fenced::Fenced;
use crate::machine::{Kind, Machine};
use crate::picture::{Picture, Shown};
use crate::placement::Placement;
use crate::queue::{Queue, Write};
use crate::standing::{Standing, Thread};
use crate::unbuffered::Unbuffered;

// Two of them compare as equal exactly when they are equal, and two variables have one number exactly when they are one.
#[tactic(auto, using(crate::specs::lawful::Sameness::variable_decides, crate::specs::lawful::Sameness::queue_decides, crate::specs::lawful::Sameness::picture_decides, crate::specs::lawful::Sameness::thread_decides, crate::specs::lawful::Sameness::standing_decides))]
pub fn equality_is_exact()
    ensures variables { (a b : Variable) → Decides (index a == index b) (a ≡ b) }
    ensures writes { (a : _) (b : _) → Decides (⟦<Write as PartialEq>⟧.eq a b) (a ≡ b) }
    ensures queues { (a : _) (b : _) → Decides (⟦<Queue as PartialEq>⟧.eq a b) (a ≡ b) }
    ensures shown { (a : _) (b : _) → Decides (⟦<Shown as PartialEq>⟧.eq a b) (a ≡ b) }
    ensures pictures { (a : _) (b : _) → Decides (⟦<Picture as PartialEq>⟧.eq a b) (a ≡ b) }
    ensures threads { (a : _) (b : _) → Decides (⟦<Thread as PartialEq>⟧.eq a b) (a ≡ b) }
    ensures standings { (a : _) (b : _) → Decides (⟦<Standing as PartialEq>⟧.eq a b) (a ≡ b) }
{}

// What the machines that are shipped mean.
pub fn meanings_are()
    ensures unbuffered { (p : Program) → ⟦<Unbuffered as Machine>⟧.means (⟦<Unbuffered as Kind>⟧.made p) ≡ unbuffered p }
    ensures buffered { (p : Program) → ⟦<Buffered as Machine>⟧.means (⟦<Buffered as Kind>⟧.made p) ≡ buffered p }
{}

// Every machine starts with all threads at 0 and all values 0.
pub fn machines_start<M: Machine>()
    ensures picture { AllAtRest start }
    ensures machine { (m : M) → StartsAtRest (M.means m) }
{}

// A set laid over a machine takes away the steps that cross it, and changes nothing else; and fences everywhere are as good as no queues.
pub fn fences_mean<M: Machine>()
    ensures fenced { (f : _) → ⟦<Fenced<'static, M> as Machine>⟧.means f ≡ leaving_out (has f.places.mask) (M.means f.machine.now) }
    ensures program { (f : _) → ⟦<Fenced<'static, M> as Machine>⟧.program f ≡ M.program f.machine.now }
    ensures everywhere { (m : M) → NoQueues (M.program m) (M.means m) }
{}

// The machines go by the published rules, and what follows from those of the buffered one holds of its runs.
pub fn rules_are_kept()
    ensures unbuffered { UnbufferedByRules }
    ensures rules { ByRules }
    ensures configurations { ByConfiguration }
    ensures order { InOrder }
    ensures memory { OnlyByLanding }
    ensures own { ReadsOwn }
    ensures alone { WaitsAlone }
    ensures one { OneThread }
    ensures bound { WithinBound }
{}

// The buffered machine shows a picture exactly where nothing waits, and the other one everywhere.
pub fn standings_settle()
    ensures buffered { BufferedSettles }
    ensures unbuffered { UnbufferedSettles }
{}

// At every standing that a run reaches, settled or not, whatever places are fenced, all values are at most 15, and no thread
// stands past its length.
pub fn values_are_bounded()
    ensures unbuffered { UnbufferedBounded }
    ensures buffered { BufferedBounded }
    ensures fenced { FencedBounded }
{}

// A picture is told a fault exactly when it is one: when every condition of some fault line holds.
pub fn faults_are_told<M: Machine>()
    ensures picture { FaultsAreTold }
    ensures machine { (m : M) → ShownFaultsAreTold (M.program m) (M.means m) }
{}

// What the operations on sets of places do, by what is in the set.
pub fn sets_of_places()
    ensures { SetLaws }
{}
