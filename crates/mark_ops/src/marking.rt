// The mark of a volume that was closed.
ghost use Rattle.std.specs.Prelude.{◌≡◌, ◌^◌, ◌<◌, ◌≤◌, true, false, OnOk, MatchResult};
ghost use Rattle.layout.specs.Superblock.{open_mark};
ghost use Rattle.tree_model.specs.Run.{State};
ghost use Rattle.tree_model.specs.declared.command.Command.{Command};
ghost use Rattle.volume.specs.Carried.{HasReserved, IsPlanFor};
ghost use Rattle.volume.specs.Costs.{kept_events};
ghost use Rattle.volume.specs.declared.plan.Action.{Action};
ghost use Rattle.volume.specs.Stands.{IsStanding, StandsFor};
ghost use Rattle.mark_ops.specs.Marking.{Closes, SetsMark};

use fence_token::set_word;
use layout::superblock::{CLOSED_MARK, MARK_WORD, OPEN_MARK};
use pm_trait::{Pm, PmFault};
use volume::Volume;

/// Takes the mark of a closed volume away, before its first change: one fence, for which `prepare` has made room. Where the fence
/// fails the volume is stopped.
///
/// A crash at any moment leaves the volume with the mark or without it, which mean the same.
pub fn unmark<P: Pm>(volume: &mut Volume, pm: &mut P) -> Result<(), PmFault>
    requires going { volume.old.stopped ≡ false }
    requires marked { volume.old.marked ≡ true }
    requires stands { IsStanding volume.old (P.view pm.old) }
    requires room { kept_events true ≤ (P.view pm.old).spare }
    requires countable { (P.view pm.old).fences < 2 ^ 63 }

    ensures sets { (state : State) → StandsFor volume.old (P.view pm.old) state →
        SetsMark volume.old.size open_mark state (P.view pm.old) (P.view pm.new) result }
    ensures view { MatchResult result (λ _. volume.new ≡ record volume.old { marked = false })
        (λ _. volume.new ≡ record volume.old { stopped = true }) }
    ensures stands { (state : State) → StandsFor volume.old (P.view pm.old) state →
        OnOk result (StandsFor volume.new (P.view pm.new) state) }
    // A plan is one of the volume without the mark too, and what was reserved for it is enough.
    ensures plans { (state : State) (command : Command) (action : Action) →
        IsPlanFor volume.old (P.view pm.old) state command action →
        OnOk result (IsPlanFor volume.new (P.view pm.new) state command action) }
    ensures reserved { (action : Action) → HasReserved volume.old (P.view pm.old) action →
        OnOk result (HasReserved volume.new (P.view pm.new) action) }
{
    match set_word(pm, MARK_WORD, OPEN_MARK) {
        Ok(()) => {
            volume.clear_mark();
            Ok(())
        }
        Err(fault) => {
            volume.stop();
            Err(fault)
        }
    }
}

/// Gives the volume its mark, at the end of all work on it: one fence, for which the mount has made room, or nothing where it has the
/// mark. Where the fence fails it may have the mark or not.
///
/// A crash at any moment leaves the volume with the mark or without it, which mean the same.
pub fn close<P: Pm>(volume: Volume, pm: &mut P) -> Result<(), PmFault>
    requires going { volume.stopped ≡ false }
    requires stands { IsStanding volume (P.view pm.old) }
    requires countable { (P.view pm.old).fences < 2 ^ 63 }
    ensures closes { (state : State) → StandsFor volume (P.view pm.old) state →
        Closes volume.marked volume.size state (P.view pm.old) (P.view pm.new) result }
{
    if volume.marked() {
        return Ok(());
    }
    set_word(pm, MARK_WORD, CLOSED_MARK)
}
