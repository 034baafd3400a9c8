// A call by hand, whichever it is: it begins by a plan, and is led from fence to fence.
ghost use Rattle.std.specs.Prelude.{◌≡◌, ◌^◌, ◌<◌, ℕ, List, IfOk, OnOk, false};
ghost use Rattle.tree_model.specs.PathText.{Route};
ghost use Rattle.tree_model.specs.Run.{State};
ghost use Rattle.tree_model.specs.declared.command.Command.{Command as Asked};
ghost use Rattle.tree_model.specs.declared.command.Command.TheVariants.{Write};
ghost use Rattle.volume.specs.Carried.{HasReserved, IsPlanFor, MayCarry};
ghost use Rattle.volume.specs.Stands.{IsStanding};
ghost use Rattle.volume.specs.declared.next.Next.TheVariants.{More};
ghost use Rattle.worked_costs.specs.Courses.{MayGoOn};

use mark_ops::unmark;
use pm_trait::{Pm, PmFault};
use std::test::Fail;
use tree_model::Command;
use volume::{Action, Held, Next, Plan, Volume};

// A call between two of its steps.
#[derive(Drop)]
pub enum Course {
    Make(create_ops::Running),
    Name(unlink_ops::link::Running),
    Remove(unlink_ops::removal::Running),
    Move(rename_ptr::Running),
    Write(data_ops::write::Running),
    Resize(data_ops::truncate::Running),
}

// The bytes of a write, and of another command none.
pub fn written<'a>(command: &Command<'a>) -> &'a [u8]
    ensures { (path : Route) (offset : ℕ) (bytes : List ℕ) → command.now ≡ Write path offset bytes → result.now ≡ bytes }
{
    if let Command::Write { bytes, .. } = command {
        return bytes.as_slice();
    }
    &[]
}

// Takes the mark of a closed volume away before a plan that stores.
fn make_ready<P: Pm>(volume: &mut Volume, plan: &Plan, pm: &mut P) -> Result<(), PmFault>
    requires going { volume.old.stopped ≡ false }
    requires stands { IsStanding volume.old (P.view pm.old) }
    requires reserved { HasReserved volume.old (P.view pm.old) plan.now }
    requires countable { (P.view pm.old).fences < 2 ^ 62 }
    ensures ready { OnOk result (MayCarry volume.new (P.view pm.new) plan.now) }
    ensures plans { (state : State) (command : Asked) →
        IsPlanFor volume.old (P.view pm.old) state command plan.now →
        OnOk result (IsPlanFor volume.new (P.view pm.new) state command plan.now) }
{
    if !volume.marked() || plan.fences() == 0 {
        return Ok(());
    }
    unmark(volume, pm)
}

// Plans a command and begins its call. The bytes are those of a write.
pub fn begin<P: Pm>(
    volume: &mut Volume,
    command: &Command,
    _bytes: &[u8],
    pm: &mut P,
) -> Result<Course, Fail>
    requires going { volume.old.stopped ≡ false }
    requires stands { IsStanding volume.old (P.view pm.old) }
    requires countable { (P.view pm.old).fences < 2 ^ 62 }
    requires bytes { (path : Route) (offset : ℕ) (bytes : List ℕ) → command.now ≡ Write path offset bytes → _bytes.now ≡ bytes }
    ensures { IfOk result (λ course. MayGoOn volume.new (P.view pm.new) _bytes.now (More course)) }
{
    let Ok(plan) = volume.prepare(command, pm) else {
        return Err("it is refused".into());
    };
    make_ready(volume, &plan, pm)?;
    match plan.action() {
        Action::Make(_) => Ok(Course::Make(create_ops::begin(volume, plan))),
        Action::Name(_) => Ok(Course::Name(unlink_ops::link::begin(volume, plan))),
        Action::Remove(_) => Ok(Course::Remove(unlink_ops::removal::begin(volume, plan))),
        Action::Move(_) | Action::KeepNames => Ok(Course::Move(rename_ptr::begin(volume, plan))),
        Action::Write(_) | Action::WriteNothing => {
            Ok(Course::Write(data_ops::write::begin(volume, plan)))
        }
        Action::Resize(_) | Action::KeepSize => {
            Ok(Course::Resize(data_ops::truncate::begin(volume, plan)))
        }
        Action::Read(_) | Action::Status(_) | Action::Names(_) | Action::Space => {
            Err("a line that only reads".into())
        }
    }
}

impl Course {
    // What it holds.
    pub fn held(&self) -> Held {
        match self {
            Course::Make(running) => running.held(),
            Course::Name(running) => running.held(),
            Course::Remove(running) => running.held(),
            Course::Move(running) => running.held(),
            Course::Write(running) => running.held(),
            Course::Resize(running) => running.held(),
        }
    }

    // How many fences it has left.
    pub fn fences_left(&self) -> u64 {
        match self {
            Course::Make(running) => running.fences_left(),
            Course::Name(running) => running.fences_left(),
            Course::Remove(running) => running.fences_left(),
            Course::Move(running) => running.fences_left(),
            Course::Write(running) => running.fences_left(),
            Course::Resize(running) => running.fences_left(),
        }
    }

    // Makes its next step. A write is handed its bytes.
    pub fn advance<P: Pm>(
        self,
        volume: &mut Volume,
        bytes: &[u8],
        pm: &mut P,
    ) -> Result<Next<Course>, PmFault>
        requires may { MayGoOn volume.old (P.view pm.old) bytes.now (More self) }
        requires countable { (P.view pm.old).fences < 2 ^ 63 }
        ensures { IfOk result (λ next. MayGoOn volume.new (P.view pm.new) bytes.now next) }
    {
        match self {
            Course::Make(running) => match create_ops::advance(running, volume, pm)? {
                Next::More(running) => Ok(Next::More(Course::Make(running))),
                Next::Ended(reply) => Ok(Next::Ended(reply)),
            },
            Course::Name(running) => match unlink_ops::link::advance(running, volume, pm)? {
                Next::More(running) => Ok(Next::More(Course::Name(running))),
                Next::Ended(reply) => Ok(Next::Ended(reply)),
            },
            Course::Remove(running) => match unlink_ops::removal::advance(running, volume, pm)? {
                Next::More(running) => Ok(Next::More(Course::Remove(running))),
                Next::Ended(reply) => Ok(Next::Ended(reply)),
            },
            Course::Move(running) => match rename_ptr::advance(running, volume, pm)? {
                Next::More(running) => Ok(Next::More(Course::Move(running))),
                Next::Ended(reply) => Ok(Next::Ended(reply)),
            },
            Course::Write(running) => match data_ops::write::advance(running, volume, bytes, pm)? {
                Next::More(running) => Ok(Next::More(Course::Write(running))),
                Next::Ended(reply) => Ok(Next::Ended(reply)),
            },
            Course::Resize(running) => match data_ops::truncate::advance(running, volume, pm)? {
                Next::More(running) => Ok(Next::More(Course::Resize(running))),
                Next::Ended(reply) => Ok(Next::Ended(reply)),
            },
        }
    }
}
