// The pages that go with a node.
ghost use Rattle.std.specs.Prelude.{◌≡◌, ◌≤◌};
ghost use Rattle.volatile_index.specs.Index.{inodes_of_index};
ghost use Rattle.volume.specs.declared.plan.Loss.{Loss as Lost};
ghost use Rattle.removal_steps.specs.Steps.{gone_pages as gone_pages_of};

use volume::{Loss, Volume};

/// The data pages that go with a name, by their numbers: all of its node's where that goes, and else none. So it is where no node
/// loses a name.
pub fn gone_pages<'a>(volume: &'a Volume, loss: Option<Loss>) -> &'a [u64]
    requires in_range { (lost : Lost) → loss ≡ Some lost → (1 ≤ lost.inode) × (lost.inode ≤ inodes_of_index volume.now.index) }
    ensures { result.now ≡ gone_pages_of volume.now loss }
{
    match loss {
        Some(loss) => {
            let all = volume.pages(loss.inode);
            if loss.goes { all } else { &all[..0] }
        }
        None => &[],
    }
}
