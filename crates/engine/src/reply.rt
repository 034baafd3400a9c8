// The line of a reply.
ghost use Rattle.std.specs.Prelude.{◌≡◌};
ghost use Rattle.pm_trait.specs.DeviceView.{DeviceView};
ghost use Rattle.io_edge.specs.Bytes.{Writes};
ghost use Rattle.tree_model.specs.Step.{Answer};
ghost use Rattle.script.specs.Texts.{answer_text};
ghost use Rattle.engine.specs.Replies.{IsReplyOf};
ghost use Rattle.engine.specs.Session.{session_of};

use crate::last_read::LastRead;
use crate::listing::write_names;
use io_edge::{Sink, WriteFault};
use script::write_plain;
use tree_model::Reply;
use volume::Volume;

/// Writes the line of a reply. The names of a listing are asked of the volume, the bytes of a read of `last`, which puts their whole line
/// together first.
pub fn write_reply<K: Sink>(
    volume: &Volume,
    last: &mut LastRead,
    reply: &Reply,
    sink: &mut K,
) -> Result<(), WriteFault>
    requires { (device : DeviceView) × (answer : Answer) × IsReplyOf (session_of volume.now last.old) device answer reply.now }
    ensures same { last.new ≡ last.old }
    ensures writes { (device : DeviceView) (answer : Answer) → IsReplyOf (session_of volume.now last.old) device answer reply.now →
        Writes (K.took sink.old) (K.took sink.new) (K.faults sink.old) (K.faults sink.new) (answer_text answer) result }
{
    match reply {
        Reply::Names { inode, .. } => write_names(volume, *inode, sink),
        Reply::Bytes(_) => last.write(sink),
        Reply::Done
        | Reply::Count(_)
        | Reply::Status(_)
        | Reply::Space(_)
        | Reply::Refused(_)
        | Reply::Unread(_)
        | Reply::Fault
        | Reply::Stopped => write_plain(reply, sink),
    }
}
