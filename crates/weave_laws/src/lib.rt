//! What a step of one call does beside other calls: what a crash in it leaves, what its end leaves to be repaired and reads as, and to which words
//! it stores.
#![tactic(auto)]

ghost use Rattle.weave_laws.specs.Paging.{PagedNodeQuietLaw, PagedLinkQuietLaw, OwningQuietLaw, PagedNodeWrittenLaw, PagedLinkWrittenLaw, PageOwnedLaw};
ghost use Rattle.weave_laws.specs.Unnaming.{UnnamedLaw};
ghost use Rattle.weave_laws.specs.Bytes.{InsideMeaningLaw, FilledMeaningLaw, TakenMeaningLaw, RaisedMeaningLaw, LoweredMeaningLaw};
ghost use Rattle.weave_laws.specs.Committing.{InsideWriteLaw, RaisedWriteLaw, RaisedTruncateLaw, LoweredTruncateLaw};
ghost use Rattle.weave_laws.specs.Sizing.{WrittenInsideLaw, FilledLaw, TakenLaw, RaisedLaw, LoweredLaw};
ghost use Rattle.weave_laws.specs.Removing.{ClearedLaw, GivenLaw, FreedLaw};
ghost use Rattle.weave_laws.specs.Entering.{NodeEnteredLaw, NewNodeLaw, LinkEnteredLaw, NodeRoomLaw, LinkedRoomLaw, RemovedEnteredLaw, RemovedRoomLaw, OneWordLaw};
ghost use Rattle.weave_laws.specs.Beside.{WiderLaw, DisjointLaw, NodeWordsLaw, LinkWordsLaw, PagedNodeWordsLaw, PagedLinkWordsLaw, OwnedWordsLaw, CommittedWordsLaw, DroppedWordsLaw, ClearedWordsLaw, GivenWordsLaw, FreedWordsLaw, InsideWordsLaw, FilledWordsLaw, TakenWordsLaw, SizedWordsLaw};
ghost use Rattle.weave_laws.specs.Waiting.{WaitingLinkLaw, WaitingCountedLaw, WaitingPlaceLaw, WaitingInodeLaw, WaitingClaimingLaw, WaitingWordsLaw, WaitingNodeLaw, WaitingFileLaw, WaitingRemovalLaw, WaitingLossLaw, WaitingApartLaw, WaitingClearingLaw, WaitingFallingLaw, WaitingGivingLaw, WaitingFreeingLaw, WaitingWritingLaw, WaitingFillingLaw, WaitingOwningLaw, WaitingRaisingLaw, WaitingLoweringLaw, WaitingTrimmingLaw};
ghost use Rattle.weave_laws.specs.Growing.{FilledRangeLaw, TakenRangeLaw, KeptRangeLaw, HeldRangeLaw};
ghost use Rattle.weave_laws.specs.Joined.{AnyOrderLaw};
ghost use Rattle.weave_laws.specs.Naming.{NodeWrittenLaw, LinkWrittenLaw, NodeCommittedLaw, LinkCommittedLaw};

/// The order in which calls have left places doesn't matter.
pub fn joined_law()
    ensures { AnyOrderLaw }
{}

/// A name that is written, with a new node or with a link, leaves its slot, the inode and the link word that rose.
pub fn written_law()
    ensures node { NodeWrittenLaw }
    ensures link { LinkWrittenLaw }
{}

/// A slot that takes its number leaves nothing.
pub fn committed_law()
    ensures node { NodeCommittedLaw }
    ensures link { LinkCommittedLaw }
{}

/// A name that is written in a new page, with a new node or with a link, and the owner that the page gets then change no meaning, whatever
/// other calls have left: a crash in the step leaves what means the same. Of a name that is written in a page that its directory has,
/// `stage_law` of image_laws says so.
pub fn quiet_law()
    ensures paged_node { PagedNodeQuietLaw }
    ensures paged_link { PagedLinkQuietLaw }
    ensures owned { OwningQuietLaw }
{}

/// A name that is written in a new page leaves that page in place of the slot, and the same once the page has its owner.
pub fn paged_law()
    ensures node { PagedNodeWrittenLaw }
    ensures link { PagedLinkWrittenLaw }
    ensures owned { PageOwnedLaw }
{}

/// A slot that names nothing any more is cleared and a link falls, pages that nothing needs lose their owner, and the rest of these and
/// of an inode is cleared: at the end nothing of them is left.
pub fn cleared_law()
    ensures slot { ClearedLaw }
    ensures owners { GivenLaw }
    ensures rest { FreedLaw }
{}

/// A slot that gives up its number leaves itself, or its page where no name is left in it, the node with its pages where it goes, and the
/// link word of what has a link less.
pub fn unnamed_law()
    ensures { UnnamedLaw }
{}

/// Bytes that are written below a file's size leave what was left. New pages are left from when they are filled until the size rises over
/// them, and pages behind the end from when it falls.
pub fn sized_law()
    ensures inside { WrittenInsideLaw }
    ensures filled { FilledLaw }
    ensures taken { TakenLaw }
    ensures raised { RaisedLaw }
    ensures lowered { LoweredLaw }
{}

/// While bytes of a file are stored a crash leaves the part of their range below the size torn, and what it leaves hangs on these bytes alone:
/// without such a part it means the same. So it does while new pages get their owner. A range that lies below the size is the file's at the end.
pub fn bytes_law()
    ensures inside { InsideMeaningLaw }
    ensures filled { FilledMeaningLaw }
    ensures taken { TakenMeaningLaw }
{}

/// While a file's size is stored a crash leaves the words before or the new size, with which the file is longer, by its range and zeros beside it,
/// or is cut.
pub fn size_law()
    ensures raised { RaisedMeaningLaw }
    ensures lowered { LoweredMeaningLaw }
{}

/// What commits a write or a truncation leaves reads as a state that the accepted command leaves.
pub fn size_step_law()
    ensures inside { InsideWriteLaw }
    ensures write { RaisedWriteLaw }
    ensures longer { RaisedTruncateLaw }
    ensures shorter { LoweredTruncateLaw }
{}

/// A name that takes its number, or gives it up, is entered beside anything: the words after read as the state that the command leaves, with
/// this room. A crash leaves these words or those before.
pub fn entered_law()
    ensures node { NodeEnteredLaw }
    ensures new_node { NewNodeLaw }
    ensures link { LinkEnteredLaw }
    ensures node_room { NodeRoomLaw }
    ensures link_room { LinkedRoomLaw }
    ensures removed { RemovedEnteredLaw }
    ensures removed_room { RemovedRoomLaw }
    ensures crash { OneWordLaw }
{}

/// What a call stores to is of all that it holds, and what another call holds stays, where they hold nothing together.
pub fn beside_law()
    ensures wider { WiderLaw }
    ensures disjoint { DisjointLaw }
{}

/// Each step stores to words of its own slot, pages and inodes alone.
pub fn own_words_law()
    ensures node { NodeWordsLaw }
    ensures link { LinkWordsLaw }
    ensures paged_node { PagedNodeWordsLaw }
    ensures paged_link { PagedLinkWordsLaw }
    ensures owned { OwnedWordsLaw }
    ensures committed { CommittedWordsLaw }
    ensures dropped { DroppedWordsLaw }
    ensures cleared { ClearedWordsLaw }
    ensures given { GivenWordsLaw }
    ensures freed { FreedWordsLaw }
    ensures inside { InsideWordsLaw }
    ensures filled { FilledWordsLaw }
    ensures taken { TakenWordsLaw }
    ensures sized { SizedWordsLaw }
{}

/// What a waiting call has is enough for its next step, whatever steps other calls have made.
pub fn waiting_law()
    ensures links { WaitingLinkLaw }
    ensures counted { WaitingCountedLaw }
    ensures place { WaitingPlaceLaw }
    ensures inode { WaitingInodeLaw }
    ensures claiming { WaitingClaimingLaw }
    ensures words { WaitingWordsLaw }
    ensures node { WaitingNodeLaw }
    ensures file { WaitingFileLaw }
    ensures removal { WaitingRemovalLaw }
    ensures loss { WaitingLossLaw }
    ensures apart { WaitingApartLaw }
    ensures clearing { WaitingClearingLaw }
    ensures falling { WaitingFallingLaw }
    ensures giving { WaitingGivingLaw }
    ensures freeing { WaitingFreeingLaw }
    ensures writing { WaitingWritingLaw }
    ensures filling { WaitingFillingLaw }
    ensures owning { WaitingOwningLaw }
    ensures raising { WaitingRaisingLaw }
    ensures lowering { WaitingLoweringLaw }
    ensures trimming { WaitingTrimmingLaw }
{}

/// A file's pages hold the range that is written from when they are filled until the size may rise over them, whatever others store elsewhere.
pub fn range_law()
    ensures filled { FilledRangeLaw }
    ensures taken { TakenRangeLaw }
    ensures kept { KeptRangeLaw }
    ensures held { HeldRangeLaw }
{}
