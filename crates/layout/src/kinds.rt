// What nodes and pages are, and the words that say so.
ghost use Rattle.std.specs.Prelude.{◌≡◌, ◌≢◌, MatchOption};
ghost use Rattle.layout.specs.Kinds.{node_code, page_code, page_kind_of};
ghost use Rattle.layout.specs.declared.kinds.NodeKind.{NodeKind};

/// The kind of a file's inode.
pub const FILE: u64 = 1;

/// The kind of a directory's inode.
pub const DIRECTORY: u64 = 2;

/// The kind of a page of a file's bytes.
pub const BYTES: u64 = 1;

/// The kind of a page of a directory's slots.
pub const SLOTS: u64 = 2;

/// What a node is.
#[derive(Clone, Copy, Debug, PartialEq, Eq)]
pub enum NodeKind {
    /// Bytes.
    File,
    /// Names of nodes.
    Directory,
}

impl NodeKind {
    /// What the node of an inode of this kind is. `None` for a free inode, and where no node has that kind.
    pub fn of_code(code: u64) -> Option<NodeKind>
        ensures { MatchOption result ((kind : NodeKind) → node_code kind ≢ code) (λ kind. node_code kind ≡ code) }
    {
        match code {
            FILE => Some(NodeKind::File),
            DIRECTORY => Some(NodeKind::Directory),
            _ => None,
        }
    }

    /// What the node's pages hold.
    pub fn page_kind(self) -> PageKind
        ensures { result ≡ page_kind_of self }
    {
        match self {
            NodeKind::File => PageKind::Bytes,
            NodeKind::Directory => PageKind::Slots,
        }
    }
}

/// What a data page holds.
#[derive(Clone, Copy, Debug, PartialEq, Eq)]
pub enum PageKind {
    /// Bytes of a file.
    Bytes,
    /// Slots of a directory.
    Slots,
}

impl PageKind {
    /// The kind that the page's descriptor has.
    pub fn code(self) -> u64
        ensures { result ≡ page_code self }
    {
        match self {
            PageKind::Bytes => BYTES,
            PageKind::Slots => SLOTS,
        }
    }
}
