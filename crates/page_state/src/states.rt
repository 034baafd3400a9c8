// What the descriptor of a data page means.
ghost use Rattle.layout.specs.declared.fields.DescriptorFields.{DescriptorFields};
ghost use Rattle.page_state.specs.States.{IsFree, IsFilled, IsLive, IsReleased};

/// A meaning that a page's descriptor may have.
pub trait PageState {
    /// The page has this meaning where its descriptor says so.
    ghost Reads: { DescriptorFields → Type 0 };
}

/// It is no inode's and of no kind: the descriptor's words are 0.
#[derive(Drop)]
pub struct Free;

/// It was filled for an inode, and has no owner yet.
#[derive(Drop)]
pub struct Filled;

/// It belongs to an inode.
#[derive(Drop)]
pub struct Live;

/// It was taken from its inode: it has no owner any more, and its kind and offset are still there.
#[derive(Drop)]
pub struct Released;

impl PageState for Free {
    ghost Reads = { IsFree };
}

impl PageState for Filled {
    ghost Reads = { IsFilled };
}

impl PageState for Live {
    ghost Reads = { IsLive };
}

impl PageState for Released {
    ghost Reads = { IsReleased };
}
