// What a caller may rest on of every inode, as a contract.
ghost use Rattle.inode_state.specs.Laws.{EventsLaw, OthersLaw};

/// An inode goes on standing over all events that store none of its words, and over another inode's interval.
pub fn inode_law()
    ensures events { EventsLaw }
    ensures others { OthersLaw }
{}
