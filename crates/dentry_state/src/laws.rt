// What a caller may rest on of every slot, as a contract.
ghost use Rattle.dentry_state.specs.Laws.{EventsLaw, OthersLaw, InodesLaw, SlotsLaw};

/// A slot goes on standing over all events that store none of its words, and over an interval of another slot or of an inode. An
/// inode goes on standing over a slot's interval.
pub fn dentry_law()
    ensures events { EventsLaw }
    ensures others { OthersLaw }
    ensures inodes { InodesLaw }
    ensures slots { SlotsLaw }
{}
