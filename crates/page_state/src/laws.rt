// What a caller may rest on of all pages, as contracts.
ghost use Rattle.page_state.specs.Laws.{EventsLaw, OthersLaw, InodesLaw, SlotsLaw, InsideLaw, BeyondLaw};

/// Pages go on standing over all events that store none of their words, and over an interval of other pages, of an inode or of a
/// slot in another page.
pub fn page_law()
    ensures events { EventsLaw }
    ensures others { OthersLaw }
    ensures inodes { InodesLaw }
    ensures slots { SlotsLaw }
{}

/// How many words and lines of a file's pages have new bytes, by where these begin and end: where they are those of a range in the
/// pages, and where they are all to the pages' end.
pub fn span_law()
    ensures inside { InsideLaw }
    ensures beyond { BeyondLaw }
{}
