// What a caller may rest on of sorted entries, each law as a contract.
ghost use Rattle.std.specs.Prelude.{◌≡◌, ◌↔◌, List, Contains};
ghost use Rattle.volatile_index.specs.Entries.{IsSorted};
ghost use Rattle.volatile_index.specs.declared.entry.Entry.{Entry};

/// Sorted entries have at most one of a name.
pub fn one_entry_of_a_name()
    ensures { (entries : List Entry) (first second : Entry) → IsSorted entries → Contains entries first
        → Contains entries second → first.name ≡ second.name → first ≡ second }
{}

/// Sorted lists with the same entries are equal.
pub fn same_entries()
    ensures { (first second : List Entry) → IsSorted first → IsSorted second
        → ((entry : Entry) → Contains first entry ↔ Contains second entry) → first ≡ second }
{}
