// Where the entry of a name stands among the entries of a directory, or would stand.
ghost use Rattle.std.specs.Prelude.{◌≡◌, ◌+◌, ◌-◌, ◌*◌, ◌^◌, ◌<◌, ◌≤◌, length, slice_get, IsTrue, IsSomeAnd, IfOk, IfErr};
ghost use Rattle.layout.specs.Name.{name_cmp};
ghost use Rattle.volatile_index.specs.Entries.{IsSorted};
ghost use Rattle.volatile_index.specs.Place.{IsGap};

use crate::entry::Entry;
use counting::Steps;
use layout::Name;
use pieces::Pieces;
use std::cmp::Ordering;
use std::sync::ledger::{Blank, Ledger};

/// The place of a name, or where it would stand. A step is a comparison of two names.
pub fn search<L: Ledger>(
    entries: &Pieces<Entry>,
    name: &Name,
    steps: &mut Steps<L>,
) -> Result<usize, usize>
    requires { IsSorted entries.now.items }
    ensures found { IfOk result (λ place. IsSomeAnd (slice_get entries.now.items place)
        (λ entry. entry.name ≡ name.now)) }
    ensures gap { IfErr result (λ place. IsGap entries.now.items place name.now) }
    ensures cost { 2 ^ (steps.new - steps.old) ≤ 2 * length entries.now.items + 1 }
{
    let mut low = 0;
    let mut high = entries.len();
    while low < high {
        let middle = low + (high - low) / 2;
        match compared(&entries.get(middle).name, name, steps) {
            Ordering::Less => low = middle + 1,
            Ordering::Equal => return Ok(middle),
            Ordering::Greater => high = middle,
        }
    }
    Err(low)
}

/// The same, with steps that nobody reads.
pub fn search_uncounted<L: Ledger>(
    entries: &Pieces<Entry>,
    name: &Name,
    blank: Blank,
) -> Result<usize, usize>
    requires sorted { IsSorted entries.now.items }
    requires name { blank.name ≡ L.name }
    requires parts { blank.parts ≡ L.parts }
    requires some { 0 < blank.parts }
    ensures found { IfOk result (λ place. IsSomeAnd (slice_get entries.now.items place)
        (λ entry. entry.name ≡ name.now)) }
    ensures gap { IfErr result (λ place. IsGap entries.now.items place name.now) }
{
    search(entries, name, &mut Steps::<L>::new(blank))
}

/// The same for a name that is to come in: the last entry is looked at first, so that names in order take a step each.
pub fn search_from_end<L: Ledger>(
    entries: &Pieces<Entry>,
    name: &Name,
    blank: Blank,
) -> Result<usize, usize>
    requires sorted { IsSorted entries.now.items }
    requires name { blank.name ≡ L.name }
    requires parts { blank.parts ≡ L.parts }
    requires some { 0 < blank.parts }
    ensures found { IfOk result (λ place. IsSomeAnd (slice_get entries.now.items place)
        (λ entry. entry.name ≡ name.now)) }
    ensures gap { IfErr result (λ place. IsGap entries.now.items place name.now) }
{
    let mut steps = Steps::<L>::new(blank);
    if ends_before(entries, name, &mut steps) {
        Err(entries.len())
    } else {
        search(entries, name, &mut steps)
    }
}

// Whether there is a last name, and it is less than this one.
fn ends_before<L: Ledger>(entries: &Pieces<Entry>, name: &Name, steps: &mut Steps<L>) -> bool
    requires { IsSorted entries.now.items }
    ensures less { IsTrue result → IsGap entries.now.items (length entries.now.items) name.now }
    ensures cost { steps.new ≤ steps.old + 1 }
{
    match entries.last() {
        Some(last) => compared(&last.name, name, steps).is_lt(),
        None => false,
    }
}

// Names are compared here and nowhere else, and each comparison is a step.
fn compared<L: Ledger>(left: &Name, right: &Name, steps: &mut Steps<L>) -> Ordering
    ensures order { result ≡ name_cmp left.now right.now }
    ensures cost { steps.new ≡ steps.old + 1 }
{
    steps.tick();
    left.cmp(right)
}
