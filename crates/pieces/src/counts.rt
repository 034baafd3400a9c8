// Where each piece begins in the list.
ghost use Rattle.std.specs.Prelude.{◌≡◌, ◌+◌, ◌^◌, ◌<◌, ◌≤◌, ℕ, length, slice_index, vec_len, vec_capacity};
ghost use Rattle.pieces.specs.Joined.{items_of, count_before, IsCounted};

// Which piece has a place: the last one that begins there or before.
pub fn piece_at(starts: &[usize], place: usize) -> usize
    requires some { 0 < length starts.now }
    requires first { slice_index starts.now 0 ≤ place }
    ensures within { result < length starts.now }
    ensures begins { slice_index starts.now result ≤ place }
    ensures before_next { result + 1 < length starts.now → place < slice_index starts.now (result + 1) }
{
    let mut low = 0;
    let mut high = starts.len();
    while high - low > 1 {
        let middle = low + (high - low) / 2;
        if starts[middle] <= place {
            low = middle;
        } else {
            high = middle;
        }
    }
    low
}

// Counts anew the items before each piece, from one piece on.
pub fn count_from<T>(starts: &mut Vec<usize>, pieces: &Vec<Vec<T>>, from: usize)
    requires from_one { 0 < from }
    requires lens { vec_len starts.old ≡ vec_len pieces.now }
    requires fits { length (items_of pieces.now.items) < 2 ^ 64 }
    requires before { (k : ℕ) → k < from → k < length pieces.now.items
        → slice_index starts.old.items k ≡ count_before pieces.now.items k }
    ensures counted { IsCounted pieces.now.items starts.new.items }
    ensures len { vec_len starts.new ≡ vec_len starts.old }
    ensures capacity { vec_capacity starts.new ≡ vec_capacity starts.old }
{
    for k in from..pieces.len() {
        starts[k] = starts[k - 1] + pieces[k - 1].len();
    }
}
