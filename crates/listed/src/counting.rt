ghost use Rattle.std.specs.Prelude.{◌≡◌, ◌<◌, ◌≤◌, ◌+◌, ◌-◌, ℕ, slice_index_or, slice_set};
ghost use Rattle.listed.specs.Counting.{IsTree, most_counted};

/// Counts one more in a leaf, and in all that stands above it.
pub fn one_more(counts: &mut [usize], leaves: usize, leaf: usize)
    requires tree { IsTree leaves counts.old }
    requires from { leaves ≤ leaf }
    requires to { leaf < leaves + leaves }
    requires few { (node : ℕ) → 0 < node → node < leaves + leaves → slice_index_or counts.old node 0 ≤ most_counted }
    ensures tree { IsTree leaves counts.new }
    ensures leaves { (node : ℕ) → leaves ≤ node
        → slice_index_or counts.new node 0 ≡ slice_index_or (slice_set counts.old leaf (slice_index_or counts.old leaf 0 + 1)) node 0 }
{
    counts[leaf] += 1;
    let mut node = leaf / 2;
    while node > 0 {
        counts[node] += 1;
        node /= 2;
    }
}

/// Counts one less in a leaf, and in all that stands above it.
pub fn one_less(counts: &mut [usize], leaves: usize, leaf: usize)
    requires tree { IsTree leaves counts.old }
    requires from { leaves ≤ leaf }
    requires to { leaf < leaves + leaves }
    requires some { 0 < slice_index_or counts.old leaf 0 }
    ensures tree { IsTree leaves counts.new }
    ensures leaves { (node : ℕ) → leaves ≤ node
        → slice_index_or counts.new node 0 ≡ slice_index_or (slice_set counts.old leaf (slice_index_or counts.old leaf 0 - 1)) node 0 }
{
    counts[leaf] -= 1;
    let mut node = leaf / 2;
    while node > 0 {
        counts[node] -= 1;
        node /= 2;
    }
}
