// Halving the indices of a list of pairs in place.
ghost use Rattle.std.specs.Prelude.{◌≡◌, ◌+◌, ◌^◌, ◌<◌, ◌≤◌, length, take, drop};
ghost use Rattle.store.specs.Pairs.{total, halved_pairs, joined_last};

use index::coarser_index;

// Halves the indices of the first `size` pairs, joins counts that meet, and answers how many pairs are left.
pub(crate) fn halve_all(pairs: &mut [(i32, u64)], size: usize) -> usize
    requires fits { size ≤ length pairs.old }
    requires bounded { total (take size pairs.old) < 2 ^ 64 }
    ensures within { result ≤ size }
    ensures halves { take result pairs.new ≡ halved_pairs (take size pairs.old) }
{
    let mut used = 0;
    // By position, since the loop writes the pairs that it reads.
    for k in 0..size {
        let (index, count) = pairs[k];
        used = join_last(pairs, used, (coarser_index(index), count));
    }
    used
}

// Puts a pair behind the first `used`, or adds its count to the last of them where that has the same index; answers how many there are then.
fn join_last(pairs: &mut [(i32, u64)], used: usize, pair: (i32, u64)) -> usize
    requires fits { used < length pairs.old }
    requires bounded { total (take used pairs.old) + pair.1 < 2 ^ 64 }
    ensures within { result ≤ used + 1 }
    ensures joins { take result pairs.new ≡ joined_last (take used pairs.old) pair }
    ensures beyond { drop (used + 1) pairs.new ≡ drop (used + 1) pairs.old }
{
    let (front, back) = pairs.split_at_mut(used);
    if let Some(last) = front.last_mut()
        && last.0 == pair.0
    {
        last.1 += pair.1;
        return used;
    }
    back[0] = pair;
    used + 1
}
