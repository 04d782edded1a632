// Facts about every list of pairs: each function's contract is the fact, and its body does nothing.
ghost use Rattle.store.specs.Laws.{Raising, Halving, Taking, CountsTell};

// Raising an index adds one to its count and to nothing else.
pub fn raising_adds_one()
    ensures { Raising }
{}

// Halving sums the counts of the indices that meet, and keeps the total.
pub fn halving_keeps_counts()
    ensures { Halving }
{}

// Taking the lowest pair removes its count and nothing else.
pub fn taking_removes_lowest()
    ensures { Taking }
{}

// Two lists with the same count at every index are one list.
pub fn counts_tell_pairs()
    ensures { CountsTell }
{}
