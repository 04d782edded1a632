// The table of worked cases: the contract of one function, each case proved.
#![tactic(auto)]

ghost use Rattle.claims.specs.Cases.{Indices};
ghost use Rattle.span.specs.Laws.{Worked};

// Indices at the edges of schemas 0, -4 and 8; pairs with gaps of 0, 2 and 3 as spans and deltas.
pub fn worked_cases()
    ensures indices { Indices }
    ensures spans { Worked }
{}
