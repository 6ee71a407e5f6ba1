// Sums and counts over the numbers below a bound, and their laws, for layouts, figures and readings alike.
#![tactic(auto)]

ghost use Rattle.std.specs.Prelude.{◌≡◌};
ghost use Rattle.sums.specs.Laws.{CountAmong, Exchange};
ghost use Rattle.sums.specs.Sums.{among};

// Whether the number is one of the places.
pub fn is_among(number: usize, places: &[usize]) -> bool
    ensures { result ≡ among number places.now }
{
    places.contains(&number)
}

// Two sums, one inside the other, may be exchanged.
pub fn sums_exchange()
    ensures { Exchange }
{}

// A count over some places is made at those places.
pub fn counts_are_made_in_place()
    ensures { CountAmong }
{}
