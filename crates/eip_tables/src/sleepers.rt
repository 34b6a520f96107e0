ghost use Rattle.std.specs.Prelude.{◌≡◌};
ghost use Rattle.eip_tables.specs.Sleepers.{due_moment, sooner};

/// The moment that so many ticks from now are, at most the last one that there is.
pub fn due_moment(now: u64, ticks: u64) -> u64
    ensures { result ≡ due_moment now ticks }
{
    now.saturating_add(ticks)
}

/// The sooner of two moments, where there are any.
pub fn sooner(first: Option<u64>, other: Option<u64>) -> Option<u64>
    ensures { result ≡ sooner first other }
{
    match (first, other) {
        (None, _) => other,
        (Some(_), None) => first,
        (Some(moment), Some(another)) => Some(moment.min(another)),
    }
}
