// One check of several that follow one another.
ghost use Rattle.std.specs.Prelude.{◌≡◌, true, false, MatchResult};

// Nothing where the check holds, and else what is told of its failure. By `?` the first failure ends the checks.
pub fn check<E: Drop>(holds: bool, failure: E) -> Result<(), E>
    ensures { MatchResult result (λ _. holds ≡ true) (λ told. (holds ≡ false) × (told ≡ failure)) }
{
    if holds { Ok(()) } else { Err(failure) }
}
