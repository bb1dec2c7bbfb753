// A client of the gate: the worked ticks, the refusals, and what a trip and a release change.
#![tactic(auto)]

#[cfg(test)]
mod tests;
