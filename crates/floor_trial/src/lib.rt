// A client of the floor file: what is written byte by byte, what is read back, and each refusal.
#![tactic(auto)]

#[cfg(test)]
mod tests;
