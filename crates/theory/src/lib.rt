#![tactic(auto)]

// The theorems about the definitions stand in specs/; there is no code in this crate.
