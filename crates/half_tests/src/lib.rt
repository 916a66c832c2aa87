//! Tests of what no contract and no script says. There is nothing else here, so that what is tested is proved once.
#![tactic(auto)]

#[cfg(test)]
mod tests;
