// Tests of the crate `graph`, in a crate of their own.
#![tactic(auto)]

#[cfg(test)]
mod tests;
