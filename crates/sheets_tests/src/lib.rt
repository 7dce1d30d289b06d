// Tests of the crates `sections` and `sheets`, in a crate of their own.
#![tactic(auto)]

#[cfg(test)]
mod tests;
