// Tests of the crate `judging`, in a crate of their own.
#![tactic(auto)]

#[cfg(test)]
mod tests;
