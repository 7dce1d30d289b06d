// Tests of the crate `marking`, in a crate of their own.
#![tactic(auto)]

#[cfg(test)]
mod tests;
