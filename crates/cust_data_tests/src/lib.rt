//! Tests of `cust_data`, in a crate of their own, since a crate with code and tests is proved twice.
#![tactic(auto)]

#[cfg(test)]
mod columns;
#[cfg(test)]
mod numbers;
#[cfg(test)]
mod rows;
