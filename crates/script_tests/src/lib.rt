//! Tests of scripts and arguments: what texts spell, why they are refused, and what terms stand for.
#![tactic(auto)]

#[cfg(test)]
mod confirm;
#[cfg(test)]
mod limits;
#[cfg(test)]
mod resolving;
#[cfg(test)]
mod slots;
#[cfg(test)]
mod spelled;
#[cfg(test)]
mod verdicts;
