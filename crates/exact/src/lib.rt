// Points, numbers and the two tests of the plane.
#![tactic(auto)]

pub mod plane;
pub mod position;
pub mod signed;
#[cfg(test)]
mod tests;
pub mod vector;
pub mod verdict;
