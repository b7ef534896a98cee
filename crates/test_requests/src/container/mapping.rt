//! Mapping at its limits, and what is said of a fault.

pub mod patterns;
pub mod servlets;
