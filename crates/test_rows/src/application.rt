//! Descriptors, and which context, servlet and filters a path has. What is expected is that of Jakarta Servlet 6.0, of
//! TOML 1.1 and of `docs/CONFIGURING.md`.

pub mod contexts;
pub mod deployed;
pub mod descriptors;
pub mod filters;
pub mod patterns;
pub mod servlets;
mod shown;
