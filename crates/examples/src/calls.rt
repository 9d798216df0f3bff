//! A caller for each of some calls, which meets what the call asks for: by a constructor, by what is read, or by a test.

pub mod contexts;
pub mod evaluators;
pub mod goals;
