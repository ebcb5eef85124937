//! Each call with ample memory.

mod bad_input;
mod cases;
mod edges;
mod many;
mod mappers;
mod pages;
mod sinks;
mod suggestions;
