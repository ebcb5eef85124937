//! Each call with ample memory.

mod annotations;
mod grids;
mod lines;
