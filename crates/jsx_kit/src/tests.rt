//! What no clause says: values from outside the code, and that calls succeed while there is memory.

mod hashing;
mod records;
mod taking;
