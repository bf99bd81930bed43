//! Worked examples through `serve`: the option `--disk`; and readers and writers that fail, that never end, or that take one byte at a
//! time.

mod disks;
mod ends;
mod watched;
