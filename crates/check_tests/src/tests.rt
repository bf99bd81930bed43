//! The tests, each family in a module. `jumps`, `checked`, `gates` and `held` have what several of them use: recordings of
//! jumps, the check of a file, and gates that hold jobs back.

mod checked;
mod claims;
mod counted;
mod disks;
mod gates;
mod held;
mod jumps;
mod lines;
mod passes;
mod schedules;
mod segments;
mod untouched;
