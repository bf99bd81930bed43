//! Sessions that are made of their parts, what their faults are called, the past of a machine that runs on, and searches,
//! traces, profiles, calls and checks of a past.

mod calls;
mod checks;
mod disk;
mod faults;
mod parts;
mod past;
mod recordings;
mod searches;
mod traces;
