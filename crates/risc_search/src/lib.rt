//! A search through a run: the first count, or the last, at which a condition of a list holds. Debuggers know such conditions as
//! breakpoints (the program counter comes here) and watchpoints (this word changes).
//!
//! What a condition speaks of is defined over the model of `risc_model`, in `specs/`. A search runs the caller's machine, one of
//! `risc_machine`: at full speed past the instructions that concern no condition, and the others in single steps. Afterwards the
//! machine is in a state of the run that is searched: right after the instruction of the first count that holds, or at the end of
//! the range if none does or the last one is looked for.
#![tactic(auto)]

mod access;
mod before;
mod clauses;
mod concerns;
mod condition;
mod due;
mod effect;
mod hit;
mod idle;
mod laws;
mod meeting;
mod pace;
mod register;
mod search;
mod span;
mod stored_word;
mod values;

pub use access::Access;
pub use condition::{Clause, Condition};
pub use effect::{Accessed, Effect, inputs_after, step_with_effect};
pub use hit::{Hit, Hits};
pub use laws::{condition_limit_law, hits_law};
pub use register::Register;
pub use search::{MAX_CONDITIONS, find_all, find_first, find_last};
pub use span::Span;
pub use values::Values;
