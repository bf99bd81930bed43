//! Ordered lists of inputs. One input with its count is in `event`; what an input does is in `risc_devices`.
ghost use Rattle.std.specs.Prelude.{◌≡◌, ◌≤◌, ◌<◌, ◌++◌, length, take, IfOk, IfErr, IfNone, IfSome, OnErr, OnOk};
ghost use Rattle.risc_model.specs.InputOrder.{AreOrdered, IsFirstWrong, IsNextAt, count_at};

use crate::event::Event;
use std::alloc::AllocError;
use std::marker::Model;

/// The greatest count that an input or a checkpoint may have: 2^40 (this project's own choice).
pub const MAX_COUNT: u64 = 1 << 40;

/// Inputs whose counts do not fall and are at most `MAX_COUNT` (this project's own choice). Contracts see the list of events.
#[derive(Drop)]
pub struct Inputs {
    list: Vec<Event>,
}

impl Model for Inputs {
    ghost use Rattle.std.specs.Prelude.{List};
    ghost use Rattle.risc_model.specs.declared.event.Event.{Event};
    ghost use Rattle.risc_model.specs.InputOrder.{AreOrdered};

    ghost Value = { List Event };

    ghost view = { λ i. i.list.items };

    ghost invariant = { λ i. AreOrdered i.list.items };
}

/// Events that are not in order, with the first wrong index: there the count falls, or is above `MAX_COUNT`.
#[derive(Drop)]
pub struct Unordered {
    /// The events, as they were passed.
    pub list: Vec<Event>,
    /// The index of the first event that is wrong.
    pub at: usize,
}

impl Unordered {
    ghost use Rattle.std.specs.Prelude.{◌≡◌};

    /// Returns the refusal's number, which is 1.
    pub fn number(&self) -> u8
        ensures { result ≡ 1 }
    {
        1
    }
}

impl Inputs {
    /// Makes the inputs of a list, if its counts do not fall and are at most `MAX_COUNT`.
    ///
    /// Returns any other list, with the first index at which it is wrong. Allocates nothing.
    pub fn new(list: Vec<Event>) -> Result<Inputs, Unordered>
        ensures list { IfOk result (λ inputs. inputs ≡ list.items) }
        ensures ordered { IfOk result (λ _. AreOrdered list.items) }
        ensures handed_back { IfErr result (λ unordered. unordered.list ≡ list) }
        ensures first_wrong { IfErr result (λ unordered. IsFirstWrong list.items unordered.at) }
    {
        match first_wrong(&list) {
            None => Ok(Inputs { list }),
            Some(at) => Err(Unordered { list, at }),
        }
    }

    /// Returns the events, in order.
    #[inline]
    pub fn events(&self) -> &[Event]
        ensures events { result.now ≡ self.now }
        ensures ordered { AreOrdered self.now }
    {
        self.list.as_slice()
    }

    /// Appends events that continue the order. If there is no memory for them, the inputs are unchanged.
    pub fn append(&mut self, events: &[Event]) -> Result<(), AllocError>
        requires { AreOrdered (self.old ++ events.now) }
        ensures appended { OnOk result (self.new ≡ self.old ++ events.now) }
        ensures unchanged { OnErr result (self.new ≡ self.old) }
    {
        self.list.extend_from_slice(events)
    }

    /// Drops the events from an index on.
    pub fn truncate(&mut self, index: usize)
        ensures { self.new ≡ take index self.old }
    {
        self.list.truncate(index);
    }
}

/// Returns the first index at which the order is broken.
fn first_wrong(list: &[Event]) -> Option<usize>
    ensures none { IfNone result (AreOrdered list.now) }
    ensures some { IfSome result (λ at. IsFirstWrong list.now at) }
{
    let mut least = 0;
    for (at, event) in list.iter().enumerate() {
        if event.count < least || event.count > MAX_COUNT {
            return Some(at);
        }
        least = event.count;
    }
    None
}

/// Returns the index of the first input whose count is `at` or later.
pub fn first_from(events: &[Event], at: u64) -> usize
    requires { AreOrdered events.now }
    ensures { IsNextAt events.now result at }
{
    events.partition_point(|event| event.count < at)
}

/// Returns the count up to which no input comes, from the count `at` on: that of the input at the index `index`, or `to` if this is
/// earlier.
pub fn quiet_until(events: &[Event], index: usize, at: u64, to: u64) -> u64
    requires next { IsNextAt events.now index at }
    requires forward { at ≤ to }
    ensures later { at ≤ result }
    ensures inside { result ≤ to }
    ensures next { IsNextAt events.now index result }
    ensures ends { result < to → (index < length events.now) × (count_at events.now index ≡ result) }
{
    if index < events.len() {
        let due = events[index].count;
        if due < to {
            return due;
        }
    }
    to
}
