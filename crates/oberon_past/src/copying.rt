//! Copies of what a past keeps, which share nothing with it.
ghost use Rattle.std.specs.Prelude.{◌≡◌, IfOk, map};
ghost use Rattle.risc_model.specs.InputOrder.{AreOrdered};
ghost use Rattle.oberon_format.specs.CheckpointParts.{checkpoint_parts};

use oberon_format::Checkpoint;
use risc_model::{Event, Inputs};
use risc_pages::Pool;
use std::alloc::{AllocError, Global};

/// Returns a copy of a pool.
pub(crate) fn pool_copy(alloc: Global, pool: &Pool) -> Result<Pool, AllocError>
    ensures { IfOk result (λ copy. copy ≡ pool.now) }
{
    let mut copy = Pool::with_capacity(alloc, pool.len())?;
    for page in 0..pool.len() {
        copy.push(*pool.page(page + 1))?;
    }
    Ok(copy)
}

/// Returns copies of keyframes.
pub(crate) fn keyframes_copy(
    alloc: Global,
    keyframes: &[Checkpoint],
) -> Result<Vec<Checkpoint>, AllocError>
    ensures { IfOk result (λ copies. map checkpoint_parts copies.items ≡ map checkpoint_parts keyframes.now) }
{
    let mut copies = Vec::with_capacity(alloc, keyframes.len())?;
    for keyframe in keyframes {
        copies.push(keyframe_copy(alloc, keyframe)?)?;
    }
    Ok(copies)
}

fn keyframe_copy(alloc: Global, keyframe: &Checkpoint) -> Result<Checkpoint, AllocError>
    ensures { IfOk result (λ copy. checkpoint_parts copy ≡ checkpoint_parts keyframe.now) }
{
    Ok(Checkpoint {
        count: keyframe.count,
        cpu: keyframe.cpu,
        devices: keyframe.devices.copy(),
        sent: Vec::from_slice(alloc, &keyframe.sent)?,
        table: keyframe.table.copy(),
    })
}

/// Returns inputs with these events.
pub(crate) fn inputs_copy(alloc: Global, events: &[Event]) -> Result<Inputs, AllocError>
    requires { AreOrdered events.now }
    ensures { IfOk result (λ inputs. inputs ≡ events.now) }
{
    match Inputs::new(Vec::from_slice(alloc, events)?) {
        Ok(inputs) => Ok(inputs),
        Err(_) => unreachable!(),
    }
}
