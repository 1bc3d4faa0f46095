//! Callers that take turns at a gate.
ghost use Rattle.std.specs.Prelude.{◌≡◌, ◌≤◌, ◌<◌, ◌+◌, ℕ, All, IfOk, Some, length, slice_get, slice_index_or};
ghost use Rattle.dim_turn.specs.Passes.{start_of, IsPassOf, IsDealt};

use crate::commands::{call_stack, command};
use crate::desk::new_gate;
use dim_base::OutOfMemory;
use dim_gate::GateState;
use dim_stack::Stack;
use dim_turn::{Pass, Turn};
use std::alloc::Global;
use std::sync::Wait;
use std::thread::{Threads, for_each_mut};

/// A turn of a gate of `new_gate`, and a pass for each of its callers, who may make `steps` entries
/// each.
pub fn begin(
    alloc: Global,
    callers: u32,
    steps: u32,
) -> Result<(Turn<GateState>, Vec<Pass<GateState>>), OutOfMemory>
    requires some { 1 ≤ callers }
    requires few { (callers ≤ 4) × (steps ≤ 150000) }
    ensures sizes { IfOk result (λ r. ((start_of r.0).book.value.threads ≡ 4)
        × ((start_of r.0).book.value.locks ≡ 4)) }
    ensures counts { IfOk result (λ r. ((start_of r.0).callers ≡ callers)
        × ((start_of r.0).allowance ≡ steps) × (length r.1.items ≡ callers)) }
    ensures dealt { IfOk result (λ r. (i : ℕ) (p : _) → slice_get r.1.items i ≡ Some p
        → IsDealt r.0 i p) }
{
    let gate = new_gate(alloc, callers * steps)?;
    match Turn::start(alloc, gate, callers, steps) {
        Ok(begun) => Ok(begun),
        Err((_gate, error)) => Err(error),
    }
}

/// A caller's command at this step.
fn ask<R: Wait>(
    rt: &R,
    turn: &Turn<GateState>,
    pass: &mut Pass<GateState>,
    step: u32,
    stack: &Stack,
)
    requires pass { IsPassOf turn.now pass.old }
    requires thread { pass.old.number < (start_of turn.now).book.value.threads }
    requires lock { pass.old.number < (start_of turn.now).book.value.locks }
    requires left { 1 ≤ pass.old.left }
    ensures pass { IsPassOf turn.now pass.new × (pass.new.number ≡ pass.old.number) }
    ensures left { pass.old.left ≤ pass.new.left + 1 }
{
    let cmd = command(pass.number(), step, stack);
    turn.call(rt, pass, cmd);
}

/// The commands of one caller.
fn play<R: Wait>(rt: &R, turn: &Turn<GateState>, pass: &mut Pass<GateState>, steps: u32)
    requires pass { IsPassOf turn.now pass.old }
    requires thread { pass.old.number < (start_of turn.now).book.value.threads }
    requires lock { pass.old.number < (start_of turn.now).book.value.locks }
    requires left { steps ≤ pass.old.left }
    ensures { IsPassOf turn.now pass.new × (pass.new.number ≡ pass.old.number) }
{
    let stack = call_stack();
    for step in 0..steps {
        ask(rt, turn, pass, step, &stack);
    }
}

/// The commands of each caller in a thread of its own.
pub fn play_by_turns<R: Threads + Wait + Sync>(
    rt: &R,
    turn: &Turn<GateState>,
    passes: &mut [Pass<GateState>],
    steps: u32,
)
    requires of { All (λ p. IsPassOf turn.now p) passes.old }
    requires thread { All (λ p. p.number < (start_of turn.now).book.value.threads) passes.old }
    requires lock { All (λ p. p.number < (start_of turn.now).book.value.locks) passes.old }
    requires left { All (λ p. steps ≤ p.left) passes.old }
    ensures same { length passes.new ≡ length passes.old }
    ensures each { (i : ℕ) (d : _) → i < length passes.old
        → IsPassOf turn.now (slice_index_or passes.new i d)
        × ((slice_index_or passes.new i d).number ≡ (slice_index_or passes.old i d).number) }
{
    for_each_mut(rt, passes, 4, &|_, pass| play(rt, turn, pass, steps));
}
