//! The handle that a caller has of what is held between two calls.
ghost use Rattle.std.specs.Prelude.{◌≡◌, Bool, true, false};
ghost use Rattle.yaml_c.specs.Handle.{held};

use crate::kinds::held_any_t;
use std::alloc::Global;
use std::marker::Model;

/// What stands at a handle's address: only this crate knows what it is.
#[repr(C)]
pub struct bogzhami_held {
    pub byte: u8,
}

/// The address of what is held, or null.
#[repr(C)]
#[derive(Drop)]
pub struct held_at_t {
    at: *mut bogzhami_held,
    ghost live: { Bool },
    ghost value: { held },
}

impl Model for held_at_t {
    ghost use Rattle.yaml_c.specs.Handle.{handle_owns};

    ghost also_owns = { λ h. handle_owns h.live h.at h.value };
}

/// A scanner that is held between calls, if it is live.
#[repr(C)]
#[derive(Drop)]
pub struct bogzhami_handle {
    pub live: bool,
    pub held: held_at_t,
    ghost same: { live ≡ held.live },
}

/// The address of what a box holds.
pub(crate) fn of(held: Box<held_any_t>) -> held_at_t
    ensures live { result.live ≡ true }
    ensures value { result.value ≡ held.value }
{
    let at = Box::into_raw(held);
    held_at_t {
        at: at as *mut bogzhami_held,
    }
}

/// The box again.
pub(crate) fn into_box(alloc: Global, held: held_at_t) -> Box<held_any_t>
    requires { held.live ≡ true }
    ensures value { result.value ≡ held.value }
{
    let held_at_t { at } = held;
    unsafe { Box::from_raw(alloc, at as *mut held_any_t) }
}

/// The address of nothing.
pub(crate) fn nowhere() -> held_at_t
    ensures live { result.live ≡ false }
{
    held_at_t {
        at: std::ptr::null_mut(),
    }
}

/// A handle that holds nothing.
pub(crate) fn closed() -> bogzhami_handle
    ensures live { result.live ≡ false }
{
    bogzhami_handle {
        live: false,
        held: nowhere(),
    }
}

/// A handle of what a box holds.
pub(crate) fn handle_of(held: Box<held_any_t>) -> bogzhami_handle
    ensures live { result.live ≡ true }
    ensures value { result.held.value ≡ held.value }
{
    bogzhami_handle {
        live: true,
        held: of(held),
    }
}
