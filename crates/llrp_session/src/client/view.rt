//! A client's view: the ROSpecs that it added and their states, ordered by id.

ghost use Rattle.std.specs.Prelude.{◌≡◌, ◌<◌, ◌≤◌, length, slice_set, IfOk, IfErr, OnOk, OnErr};
ghost use Rattle.std.specs.List.{insert};
ghost use Rattle.llrp_session.specs.Table as table;

use crate::types::{RoState, Viewed};
use std::alloc::AllocError;

/// Whether the ROSpecID of a request means this ROSpec: 0 means all.
fn names(n: u32, id: u32) -> bool
    ensures { result ≡ table.names n id }
{
    n == 0 || n == id
}

/// The state of a ROSpec.
#[tactic(auto, unfolding(crate::specs::Table::viewed_state))]
pub(super) fn state(view: &[Viewed], id: u32) -> Option<RoState>
    ensures { result ≡ table.viewed_state id view.now }
{
    for viewed in view {
        if id == viewed.id {
            return Some(viewed.state);
        }
    }
    None
}

/// Adds a ROSpec, Disabled. If memory runs out, nothing changes.
pub(super) fn enter(view: &mut Vec<Viewed>, id: u32) -> Result<(), AllocError>
    ensures entered { OnOk result (view.new.items ≡ table.enter_view id view.old.items) }
    ensures unchanged { OnErr result (view.new.items ≡ view.old.items) }
{
    let entered = Viewed {
        id,
        state: RoState::Disabled,
    };
    match place(view.as_slice(), id) {
        Ok(i) => view[i] = entered,
        Err(i) => view.insert(i, entered)?,
    }
    Ok(())
}

/// Where a ROSpec is in the view or, as the error, where it would be inserted.
#[tactic(auto, using(crate::proofs::ViewLemmas::entering))]
fn place(view: &[Viewed], id: u32) -> Result<usize, usize>
    ensures there { IfOk result (λ i. i < length view.now) }
    ensures replaced { IfOk result (λ i. table.enter_view id view.now
        ≡ slice_set view.now i (table.new_viewed id)) }
    ensures within { IfErr result (λ i. i ≤ length view.now) }
    ensures inserted { IfErr result (λ i. table.enter_view id view.now
        ≡ insert view.now i (table.new_viewed id)) }
{
    for (i, viewed) in view.iter().enumerate() {
        if id == viewed.id {
            return Ok(i);
        }
        if id < viewed.id {
            return Err(i);
        }
    }
    Err(view.len())
}

/// Removes a ROSpec, or all if the id is 0.
pub(super) fn remove(view: &mut Vec<Viewed>, n: u32)
    ensures { view.new.items ≡ table.view_without n view.old.items }
{
    view.retain(|viewed| !names(n, viewed.id));
}

/// Enables a ROSpec, or all if the id is 0.
#[tactic(auto, using(crate::proofs::ViewLemmas::changing))]
pub(super) fn enable(view: &mut Vec<Viewed>, n: u32)
    ensures { view.new.items ≡ table.change_view (table.enabling n) view.old.items }
{
    for viewed in view.iter_mut() {
        viewed.state = enabled(n, *viewed);
    }
}

/// The state of a ROSpec after one was enabled, or all if the id is 0: a Disabled one becomes
/// Inactive.
fn enabled(n: u32, viewed: Viewed) -> RoState
    ensures { result ≡ table.enabling n viewed.id viewed.state }
{
    match viewed.state {
        RoState::Disabled if names(n, viewed.id) => RoState::Inactive,
        state => state,
    }
}

/// Disables a ROSpec, or all if the id is 0.
#[tactic(auto, using(crate::proofs::ViewLemmas::changing))]
pub(super) fn disable(view: &mut Vec<Viewed>, n: u32)
    ensures { view.new.items ≡ table.change_view (table.disabling n) view.old.items }
{
    for viewed in view.iter_mut() {
        viewed.state = disabled(n, *viewed);
    }
}

/// The state of a ROSpec after one was disabled, or all if the id is 0.
fn disabled(n: u32, viewed: Viewed) -> RoState
    ensures { result ≡ table.disabling n viewed.id viewed.state }
{
    if names(n, viewed.id) {
        RoState::Disabled
    } else {
        viewed.state
    }
}

/// Sets the state of a ROSpec, if it is in the view.
#[tactic(auto, using(crate::proofs::ViewLemmas::changing))]
pub(super) fn set(view: &mut Vec<Viewed>, id: u32, to: RoState)
    ensures { view.new.items ≡ table.change_view (table.setting id to) view.old.items }
{
    for viewed in view.iter_mut() {
        viewed.state = moved(id, to, *viewed);
    }
}

/// The state of a ROSpec after the state of this id was set.
fn moved(id: u32, to: RoState, viewed: Viewed) -> RoState
    ensures { result ≡ table.setting id to viewed.id viewed.state }
{
    if id == viewed.id { to } else { viewed.state }
}
