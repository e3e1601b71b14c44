//! The table of a reader: the ROSpecs and their states, ordered by id.

ghost use Rattle.std.specs.Prelude.{◌≡◌, ◌<◌, ◌^◌, Option, None, Some, vec_len, vec_capacity};
ghost use Rattle.std.specs.Option.{option_copied, option_map};
ghost use Rattle.llrp_session.specs.ReaderMachine.{is_known as the_is_known};
ghost use Rattle.llrp_session.specs.Private.ReaderParts.{changing, is_immediate as the_is_immediate, place_of as the_place};
ghost use Rattle.llrp_session.specs.Calls.NextClient.{rested as the_rested};
ghost use Rattle.llrp_session.specs.Table.{names as the_names, enabled as the_enabled, state_of as the_state_of, active as the_active, first_immediate as the_first_immediate, octets_of as the_octets, change as the_change, without as the_without, enter as the_enter};

use crate::parse::stored_rospec::RoSpec;
use crate::types::RoState;

/// A ROSpec of a reader's table, and its state.
#[derive(Drop)]
pub struct Entry {
    /// The ROSpec, as it was added.
    pub spec: RoSpec,
    /// Its state now.
    pub state: RoState,
}

/// A change of states.
#[derive(Clone, Copy)]
pub(crate) enum StateChange {
    /// Those ROSpecs that an id means and that are Disabled become Inactive.
    Enable(u32),
    /// The ROSpecs that an id means become Disabled.
    Disable(u32),
    /// The ROSpec with this id gets a state.
    Set(u32, RoState),
    /// The Active ones become Inactive.
    Rest,
}

/// Whether `n` in a request means the ROSpec with this id: 0 means all.
pub(crate) fn names(n: u32, id: u32) -> bool
    ensures { result ≡ the_names n id }
{
    n == 0 || n == id
}

/// The state after enabling.
fn enabled(state: RoState) -> RoState
    ensures { result ≡ the_enabled state }
{
    match state {
        RoState::Disabled => RoState::Inactive,
        other => other,
    }
}

/// The state after the client has left.
fn rested(state: RoState) -> RoState
    ensures { result ≡ the_rested state }
{
    match state {
        RoState::Active => RoState::Inactive,
        other => other,
    }
}

/// The state of a ROSpec after a change.
fn changed(change: StateChange, id: u32, state: RoState) -> RoState
    ensures { result ≡ changing change id state }
{
    match change {
        StateChange::Enable(n) => if names(n, id) { enabled(state) } else { state },
        StateChange::Disable(n) => if names(n, id) {
            RoState::Disabled
        } else {
            state
        },
        StateChange::Set(n, to) => if n == id { to } else { state },
        StateChange::Rest => rested(state),
    }
}

/// Makes a change to each state of a slice.
fn change_each(table: &mut [Entry], change: StateChange)
    ensures { table.new ≡ the_change (changing change) table.old }
{
    for entry in table.iter_mut() {
        entry.state = changed(change, entry.spec.settings().id, entry.state);
    }
}

/// Makes a change to each state of a table.
pub(crate) fn change(table: &mut Vec<Entry>, change: StateChange)
    ensures { table.new.items ≡ the_change (changing change) table.old.items }
{
    change_each(table.as_mut_slice(), change);
}

/// The state of a ROSpec, if it is in the table.
#[tactic(auto, unfolding(crate::specs::Table::state_of))]
pub(crate) fn state_of(table: &[Entry], id: u32) -> Option<RoState>
    ensures { result ≡ the_state_of id table.now }
{
    for entry in table {
        if id == entry.spec.settings().id {
            return Some(entry.state);
        }
    }
    None
}

/// Whether an id means one ROSpec of the table, or all (of which there may be none).
pub(crate) fn is_known(table: &[Entry], n: u32) -> bool
    ensures { result ≡ the_is_known n table.now }
{
    n == 0 || state_of(table, n).is_some()
}

/// The active ROSpec.
#[tactic(auto, unfolding(crate::specs::Table::active))]
pub(crate) fn active(table: &[Entry]) -> Option<&RoSpec>
    ensures { option_copied result ≡ the_active table.now }
{
    for entry in table {
        if entry.state == RoState::Active {
            return Some(&entry.spec);
        }
    }
    None
}

/// Whether a ROSpec is among those that `n` means, is Disabled, and starts by itself.
fn is_immediate(entry: &Entry, n: u32) -> bool
    ensures { result ≡ the_is_immediate n entry.now }
{
    let settings = entry.spec.settings();
    names(n, settings.id) && entry.state == RoState::Disabled && settings.start_trigger == 1
}

/// The id of the first ROSpec that `n` means, is Disabled and starts by itself.
#[tactic(auto, unfolding(crate::specs::Table::first_immediate))]
pub(crate) fn first_immediate(table: &[Entry], n: u32) -> Option<u32>
    ensures { result ≡ option_map (λ s. s.id) (the_first_immediate n table.now) }
{
    for entry in table {
        if is_immediate(entry, n) {
            return Some(entry.spec.settings().id);
        }
    }
    None
}

/// How many octets all ROSpecs have together.
#[tactic(auto, unfolding(crate::specs::Table::octets_of))]
pub(crate) fn octets_of(table: &[Entry]) -> u32
    requires { the_octets table.now < 2 ^ 32 }
    ensures { result ≡ the_octets table.now }
{
    let mut octets = 0;
    for entry in table {
        octets += entry.spec.settings().octets;
    }
    octets
}

/// Removes the ROSpecs that `n` means.
pub(crate) fn remove(table: &mut Vec<Entry>, n: u32)
    ensures { table.new.items ≡ the_without n table.old.items }
{
    table.retain(|entry| !names(n, entry.spec.settings().id));
}

/// Where a new ROSpec goes: before the first with a greater id.
#[tactic(auto, unfolding(crate::specs::Private::ReaderParts::place_of))]
fn place_of(table: &[Entry], id: u32) -> usize
    ensures { result ≡ the_place id table.now }
{
    let mut place = 0;
    for entry in table {
        if id < entry.spec.settings().id {
            return place;
        }
        place += 1;
    }
    place
}

/// Adds a new ROSpec, Disabled; there is room for it.
pub(crate) fn enter(table: &mut Vec<Entry>, spec: RoSpec)
    requires room { vec_len table.old < vec_capacity table.old }
    requires new { the_state_of spec.id table.old.items ≡ None }
    ensures { table.new.items ≡ the_enter spec table.old.items }
{
    let place = place_of(table.as_slice(), spec.settings().id);
    let entry = Entry {
        spec,
        state: RoState::Disabled,
    };
    match table.insert(place, entry) {
        Ok(()) => {}
        Err(_) => unreachable!(),
    }
}
