//! The beginning of a frame whose header is whole, and its end.

ghost use Rattle.std.specs.Prelude.{◌≡◌, ◌≤◌, ℕ, List, [], length, OnOk, Ok, true, false};
ghost use Rattle.llrp_schema.specs.declared.kinds.Kind.TheVariants.{Message};
ghost use Rattle.llrp_schema.specs.declared.kinds.Tail.TheVariants.{Absent};
ghost use Rattle.llrp_schema.specs.Schema.{fields_of, groups_of, tail_of};
ghost use Rattle.llrp_tree.specs.OpenTree.{is_enough};
ghost use Rattle.llrp_tree.specs.declared.TheConstants.{MAX_LIMIT};
ghost use Rattle.llrp_tree.specs.Tree.{none};
ghost use Rattle.llrp_tree.specs.Lawful.{AreOctets};
ghost use Rattle.llrp_tree.specs.Calls.Header.{HasHeaderIn};
ghost use Rattle.llrp_stream.specs.Private.Frames.{FinishesFrom, IsWithin, ReceivesFrom, StartsFrom};

use crate::engine::body::Body;
use crate::engine::body_reader::{BodyReader, Stage};
use crate::engine::listener::Listener;
use crate::engine::stack::begun;
use llrp_schema::{Kind, MsgKind};
use llrp_tree::{HEADER_OCTETS, Header};
use std::alloc::AllocError;

/// Whether a message is one of those that come most often with children, which have neither fields nor a tail.
#[inline(always)]
#[tactic(auto, unfolding(llrp_schema::specs::Schema::fields_of, llrp_schema::specs::Schema::tail_of, llrp_schema::specs::Schema::rule_of, llrp_schema::specs::Schema::message_rule))]
fn is_bare(kind: MsgKind) -> bool
    ensures fields { result ≡ true → fields_of (Message kind) ≡ [] }
    ensures tail { result ≡ true → tail_of (Message kind) ≡ Absent }
{
    match kind {
        MsgKind::RoAccessReport => true,
        MsgKind::ReaderEventNotification => true,
        _ => false,
    }
}

/// Begins a frame with this header. The line of a bare message is ended at once.
#[inline(always)]
pub(crate) fn start<L: Listener>(
    body: &mut Body,
    listener: &mut L,
    header: &Header,
) -> Result<(), AllocError>
    requires least { 10 ≤ header.now.octets }
    requires told { (was : List ℕ) × L.stands listener.old was [] }
    requires raw { body.old.raw.items ≡ [] }
    ensures set { body.new.reader.set ≡ body.old.reader.set }
    ensures stands { OnOk result (StartsFrom (L.stands listener.old) (L.begins listener.new)
        (L.stands listener.new) body.old body.new header.now) }
{
    listener.message(header.version, header.kind, header.octets, header.id)?;
    body.reader.octets = header.octets;
    body.reader.at = HEADER_OCTETS as u32;
    body.reader.bit = 0;
    body.reader.first = 0;
    body.reader.stage = Stage::Leading(0);
    body.reader.top = begun(Kind::Message(header.kind), header.octets);
    body.reader.outer.clear();
    let bare = is_bare(header.kind);
    if bare {
        listener.ready()?;
        body.reader.stage = Stage::Children;
        return Ok(());
    }
    Ok(())
}

/// Whether a message is a frequent one that has neither fields nor a tail and needs no child, so that it may end with its header.
#[inline(always)]
#[tactic(auto, unfolding(llrp_schema::specs::Schema::fields_of, llrp_schema::specs::Schema::tail_of, llrp_schema::specs::Schema::groups_of, llrp_schema::specs::Schema::rule_of, llrp_schema::specs::Schema::message_rule, llrp_tree::specs::OpenTree::is_enough))]
fn may_be_bare(kind: MsgKind) -> bool
    ensures fields { result ≡ true → fields_of (Message kind) ≡ [] }
    ensures tail { result ≡ true → tail_of (Message kind) ≡ Absent }
    ensures enough { result ≡ true → is_enough (groups_of (Message kind)) none ≡ true }
{
    match kind {
        MsgKind::Keepalive => true,
        MsgKind::KeepaliveAck => true,
        _ => false,
    }
}

/// Receives a message that ends with its header, if it may. Returns whether it was received. The engine
/// would receive it too; this spares a KEEPALIVE its steps.
#[inline(always)]
pub(crate) fn receive_bare<L: Listener>(
    _reader: &BodyReader,
    listener: &mut L,
    header: &Header,
) -> Result<bool, AllocError>
    requires told { (was : List ℕ) × L.stands listener.old was [] }
    requires says { (bytes : List ℕ) × (limit : ℕ) × (length bytes ≡ 10)
        × HasHeaderIn _reader.now.set limit bytes header.now × AreOctets bytes
        × (limit ≤ MAX_LIMIT) }
    ensures ends { result ≡ Ok true → header.now.octets ≡ 10 }
    ensures gives { result ≡ Ok true → ReceivesFrom _reader.now.set (L.stands listener.old)
        (L.stands listener.new) (L.ends listener.new) header.now }
    ensures none { result ≡ Ok false → listener.new ≡ listener.old }
{
    let bare = may_be_bare(header.kind);
    if !bare || header.octets != HEADER_OCTETS as u32 {
        return Ok(false);
    }
    listener.message(header.version, header.kind, header.octets, header.id)?;
    listener.ready()?;
    listener.end()?;
    Ok(true)
}

/// Ends a message that was read completely.
#[inline(always)]
pub(crate) fn finish<L: Listener>(reader: &BodyReader, listener: &mut L) -> Result<(), AllocError>
    requires { IsWithin (L.stands listener.old) reader.now }
    ensures { OnOk result (FinishesFrom (L.stands listener.old) (L.stands listener.new)
        (L.ends listener.new) reader.now) }
{
    listener.end()?;
    let _ = reader.octets;
    Ok(())
}
