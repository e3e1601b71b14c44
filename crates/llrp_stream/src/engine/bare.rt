//! Begins the most frequent children of messages, which have neither fields nor a tail, in one step.
//! `BodyReader::begin` is the general way. Here the kind is known, so the compiler knows its place and its name, and
//! the head, the fields and the tail are one step in place of three.

ghost use Rattle.std.specs.Prelude.{◌≡◌, ◌<◌, ◌≤◌, ℕ, List, IfErr, IfOk, OnOk, Ok, Some, length, true, false};
ghost use Rattle.llrp_schema.specs.declared.kinds.Kind.TheVariants.{Message, Parameter};
ghost use Rattle.llrp_schema.specs.declared.kinds.MsgKind.TheVariants.{WholeRoAccessReport};
ghost use Rattle.llrp_schema.specs.declared.kinds.ParamKind.TheVariants.{ReaderEventNotificationData};
ghost use Rattle.llrp_schema.specs.declared.kinds.Tail.TheVariants.{Absent};
ghost use Rattle.llrp_schema.specs.Schema.{fields_of, set_of_kind, tail_of, tlv_in};
ghost use Rattle.llrp_tree.specs.declared.TheConstants.{MAX_LIMIT};
ghost use Rattle.llrp_tree.specs.declared.fault.FrameErr.TheVariants.{Memory};
ghost use Rattle.llrp_tree.specs.Private.Standing.{is_tv_kind};
ghost use Rattle.llrp_stream.specs.Private.Reading.{IsBare, Rests};
ghost use Rattle.llrp_stream.specs.Private.Steps.{FailsOn, HasCome, MovesOn, StepsOn};
ghost use Rattle.llrp_stream.specs.declared.engine.body_reader.Stage.TheVariants as Stage;

use crate::engine::body_reader::{BodyReader, Stage, Step};
use crate::engine::listener::Listener;
use crate::engine::stack::{Placed, known_head};
use llrp_schema::{Kind, MsgKind, ParamKind};
use llrp_tree::FrameErr;
use llrp_tree::numbers::word;

/// Whether a node is a ReaderEventNotificationData.
#[inline(always)]
fn is_event_data(kind: Kind) -> bool
    ensures { result ≡ true → kind ≡ Parameter ReaderEventNotificationData }
{
    match kind {
        Kind::Message(_) => false,
        Kind::Parameter(kind) => match kind {
            ParamKind::ReaderEventNotificationData => true,
            _ => false,
        },
    }
}

impl BodyReader {
    /// Ends the leading parts of the innermost node, which has neither fields nor a tail.
    #[inline(always)]
    fn bare<L: Listener>(&mut self, listener: &mut L) -> Result<(), FrameErr>
        requires stage { self.old.stage ≡ Stage.Leading 0 }
        requires bare { IsBare self.old.top.kind }
        ensures moves { OnOk result ((octets : List ℕ) → MovesOn (L.begins listener.old)
            (L.begins listener.new) (L.stands listener.new) self.old self.new octets 0) }
        ensures memory { IfErr result (λ error. error ≡ Memory) }
        ensures stage { OnOk result (self.new.stage ≡ Stage.Children) }
        ensures top { self.new.top ≡ self.old.top }
        ensures place { self.new.at ≡ self.old.at }
    {
        listener.ready()?;
        self.stage = Stage::Children;
        Ok(())
    }

    /// Begins a child of the message that has neither fields nor a tail, if it comes next, its head is
    /// whole and it passes its checks. Returns how many octets its head has, or 0.
    #[inline(always)]
    fn begin_bare<L: Listener>(
        &mut self,
        listener: &mut L,
        octets: &[u8],
        parent: Kind,
        number: u16,
        kind: ParamKind,
    ) -> Result<usize, FrameErr>
        requires stage { self.old.stage ≡ Stage.Children }
        requires stop { self.old.top.stop ≤ MAX_LIMIT }
        requires some { HasCome (L.stands listener.old) self.old }
        requires room { self.old.at < self.old.top.stop }
        requires long { is_tv_kind self.old.top.kind ≡ false }
        requires parent { self.old.top.kind ≡ parent }
        requires first { length self.old.outer.items ≡ 0 }
        requires known { tlv_in (set_of_kind parent) number ≡ Some kind }
        requires few { number < 1024 }
        requires bare { IsBare (Parameter kind) }
        ensures moves { IfOk result (λ used. 0 < used → MovesOn (L.stands listener.old)
            (L.begins listener.new) (L.stands listener.new) self.old self.new octets.now used) }
        ensures none { result ≡ Ok 0 → (self.new ≡ self.old) × (listener.new ≡ listener.old) }
        ensures fails { IfErr result (FailsOn (L.stands listener.old) (L.begins listener.new)
            (L.stands listener.new) self.old self.new octets.now) }
        ensures rests { IfOk result (λ used. Rests self.new) }
    {
        let found = known_head(
            octets,
            self.at as usize,
            self.top.stop as usize,
            parent,
            self.top.seen,
            1,
            number,
            kind,
        )?;
        let Some((seen, size)) = found else {
            return Ok(0);
        };
        let stop = self.at + size as u32;
        self.enter(listener, Placed { kind, seen }, 4, stop)?;
        self.bare(listener)?;
        Ok(4)
    }

    /// Begins a tag report of the whole standard in the same way, by a call, so that the reader of the profile's
    /// frames stays small.
    #[inline(never)]
    fn begin_whole_report<L: Listener>(
        &mut self,
        listener: &mut L,
        octets: &[u8],
    ) -> Result<usize, FrameErr>
        requires stage { self.old.stage ≡ Stage.Children }
        requires stop { self.old.top.stop ≤ MAX_LIMIT }
        requires some { HasCome (L.stands listener.old) self.old }
        requires room { self.old.at < self.old.top.stop }
        requires long { is_tv_kind self.old.top.kind ≡ false }
        requires parent { self.old.top.kind ≡ Message WholeRoAccessReport }
        requires first { length self.old.outer.items ≡ 0 }
        ensures moves { IfOk result (λ used. 0 < used → MovesOn (L.stands listener.old)
            (L.begins listener.new) (L.stands listener.new) self.old self.new octets.now used) }
        ensures none { result ≡ Ok 0 → (self.new ≡ self.old) × (listener.new ≡ listener.old) }
        ensures fails { IfErr result (FailsOn (L.stands listener.old) (L.begins listener.new)
            (L.stands listener.new) self.old self.new octets.now) }
        ensures rests { IfOk result (λ used. Rests self.new) }
    {
        self.begin_bare(
            listener,
            octets,
            Kind::Message(MsgKind::WholeRoAccessReport),
            240,
            ParamKind::WholeTagReportData,
        )
    }

    /// Begins the one child of the most frequent messages, if it comes next, its head is whole and it
    /// passes its checks. Returns how many octets its head has, or 0.
    #[inline(always)]
    pub(crate) fn begin_known<L: Listener>(
        &mut self,
        listener: &mut L,
        octets: &[u8],
    ) -> Result<usize, FrameErr>
        requires stage { self.old.stage ≡ Stage.Children }
        requires stop { self.old.top.stop ≤ MAX_LIMIT }
        requires some { HasCome (L.stands listener.old) self.old }
        requires room { self.old.at < self.old.top.stop }
        requires long { is_tv_kind self.old.top.kind ≡ false }
        ensures moves { IfOk result (λ used. 0 < used → MovesOn (L.stands listener.old)
            (L.begins listener.new) (L.stands listener.new) self.old self.new octets.now used) }
        ensures none { result ≡ Ok 0 → (self.new ≡ self.old) × (listener.new ≡ listener.old) }
        ensures fails { IfErr result (FailsOn (L.stands listener.old) (L.begins listener.new)
            (L.stands listener.new) self.old self.new octets.now) }
        ensures rests { IfOk result (λ used. Rests self.new) }
    {
        if !self.outer.is_empty() {
            return Ok(0);
        }
        let Kind::Message(kind) = self.top.kind else {
            return Ok(0);
        };
        match kind {
            MsgKind::RoAccessReport => self.begin_bare(
                listener,
                octets,
                Kind::Message(MsgKind::RoAccessReport),
                240,
                ParamKind::TagReportData,
            ),
            MsgKind::WholeRoAccessReport => {
                let used = self.begin_whole_report(listener, octets)?;
                Ok(used)
            }
            MsgKind::ReaderEventNotification => self.begin_bare(
                listener,
                octets,
                Kind::Message(MsgKind::ReaderEventNotification),
                246,
                ParamKind::ReaderEventNotificationData,
            ),
            _ => Ok(0),
        }
    }

    /// Begins a child of a known kind, if it comes next, its head is whole and it passes its checks.
    /// Returns how many octets its head has, or 0.
    #[inline(always)]
    fn begin_kind<L: Listener>(
        &mut self,
        listener: &mut L,
        octets: &[u8],
        parent: Kind,
        number: u16,
        kind: ParamKind,
    ) -> Result<usize, FrameErr>
        requires stage { self.old.stage ≡ Stage.Children }
        requires stop { self.old.top.stop ≤ MAX_LIMIT }
        requires some { HasCome (L.stands listener.old) self.old }
        requires room { self.old.at < self.old.top.stop }
        requires long { is_tv_kind self.old.top.kind ≡ false }
        requires parent { self.old.top.kind ≡ parent }
        requires second { length self.old.outer.items ≡ 1 }
        requires known { tlv_in (set_of_kind parent) number ≡ Some kind }
        requires few { number < 1024 }
        ensures moves { IfOk result (λ used. 0 < used → MovesOn (L.stands listener.old)
            (L.begins listener.new) (L.stands listener.new) self.old self.new octets.now used) }
        ensures none { result ≡ Ok 0 → (self.new ≡ self.old) × (listener.new ≡ listener.old) }
        ensures fails { IfErr result (FailsOn (L.stands listener.old) (L.begins listener.new)
            (L.stands listener.new) self.old self.new octets.now) }
    {
        let found = known_head(
            octets,
            self.at as usize,
            self.top.stop as usize,
            parent,
            self.top.seen,
            2,
            number,
            kind,
        )?;
        let Some((seen, size)) = found else {
            return Ok(0);
        };
        let stop = self.at + size as u32;
        self.enter(listener, Placed { kind, seen }, 4, stop)?;
        Ok(4)
    }

    /// Begins one of the two children that most events have, if it comes next, its head is whole and
    /// it passes its checks. Returns how many octets its head has, or 0.
    #[inline(always)]
    fn begin_in_event<L: Listener>(
        &mut self,
        listener: &mut L,
        octets: &[u8],
    ) -> Result<usize, FrameErr>
        requires stage { self.old.stage ≡ Stage.Children }
        requires stop { self.old.top.stop ≤ MAX_LIMIT }
        requires some { HasCome (L.stands listener.old) self.old }
        requires room { self.old.at < self.old.top.stop }
        requires long { is_tv_kind self.old.top.kind ≡ false }
        ensures moves { IfOk result (λ used. 0 < used → MovesOn (L.stands listener.old)
            (L.begins listener.new) (L.stands listener.new) self.old self.new octets.now used) }
        ensures none { result ≡ Ok 0 → (self.new ≡ self.old) × (listener.new ≡ listener.old) }
        ensures fails { IfErr result (FailsOn (L.stands listener.old) (L.begins listener.new)
            (L.stands listener.new) self.old self.new octets.now) }
    {
        let is_event = is_event_data(self.top.kind);
        if !is_event || self.outer.len() != 1 || octets.len() < 2 {
            return Ok(0);
        }
        let parent = Kind::Parameter(ParamKind::ReaderEventNotificationData);
        match word(octets, 0) {
            128 => self.begin_kind(listener, octets, parent, 128, ParamKind::UtcTimestamp),
            249 => self.begin_kind(listener, octets, parent, 249, ParamKind::RoSpecEvent),
            _ => Ok(0),
        }
    }

    /// Begins a child of the innermost node.
    #[inline(always)]
    pub(crate) fn begin_any<L: Listener>(
        &mut self,
        listener: &mut L,
        octets: &[u8],
    ) -> Result<Step, FrameErr>
        requires stage { self.old.stage ≡ Stage.Children }
        requires stop { self.old.top.stop ≤ MAX_LIMIT }
        requires some { HasCome (L.stands listener.old) self.old }
        requires room { self.old.at < self.old.top.stop }
        requires long { is_tv_kind self.old.top.kind ≡ false }
        ensures { StepsOn (L.stands listener.old) (L.begins listener.new) (L.stands listener.new)
            self.old self.new octets.now result }
    {
        let head = self.begin_in_event(listener, octets)?;
        if head > 0 {
            return Ok(Step::Goes(head));
        }
        let step = self.begin(listener, octets)?;
        Ok(step)
    }
}
