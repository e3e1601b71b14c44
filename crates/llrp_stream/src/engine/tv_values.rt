//! Reads the parameters of type and value of a TagReportData, each as one part, for both sets of kinds. Such children of other parameters are
//! read in the general way.

ghost use Rattle.std.specs.Prelude.{◌≡◌, ◌+◌, ◌/◌, ◌≤◌, IfErr, IfOk, IfSome, OnOk, length, true, false, Ok};
ghost use Rattle.llrp_schema.specs.declared.kinds.Kind.TheVariants.{Parameter};
ghost use Rattle.llrp_schema.specs.declared.kinds.KindSet.TheVariants.{Profile, Standard};
ghost use Rattle.llrp_schema.specs.Schema.{bits_of, fields_of, groups_of, is_tv};
ghost use Rattle.llrp_tree.specs.declared.TheConstants.{MAX_LIMIT};
ghost use Rattle.llrp_tree.specs.declared.fault.FrameErr.TheVariants.{Memory};
ghost use Rattle.llrp_tree.specs.Tree.{Forest};
ghost use Rattle.llrp_tree.specs.Private.Standing.{is_tv_kind};
ghost use Rattle.llrp_stream.specs.Calls.Reading.{AreSeen};
ghost use Rattle.llrp_stream.specs.Private.Reading.{AwaitsValues, BeginsValue, IsNextWhole, KeepsNode, TakesValues, octets_of_value, report_of};
ghost use Rattle.llrp_stream.specs.Private.Steps.{AreBefore, TakesAllFrom, TakesFrom};
ghost use Rattle.llrp_stream.specs.declared.engine.body_reader.Stage.TheVariants as Stage;

use crate::engine::body_reader::BodyReader;
use crate::engine::listener::Listener;
use crate::engine::stack::{Placed, child_kind};
use llrp_schema::{Kind, KindSet, ParamKind, param_of_tv_in};
use llrp_tree::FrameErr;
use llrp_tree::numbers::{from_octet, octet};

/// How many octets the value of a parameter of type and value has.
#[inline(always)]
#[tactic(auto, unfolding(llrp_schema::specs::Schema::fields_of, llrp_schema::specs::Schema::rule_of, llrp_schema::specs::Schema::param_rule))]
fn value_octets(kind: ParamKind) -> usize
    requires { is_tv kind ≡ true }
    ensures { result ≡ bits_of (fields_of (Parameter kind)) / 8 }
{
    match kind {
        ParamKind::PeakRssi | ParamKind::WholePeakRssi => 1,
        ParamKind::AntennaId
        | ParamKind::ChannelIndex
        | ParamKind::TagSeenCount
        | ParamKind::InventoryParameterSpecId
        | ParamKind::C1G2Crc
        | ParamKind::C1G2Pc
        | ParamKind::SpecIndex
        | ParamKind::WholeAntennaId
        | ParamKind::WholeChannelIndex
        | ParamKind::WholeTagSeenCount
        | ParamKind::WholeInventoryParameterSpecId
        | ParamKind::WholeC1G2Crc
        | ParamKind::WholeC1G2Pc
        | ParamKind::WholeSpecIndex
        | ParamKind::WholeC1g2xpcw1
        | ParamKind::WholeC1g2xpcw2 => 2,
        ParamKind::RoSpecId
        | ParamKind::AccessSpecId
        | ParamKind::WholeRoSpecId
        | ParamKind::WholeAccessSpecId => 4,
        ParamKind::FirstSeenTimestampUtc
        | ParamKind::FirstSeenTimestampUptime
        | ParamKind::LastSeenTimestampUtc
        | ParamKind::LastSeenTimestampUptime
        | ParamKind::WholeFirstSeenTimestampUtc
        | ParamKind::WholeFirstSeenTimestampUptime
        | ParamKind::WholeLastSeenTimestampUtc
        | ParamKind::WholeLastSeenTimestampUptime => 8,
        ParamKind::Epc96 | ParamKind::WholeEpc96 => 12,
        _ => width_octets(kind),
    }
}

/// How many octets the value of a parameter of type and value has, by the table of fields.
fn width_octets(kind: ParamKind) -> usize
    requires { is_tv kind ≡ true }
    ensures { result ≡ bits_of (fields_of (Parameter kind)) / 8 }
{
    llrp_schema::fields(Kind::Parameter(kind))[0].width as usize / 8
}

/// The set of kinds of which a node is the TagReportData.
#[inline(always)]
fn set_of_report(kind: Kind) -> Option<KindSet>
    ensures { IfSome result (λ set. kind ≡ Parameter (report_of set)) }
{
    match kind {
        Kind::Message(_) => None,
        Kind::Parameter(kind) => match kind {
            ParamKind::TagReportData => Some(KindSet::Profile),
            ParamKind::WholeTagReportData => Some(KindSet::Standard),
            _ => None,
        },
    }
}

/// The TagReportData of a set of kinds.
#[inline(always)]
fn report_of(set: KindSet) -> ParamKind
    ensures { result ≡ report_of set }
{
    match set {
        KindSet::Profile => ParamKind::TagReportData,
        KindSet::Standard => ParamKind::WholeTagReportData,
    }
}

/// The kind of the parameter of type and value of a set with which the octets begin, if they do.
#[inline(always)]
fn kind_of_value(set: KindSet, octets: &[u8], left: usize) -> Option<ParamKind>
    requires { left ≤ length octets.now }
    ensures { IfSome result (BeginsValue set octets.now) }
{
    if left == 0 {
        return None;
    }
    // No type is above 127, so an octet below 128 has none.
    param_of_tv_in(set, octet(octets, 0).wrapping_sub(128))
}

/// Reads a parameter of a kind by a copy of `value_of` for each kind of a list: in
/// such a copy the compiler knows its place, its width and its name.
macro_rules! at_kind {
    ($reader:ident, $listener:ident, $set:ident, $octets:ident, $left:ident, $kind:ident, [$($name:ident),*]) => {
        match $kind {
            $(ParamKind::$name => $reader.value_of($listener, $set, $octets, $left, ParamKind::$name),)*
            _ => Ok(0),
        }
    };
}

impl BodyReader {
    /// The next parameter of type and value, which has this kind, if it is allowed here and is whole in
    /// the octets that are left.
    #[inline(always)]
    fn next_value(
        &self,
        set: KindSet,
        octets: &[u8],
        left: usize,
        kind: ParamKind,
    ) -> Option<Placed>
        requires awaits { AwaitsValues set self.now octets.now left }
        requires begins { BeginsValue set octets.now kind }
        ensures next { IfSome result (IsNextWhole self.now octets.now) }
        ensures fits { IfSome result (λ child. octets_of_value child.kind ≤ left) }
    {
        let parent = Kind::Parameter(report_of(set));
        let Ok(placed) = child_kind(Some(kind), parent, self.top.seen, 2, 0, 0) else {
            return None;
        };
        let end = 1 + value_octets(placed.kind);
        if left < end {
            return None;
        }
        Some(placed)
    }

    /// Reads a parameter of type and value that is whole in the octets, and returns how many octets
    /// it has.
    #[inline(always)]
    fn value<L: Listener>(
        &mut self,
        listener: &mut L,
        octets: &[u8],
        child: Placed,
    ) -> Result<usize, FrameErr>
        requires stage { self.old.stage ≡ Stage.Children }
        requires stop { self.old.top.stop ≤ MAX_LIMIT }
        requires long { is_tv_kind self.old.top.kind ≡ false }
        requires second { length self.old.outer.items ≡ 1 }
        requires next { IsNextWhole self.old octets.now child }
        requires seen { (children : Forest)
            × AreSeen (groups_of self.old.top.kind) children self.old.top.seen.bits }
        ensures takes { OnOk result (TakesFrom (L.begins listener.old) (L.stands listener.old)
            (L.begins listener.new) (L.stands listener.new) self.old self.new octets.now
            (octets_of_value child.kind)) }
        ensures used { IfOk result (λ used. used ≡ octets_of_value child.kind) }
        ensures memory { IfErr result (λ error. error ≡ Memory) }
        ensures place { IfOk result (λ used. self.new.at ≡ self.old.at + used) }
        ensures keeps { KeepsNode self.old self.new }
    {
        let end = value_octets(child.kind);
        let value = from_octet(octets, 1, 8 * end as u32);
        listener.value(2, child.kind, value)?;
        self.top.seen = child.seen;
        self.at += 1 + end as u32;
        Ok(1 + end)
    }

    /// Reads the next parameter of type and value, which has this kind, if it is allowed here and is
    /// whole in the octets that are left. Returns how many octets it has, or 0.
    #[inline(always)]
    fn value_of<L: Listener>(
        &mut self,
        listener: &mut L,
        set: KindSet,
        octets: &[u8],
        left: usize,
        kind: ParamKind,
    ) -> Result<usize, FrameErr>
        requires awaits { AwaitsValues set self.old octets.now left }
        requires begins { BeginsValue set octets.now kind }
        ensures takes { TakesValues (L.begins listener.old) (L.stands listener.old)
            (L.begins listener.new) (L.stands listener.new) self.old self.new octets.now left
            result }
        ensures none { result ≡ Ok 0 → (self.new ≡ self.old) × (listener.new ≡ listener.old) }
    {
        let Some(child) = self.next_value(set, octets, left, kind) else {
            return Ok(0);
        };
        self.value(listener, octets, child)
    }

    /// Reads the next parameter of type and value of the profile, if one comes that is allowed here and
    /// is whole in the octets that are left. Returns how many octets it has, or 0.
    #[inline(always)]
    fn own_value<L: Listener>(
        &mut self,
        listener: &mut L,
        octets: &[u8],
        left: usize,
    ) -> Result<usize, FrameErr>
        requires awaits { AwaitsValues Profile self.old octets.now left }
        ensures takes { TakesValues (L.begins listener.old) (L.stands listener.old)
            (L.begins listener.new) (L.stands listener.new) self.old self.new octets.now left
            result }
        ensures none { result ≡ Ok 0 → (self.new ≡ self.old) × (listener.new ≡ listener.old) }
    {
        let set = KindSet::Profile;
        let Some(kind) = kind_of_value(set, octets, left) else {
            return Ok(0);
        };
        at_kind!(
            self,
            listener,
            set,
            octets,
            left,
            kind,
            [
                AntennaId,
                FirstSeenTimestampUtc,
                FirstSeenTimestampUptime,
                LastSeenTimestampUtc,
                LastSeenTimestampUptime,
                PeakRssi,
                ChannelIndex,
                TagSeenCount,
                RoSpecId,
                InventoryParameterSpecId,
                C1G2Crc,
                C1G2Pc,
                Epc96,
                SpecIndex,
                AccessSpecId
            ]
        )
    }

    /// Reads the next parameter of type and value of the whole standard in the same way.
    #[inline(always)]
    fn whole_value<L: Listener>(
        &mut self,
        listener: &mut L,
        octets: &[u8],
        left: usize,
    ) -> Result<usize, FrameErr>
        requires awaits { AwaitsValues Standard self.old octets.now left }
        ensures takes { TakesValues (L.begins listener.old) (L.stands listener.old)
            (L.begins listener.new) (L.stands listener.new) self.old self.new octets.now left
            result }
        ensures none { result ≡ Ok 0 → (self.new ≡ self.old) × (listener.new ≡ listener.old) }
    {
        let set = KindSet::Standard;
        let Some(kind) = kind_of_value(set, octets, left) else {
            return Ok(0);
        };
        at_kind!(
            self,
            listener,
            set,
            octets,
            left,
            kind,
            [
                WholeAntennaId,
                WholeFirstSeenTimestampUtc,
                WholeFirstSeenTimestampUptime,
                WholeLastSeenTimestampUtc,
                WholeLastSeenTimestampUptime,
                WholePeakRssi,
                WholeChannelIndex,
                WholeTagSeenCount,
                WholeRoSpecId,
                WholeInventoryParameterSpecId,
                WholeC1G2Crc,
                WholeC1G2Pc,
                WholeEpc96,
                WholeSpecIndex,
                WholeAccessSpecId,
                WholeC1g2xpcw1,
                WholeC1g2xpcw2
            ]
        )
    }

    /// Reads the next parameter of type and value, if one comes that is allowed here and is whole in
    /// the octets that are left. Returns how many octets it has, or 0.
    #[inline(always)]
    fn any_value<L: Listener>(
        &mut self,
        listener: &mut L,
        set: KindSet,
        octets: &[u8],
        left: usize,
    ) -> Result<usize, FrameErr>
        requires awaits { AwaitsValues set self.old octets.now left }
        ensures takes { TakesValues (L.begins listener.old) (L.stands listener.old)
            (L.begins listener.new) (L.stands listener.new) self.old self.new octets.now left
            result }
        ensures none { result ≡ Ok 0 → (self.new ≡ self.old) × (listener.new ≡ listener.old) }
    {
        match set {
            KindSet::Profile => self.own_value(listener, octets, left),
            KindSet::Standard => self.whole_value(listener, octets, left),
        }
    }

    /// Reads all parameters of type and value that come next and are whole in the octets that are left,
    /// and returns how many octets they have.
    #[inline(always)]
    fn all_values<L: Listener>(
        &mut self,
        listener: &mut L,
        set: KindSet,
        octets: &[u8],
        near: usize,
    ) -> Result<usize, FrameErr>
        requires awaits { AwaitsValues set self.old octets.now near }
        requires some { AreBefore (L.begins listener.old) (L.stands listener.old) self.old
            octets.now }
        ensures takes { TakesValues (L.begins listener.old) (L.stands listener.old)
            (L.begins listener.new) (L.stands listener.new) self.old self.new octets.now near
            result }
        ensures none { result ≡ Ok 0 → (self.new ≡ self.old) × (listener.new ≡ listener.old) }
    {
        let mut rest = octets;
        let mut left = near;
        'values: loop {
            let used = self.any_value(listener, set, rest, left)?;
            if used == 0 {
                return Ok(near - left);
            }
            rest = rest.split_at(used).1;
            left -= used;
        }
    }

    /// The same for the whole standard, by a call, so that the reader of the profile's frames stays small.
    #[inline(never)]
    fn whole_values<L: Listener>(
        &mut self,
        listener: &mut L,
        octets: &[u8],
        near: usize,
    ) -> Result<usize, FrameErr>
        requires awaits { AwaitsValues Standard self.old octets.now near }
        requires some { AreBefore (L.begins listener.old) (L.stands listener.old) self.old
            octets.now }
        ensures takes { TakesValues (L.begins listener.old) (L.stands listener.old)
            (L.begins listener.new) (L.stands listener.new) self.old self.new octets.now near
            result }
        ensures none { result ≡ Ok 0 → (self.new ≡ self.old) × (listener.new ≡ listener.old) }
    {
        self.all_values(listener, KindSet::Standard, octets, near)
    }

    /// Reads all parameters of type and value that come next and are whole in the octets, and
    /// returns how many octets they have.
    #[inline(always)]
    pub(crate) fn values<L: Listener>(
        &mut self,
        listener: &mut L,
        octets: &[u8],
    ) -> Result<usize, FrameErr>
        requires stage { self.old.stage ≡ Stage.Children }
        requires stop { self.old.top.stop ≤ MAX_LIMIT }
        requires before { self.old.at ≤ self.old.top.stop }
        requires some { AreBefore (L.begins listener.old) (L.stands listener.old) self.old
            octets.now }
        ensures takes { TakesAllFrom (L.begins listener.old) (L.stands listener.old)
            (L.begins listener.new) (L.stands listener.new) self.old self.new octets.now result }
        ensures none { result ≡ Ok 0 → (self.new ≡ self.old) × (listener.new ≡ listener.old) }
        ensures keeps { KeepsNode self.old self.new }
    {
        let Some(set) = set_of_report(self.top.kind) else {
            return Ok(0);
        };
        if self.outer.len() != 1 {
            return Ok(0);
        }
        let near = octets.len().min((self.top.stop - self.at) as usize);
        match set {
            KindSet::Profile => self.all_values(listener, KindSet::Profile, octets, near),
            KindSet::Standard => {
                let used = self.whole_values(listener, octets, near)?;
                Ok(used)
            }
        }
    }
}
