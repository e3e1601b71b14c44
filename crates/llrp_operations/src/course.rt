//! The course of operations on one tag: what a client says to a reader, in which order, and what ends it.

ghost use Rattle.std.specs.Prelude.{◌≡◌, [], OnOk};
ghost use Rattle.llrp_operations.specs.Calls.Course as course;
ghost use Rattle.llrp_operations.specs.Calls.Course.{course_of};
ghost use Rattle.llrp_operations.specs.Private.Sights.{TakesNote, TakesSight};

use std::alloc::{AllocError, Global};

/// What a client asks of a reader, in this order.
#[derive(Clone, Copy, Debug, PartialEq, Eq)]
pub enum Demand {
    /// DELETE_ACCESSSPEC, of one that an earlier client left.
    ClearAccess,
    /// DELETE_ROSPEC, of one that an earlier client left.
    ClearInventory,
    AddInventory,
    EnableInventory,
    StartInventory,
    AddAccess,
    EnableAccess,
    /// DELETE_ACCESSSPEC, which may have ended by its count.
    RemoveAccess,
    RemoveInventory,
    Close,
}

/// What a client says.
#[derive(Clone, Copy, Debug, PartialEq, Eq)]
pub enum Saying {
    Asks(Demand),
    /// KEEPALIVE_ACK, with this id.
    Acknowledges(u32),
}

/// How far a client is.
#[derive(Clone, Copy, Debug, PartialEq, Eq)]
pub enum Stage {
    /// It waits until the reader accepts it.
    Accepting,
    /// It waits for the answer.
    Asking(Demand),
    /// It waits for a first tag.
    Seeking,
    /// It waits for further tags, for a time.
    Settling,
    /// It waits for the results.
    Operating,
    /// The connection is closed, or was not accepted.
    Ended,
    /// The connection is lost, or the reader silent.
    Lost,
}

/// What comes of it.
#[derive(Clone, Copy, Debug, PartialEq, Eq)]
pub enum Outcome {
    /// A tag was operated on, as its report says.
    Reported,
    /// The reader refused something with this status; nothing was done.
    Refused(u16),
    /// With this status it refused an AccessSpec of two C1G2TargetTags, which it may not take; nothing was done.
    RefusedTargets(u16),
    /// More than one tag was there that might be meant; nothing was done.
    Several,
    /// The tag that came has no EPC by which it can be named; nothing was done.
    NoEpc,
    /// No tag came, and none was changed.
    NoTag,
    /// The AccessSpec was enabled, and no results came: the tag may have been changed, or not.
    Unknown,
    /// The connection was lost; nothing was changed.
    Broken,
}

/// What a client hears.
#[derive(Clone, Copy)]
pub enum Heard<'a> {
    /// With which status the reader accepts the client, or does not.
    Accepts(u16),
    /// With which status it answers what was asked last.
    Answers(u16),
    /// KEEPALIVE, with this id.
    Keepalive(u32),
    /// The tag with this EPC was seen; of no octets where it has none by which it can be named.
    Sees(&'a [u8]),
    /// The results of the client's own AccessSpec came.
    Results,
}

/// A client that operates on one tag. Contracts see it with what it has said.
#[derive(Drop)]
pub struct Course<'a> {
    alloc: Global,
    /// The EPC of the tag; of no octets for any.
    mask: &'a [u8],
    /// Whether the tag is changed: then an inventory comes before that.
    changes: bool,
    stage: Stage,
    /// The first EPC that the mask selects.
    seen: Option<Vec<u8>>,
    /// Whether it selects another one too.
    several: bool,
    refused: Option<u16>,
    /// What was refused is the AccessSpec, which has two C1G2TargetTags.
    refused_targets: bool,
    /// ENABLE_ACCESSSPEC was said.
    armed: bool,
    reported: bool,
}

/// Whether a demand enables the AccessSpec.
fn arms(demand: Demand) -> bool
    ensures { result ≡ course.arms demand }
{
    matches!(demand, Demand::EnableAccess)
}

/// Whether a status other than 0 is passed over: there may be nothing to be deleted.
fn tolerates(demand: Demand) -> bool
    ensures { result ≡ course.tolerates demand }
{
    match demand {
        Demand::ClearAccess | Demand::ClearInventory => true,
        Demand::RemoveAccess | Demand::RemoveInventory | Demand::Close => true,
        Demand::AddInventory | Demand::EnableInventory | Demand::StartInventory => false,
        Demand::AddAccess | Demand::EnableAccess => false,
    }
}

/// Whether tags are counted now.
fn looks(stage: Stage) -> bool
    ensures { result ≡ course.looks stage }
{
    match stage {
        Stage::Asking(Demand::StartInventory) | Stage::Seeking | Stage::Settling => true,
        _ => false,
    }
}

/// Where tags are counted after one was.
fn settled(stage: Stage) -> Stage
    ensures { result ≡ course.settled stage }
{
    match stage {
        Stage::Seeking => Stage::Settling,
        other => other,
    }
}

/// Whether the connection stands.
pub(crate) fn stands(stage: Stage) -> bool
    ensures { result ≡ course.stands stage }
{
    !matches!(stage, Stage::Ended | Stage::Lost)
}

impl<'a> Course<'a> {
    /// A client that is connected, and operates on the tag with this EPC, or with one of no octets on any
    /// tag.
    pub fn new(alloc: Global, mask: &'a [u8], changes: bool) -> Course<'a>
        ensures { course_of result [] ≡ course.first_course mask.now changes }
    {
        Course {
            alloc,
            mask,
            changes,
            stage: Stage::Accepting,
            seen: None,
            several: false,
            refused: None,
            refused_targets: false,
            armed: false,
            reported: false,
        }
    }

    /// How far it is.
    pub fn stage(&self) -> Stage
        ensures { result ≡ self.now.stage }
    {
        self.stage
    }

    /// Whether the results came.
    pub fn is_reported(&self) -> bool
        ensures { result ≡ self.now.reported }
    {
        self.reported
    }

    /// The EPC of the tag that is operated on: the one that was seen, or else the mask.
    pub fn target(&self) -> &[u8]
        ensures { result.now ≡ course.target (course_of self.now []) }
    {
        match &self.seen {
            Some(epc) => epc.as_slice(),
            None => self.mask,
        }
    }

    /// The first EPC that was seen, if one was.
    pub(crate) fn into_seen(self) -> Option<Vec<u8>>
        ensures { result ≡ self.entry.seen }
    {
        self.seen
    }

    /// Says a demand.
    fn say(&mut self, demand: Demand, out: &mut Vec<Saying>) -> Result<(), AllocError>
        ensures { OnOk result (course_of self.new out.new.items ≡ course.say demand (course_of self.old out.old.items)) }
    {
        out.push(Saying::Asks(demand))?;
        self.stage = Stage::Asking(demand);
        self.armed = self.armed || arms(demand);
        Ok(())
    }

    /// Goes on once the inventory runs.
    fn look(&mut self, out: &mut Vec<Saying>) -> Result<(), AllocError>
        ensures { OnOk result (course_of self.new out.new.items ≡ course.look (course_of self.old out.old.items)) }
    {
        if !self.changes {
            return self.say(Demand::AddAccess, out);
        }
        self.stage = if self.seen.is_some() {
            Stage::Settling
        } else {
            Stage::Seeking
        };
        Ok(())
    }

    /// Goes on once the AccessSpec is enabled.
    fn operate(&mut self, out: &mut Vec<Saying>) -> Result<(), AllocError>
        ensures { OnOk result (course_of self.new out.new.items ≡ course.operate (course_of self.old out.old.items)) }
    {
        if self.reported {
            return self.say(Demand::RemoveAccess, out);
        }
        self.stage = Stage::Operating;
        Ok(())
    }

    /// Goes on after a demand was granted.
    fn go_on(&mut self, demand: Demand, out: &mut Vec<Saying>) -> Result<(), AllocError>
        ensures { OnOk result (course_of self.new out.new.items ≡ course.granted demand (course_of self.old out.old.items)) }
    {
        match demand {
            Demand::ClearAccess => self.say(Demand::ClearInventory, out),
            Demand::ClearInventory => self.say(Demand::AddInventory, out),
            Demand::AddInventory => self.say(Demand::EnableInventory, out),
            Demand::EnableInventory => self.say(Demand::StartInventory, out),
            Demand::StartInventory => self.look(out),
            Demand::AddAccess => self.say(Demand::EnableAccess, out),
            Demand::EnableAccess => self.operate(out),
            Demand::RemoveAccess => self.say(Demand::RemoveInventory, out),
            Demand::RemoveInventory => self.say(Demand::Close, out),
            Demand::Close => {
                self.stage = Stage::Ended;
                Ok(())
            }
        }
    }

    /// Whether a demand is for an AccessSpec that names its tag, by two C1G2TargetTags.
    fn names_tag(&self, demand: Demand) -> bool
        ensures { result ≡ course.names_tag demand (course_of self.now []) }
    {
        matches!(demand, Demand::AddAccess) && !self.target().is_empty()
    }

    /// Takes the answer to a demand.
    fn take_answer(
        &mut self,
        demand: Demand,
        status: u16,
        out: &mut Vec<Saying>,
    ) -> Result<(), AllocError>
        ensures { OnOk result (course_of self.new out.new.items ≡ course.answered demand status (course_of self.old out.old.items)) }
    {
        if status == 0 || tolerates(demand) {
            return self.go_on(demand, out);
        }
        self.refused_targets = self.names_tag(demand);
        self.refused = Some(status);
        self.say(Demand::RemoveAccess, out)
    }

    /// Takes the answer to what was asked last, if something was.
    fn answer(&mut self, status: u16, out: &mut Vec<Saying>) -> Result<(), AllocError>
        ensures { OnOk result (course_of self.new out.new.items ≡ course.answer self.old.stage status (course_of self.old out.old.items)) }
    {
        match self.stage {
            Stage::Asking(demand) => self.take_answer(demand, status, out),
            _ => Ok(()),
        }
    }

    /// Takes the status with which the reader accepts the client, or does not.
    fn accept(&mut self, status: u16, out: &mut Vec<Saying>) -> Result<(), AllocError>
        ensures { OnOk result (course_of self.new out.new.items ≡ course.accept self.old.stage status (course_of self.old out.old.items)) }
    {
        match self.stage {
            Stage::Accepting if status == 0 => self.say(Demand::ClearAccess, out),
            Stage::Accepting => {
                self.refused = Some(status);
                self.stage = Stage::Ended;
                Ok(())
            }
            _ => Ok(()),
        }
    }

    /// Takes note of a tag that the mask selects.
    fn note(&mut self, epc: &[u8]) -> Result<(), AllocError>
        ensures { OnOk result (TakesNote epc.now self.old self.new) }
    {
        match &self.seen {
            Some(first) => {
                if first.as_slice() != epc {
                    self.several = true;
                }
            }
            None => self.seen = Some(epc.to_vec(self.alloc)?),
        }
        Ok(())
    }

    /// Takes a tag that was seen.
    fn see(&mut self, epc: &[u8]) -> Result<(), AllocError>
        ensures { OnOk result (TakesSight epc.now self.old self.new) }
    {
        let is_counted = self.changes && looks(self.stage) && epc.starts_with(self.mask);
        if is_counted {
            self.note(epc)?;
            self.stage = settled(self.stage);
        }
        Ok(())
    }

    /// Takes the results of the AccessSpec.
    fn finish(&mut self, out: &mut Vec<Saying>) -> Result<(), AllocError>
        ensures { OnOk result (course_of self.new out.new.items ≡ course.finish (course_of self.old out.old.items)) }
    {
        if !self.armed {
            return Ok(());
        }
        self.reported = true;
        match self.stage {
            Stage::Operating => self.say(Demand::RemoveAccess, out),
            _ => Ok(()),
        }
    }

    /// Acknowledges a KEEPALIVE.
    fn acknowledge(&mut self, id: u32, out: &mut Vec<Saying>) -> Result<(), AllocError>
        ensures { OnOk result (course_of self.new out.new.items ≡ course.acknowledge id (course_of self.old out.old.items)) }
    {
        if stands(self.stage) {
            out.push(Saying::Acknowledges(id))?;
        }
        Ok(())
    }

    /// Takes what came, and appends what is said then. The error is that memory ran out, after which the
    /// client takes nothing more.
    pub fn hear(&mut self, heard: Heard<'_>, out: &mut Vec<Saying>) -> Result<(), AllocError>
        ensures { OnOk result (course_of self.new out.new.items ≡ course.hear heard.entry (course_of self.old out.old.items)) }
    {
        match heard {
            Heard::Accepts(status) => self.accept(status, out),
            Heard::Answers(status) => self.answer(status, out),
            Heard::Keepalive(id) => self.acknowledge(id, out),
            Heard::Sees(epc) => self.see(epc),
            Heard::Results => self.finish(out),
        }
    }

    /// Whether the one tag that was seen can be named, and is the one that is meant.
    fn is_alone(&self) -> bool
        ensures { result ≡ course.is_alone self.now.mask.now (course_of self.now []).seen self.now.several }
    {
        match &self.seen {
            Some(epc) => {
                let is_meant = self.mask.is_empty() || self.mask == epc.as_slice();
                !self.several && !epc.is_empty() && is_meant
            }
            None => false,
        }
    }

    /// Goes on once no further tags are waited for.
    fn settle(&mut self, out: &mut Vec<Saying>) -> Result<(), AllocError>
        ensures { OnOk result (course_of self.new out.new.items ≡ course.settle (course_of self.old out.old.items)) }
    {
        if self.is_alone() {
            return self.say(Demand::AddAccess, out);
        }
        self.say(Demand::RemoveAccess, out)
    }

    /// Takes note that nothing more came in time, and appends what is said then. The error is that of `hear`.
    pub fn fall_silent(&mut self, out: &mut Vec<Saying>) -> Result<(), AllocError>
        ensures { OnOk result (course_of self.new out.new.items ≡ course.silent self.old.stage (course_of self.old out.old.items)) }
    {
        match self.stage {
            Stage::Accepting | Stage::Asking(_) => {
                self.stage = Stage::Lost;
                Ok(())
            }
            Stage::Seeking | Stage::Operating => self.say(Demand::RemoveAccess, out),
            Stage::Settling => self.settle(out),
            Stage::Ended | Stage::Lost => Ok(()),
        }
    }

    /// Takes note that nothing more can come.
    pub fn lose(&mut self)
        ensures { course.IsLost self.old self.new }
    {
        if stands(self.stage) {
            self.stage = Stage::Lost;
        }
    }

    /// Whether the reader may have changed a tag without a report.
    pub(crate) fn may_have_changed(&self) -> bool
        ensures { result ≡ course.may_have_changed (course_of self.now []) }
    {
        self.armed && self.changes
    }

    /// Whether the tag that was seen has no EPC.
    fn is_nameless(&self) -> bool
        ensures { result ≡ course.is_nameless (course_of self.now []).seen }
    {
        match &self.seen {
            Some(epc) => epc.is_empty(),
            None => false,
        }
    }

    /// What has come of it, if no results came and nothing was refused.
    fn resultless(&self) -> Outcome
        ensures { result ≡ course.resultless (course_of self.now []) }
    {
        if self.several {
            return Outcome::Several;
        }
        if self.may_have_changed() {
            Outcome::Unknown
        } else if self.is_nameless() {
            Outcome::NoEpc
        } else {
            Outcome::NoTag
        }
    }

    /// What has come of it so far.
    pub fn outcome(&self) -> Outcome
        ensures { result ≡ course.outcome (course_of self.now []) }
    {
        if self.reported {
            return Outcome::Reported;
        }
        if let Stage::Lost = self.stage {
            return if self.may_have_changed() {
                Outcome::Unknown
            } else {
                Outcome::Broken
            };
        }
        match self.refused {
            Some(status) if self.refused_targets => Outcome::RefusedTargets(status),
            Some(status) => Outcome::Refused(status),
            None => self.resultless(),
        }
    }
}
