//! Reads the frames of a stream, one after another, for any listener.

ghost use Rattle.std.specs.Prelude.{◌≡◌, ◌+◌, ◌^◌, ◌<◌, ◌≤◌, ℕ, List, [], Some, Err, IfErr, IfOk, IsSome, OnOk, length};
ghost use Rattle.llrp_schema.specs.declared.kinds.KindSet.{KindSet};
ghost use Rattle.llrp_schema.specs.declared.kinds.KindSet.TheVariants.{Profile};
ghost use Rattle.llrp_tree.specs.declared.TheConstants.{MAX_LIMIT};
ghost use Rattle.llrp_stream.specs.declared.item.FeedErr.TheVariants as failure;
ghost use Rattle.llrp_stream.specs.declared.state.State.TheVariants as State;
ghost use Rattle.llrp_stream.specs.declared.engine.frames.Outcome.TheVariants as Outcome;
ghost use Rattle.llrp_tree.specs.Lawful.{AreOctets};
ghost use Rattle.llrp_stream.specs.declared.item.End.TheVariants as at_end;
ghost use Rattle.llrp_stream.specs.Cuts.{EndsStream};
ghost use Rattle.llrp_stream.specs.Private.Frames.{BeginsFrom, BeginsRefused, EndsFrom, GoesOnFrom, GoesOnRefused, IsBegun, KeepsFault, OpensFrom, Skips};
ghost use Rattle.llrp_stream.specs.Calls.Frames.{Comes, GoesFrom, IsBroken, IsDead, IsFrontOf, IsIdle, RefusesFrom, Stops, held_of, limit_of, raw_of, set_of};
ghost use Rattle.llrp_stream.specs.Calls.Decoding.{IsDecidedIn};
ghost use Rattle.llrp_stream.specs.Private.Reading.{IsComplete};
ghost use Rattle.llrp_stream.specs.Private.Headers.{IsSound};
ghost use Rattle.llrp_stream.specs.Calls.Items.{HasHeaderFaultIn};

use crate::engine::body::Body;
use crate::engine::frame::{finish, receive_bare, start};
use crate::engine::listener::{Listener, hand};
use crate::header::{FaultyHeader, FrameStart, start_of};
use crate::item::{End, FeedErr};
use crate::state::{State, before_body};
use llrp_schema::KindSet;
use llrp_tree::{Fault, FrameErr, HEADER_OCTETS, Header};

/// What a frame turned out to be.
#[derive(Clone, Copy)]
pub enum Outcome {
    /// A message, all of which the listener received.
    Whole,
    /// Faulty: its id and its first fault. The listener has what it had before the frame.
    Bad { id: u32, fault: Fault },
}

/// What a call of `feed` took and found.
#[derive(Clone, Copy)]
pub struct Came {
    /// How many bytes of the piece it took.
    pub used: usize,
    /// What the frame that ends with them turned out to be; `None` if no frame ends there.
    pub outcome: Option<Outcome>,
}

/// Reads a stream of LLRP frames piece by piece (LLRP 1.1, section 17), and gives a listener the
/// parts of each message. Of an unfinished frame it keeps at most 16 bytes.
#[derive(Drop)]
pub struct Frames {
    pub(crate) limit: u32,
    pub(crate) state: State,
    pub(crate) body: Body,
}

/// Adds the octets of the piece that were taken before.
#[inline(always)]
fn after(came: Came, taken: usize) -> Came
    requires { came.used + taken < 2 ^ 64 }
    ensures { result ≡ record { used = came.used + taken; outcome = came.outcome } }
{
    Came {
        used: came.used + taken,
        outcome: came.outcome,
    }
}

impl Frames {
    /// Frames of the profile of which nothing was read. A frame of more than `limit` octets is faulty.
    pub fn new(limit: u32) -> Frames
        ensures set { set_of result ≡ Profile }
        ensures limit { limit_of result ≡ limit }
        ensures idle { IsIdle result }
    {
        Frames::new_in(KindSet::Profile, limit)
    }

    /// Frames of a set of kinds of which nothing was read. A frame of more than `limit` octets is
    /// faulty.
    pub fn new_in(set: KindSet, limit: u32) -> Frames
        ensures set { set_of result ≡ set }
        ensures limit { limit_of result ≡ limit }
        ensures idle { IsIdle result }
    {
        Frames {
            limit,
            state: State::Between,
            body: Body::new(set),
        }
    }

    /// How many bytes of the current frame it keeps as they are.
    pub fn raw_octets(&self) -> u32
        ensures raw { result ≡ length (raw_of self.now) }
        ensures few { result ≤ 16 }
    {
        self.body.raw.len() as u32
    }

    /// How much it keeps of the current frame, whichever listener receives its parts: its raw bytes,
    /// and two for each open node. This is at most what was fed since the last frame ended, and 0
    /// from the byte on that decides a fault of the frame.
    pub fn held(&self) -> u32
        ensures weight { result ≡ held_of self.now }
        ensures within { (front : List ℕ) → IsFrontOf self.now front → 10 ≤ limit_of self.now
            → result ≤ limit_of self.now }
        ensures front { (front : List ℕ) → IsFrontOf self.now front → result ≤ length front }
        ensures skipped { (front : List ℕ) → IsFrontOf self.now front
            → HasHeaderFaultIn (set_of self.now) (limit_of self.now) front → result ≡ 0 }
        ensures decided { (front : List ℕ) → IsFrontOf self.now front
            → IsDecidedIn (set_of self.now) (limit_of self.now) front → result ≡ 0 }
    {
        match self.state {
            State::Header => self.raw_octets(),
            State::Reading { .. } => {
                let open = self.body.reader.outer.len() as u32 + 1;
                self.raw_octets() + 2 * open
            }
            State::Between | State::Skipping { .. } | State::Broken | State::Dead => 0,
        }
    }

    /// Skips a frame of which `count` octets were taken.
    fn skip(&mut self, count: u32, header: FaultyHeader, piece: &[u8]) -> Came
        requires begun { 10 ≤ count }
        requires inside { count ≤ header.octets }
        ensures within { result.used ≤ length piece.now }
        ensures progress { count < header.octets → IsSome result.outcome → 0 < result.used }
        ensures limit { self.new.limit ≡ self.old.limit }
        ensures body { self.new.body ≡ self.old.body }
        ensures skips { (p : KindSet) (limit : ℕ) → Skips p limit count header piece.now self.new
            result }
        ensures fault { KeepsFault header self.new.state result.outcome }
    {
        let left = header.octets - count;
        if piece.len() < left as usize {
            let count = count + piece.len() as u32;
            self.state = State::Skipping { count, header };
            return Came {
                used: piece.len(),
                outcome: None,
            };
        }
        self.state = State::Between;
        Came {
            used: left as usize,
            outcome: Some(Outcome::Bad {
                id: header.id,
                fault: header.fault,
            }),
        }
    }

    /// Gives up a faulty frame of which `count` octets were taken, and skips the rest of it.
    fn give_up(&mut self, count: u32, header: FaultyHeader, piece: &[u8]) -> Came
        requires begun { 10 ≤ count }
        requires inside { count ≤ header.octets }
        ensures within { result.used ≤ length piece.now }
        ensures progress { count < header.octets → IsSome result.outcome → 0 < result.used }
        ensures limit { self.new.limit ≡ self.old.limit }
        ensures set { self.new.body.reader.set ≡ self.old.body.reader.set }
        ensures raw { self.new.body.raw.items ≡ [] }
        ensures skips { (p : KindSet) → Skips p self.old.limit count header piece.now self.new
            result }
        ensures fault { KeepsFault header self.new.state result.outcome }
    {
        self.body.raw.clear();
        self.skip(count, header, piece)
    }

    /// Goes on with a frame whose header passed its checks.
    #[inline(always)]
    fn go_on<L: Listener>(
        &mut self,
        listener: &mut L,
        id: u32,
        piece: &[u8],
    ) -> Result<Came, FeedErr>
        requires most { self.old.limit ≤ MAX_LIMIT }
        requires some { (was front : List ℕ)
            × IsBegun (L.begins listener.old was) (L.stands listener.old was) self.old.limit id
            self.old.body front }
        ensures limit { self.new.limit ≡ self.old.limit }
        ensures set { self.new.body.reader.set ≡ self.old.body.reader.set }
        ensures within { IfOk result (λ came. came.used ≤ length piece.now) }
        ensures takes { GoesOnFrom (L.begins listener.old) (L.stands listener.old)
            (L.begins listener.new) (L.stands listener.new) (L.ends listener.new) id self.old
            self.new piece.now result }
        ensures refuses { GoesOnRefused (L.begins listener.old) (L.stands listener.old)
            (L.faulty listener.new) id self.old self.new piece.now result }
    {
        let octets = self.body.reader.octets;
        let set = self.body.reader.set;
        let done = self.body.taken();
        let used = piece.len().min((octets - done) as usize);
        let (near, rest) = piece.split_at(used);
        match self.body.feed(listener, near) {
            Ok(true) => self.end(listener, used),
            Ok(false) => {
                self.state = State::Reading { id };
                Ok(Came {
                    used,
                    outcome: None,
                })
            }
            // What a body keeps after an error is not said, but the next frame is of the same set.
            Err(FrameErr::Memory) => {
                self.body.reader.set = set;
                Err(FeedErr::Memory)
            }
            Err(FrameErr::Bad(fault)) => {
                self.body.reader.set = set;
                let header = FaultyHeader { octets, id, fault };
                let came = self.give_up(done + used as u32, header, rest);
                Ok(after(came, used))
            }
        }
    }

    /// Ends a frame whose message has all its parts.
    #[inline(always)]
    fn end<L: Listener>(&mut self, listener: &mut L, used: usize) -> Result<Came, FeedErr>
        requires most { self.old.limit ≤ MAX_LIMIT }
        requires some { (was front : List ℕ)
            × IsComplete (L.stands listener.old was) self.old.body.reader front × AreOctets front
            × (self.old.body.reader.octets ≤ self.old.limit) }
        ensures limit { self.new.limit ≡ self.old.limit }
        ensures set { self.new.body.reader.set ≡ self.old.body.reader.set }
        ensures idle { IfOk result (λ _. IsIdle self.new) }
        ensures came { IfOk result (λ came. came ≡ record {
          used = used;
          outcome = Some Outcome.Whole;
        }) }
        ensures fails { IfErr result (λ error. error ≡ failure.Memory) }
        ensures gives { OnOk result (EndsFrom (L.stands listener.old) (L.stands listener.new)
            (L.ends listener.new) self.old self.new) }
    {
        finish(&self.body.reader, listener)?;
        self.body.raw.clear();
        self.state = State::Between;
        Ok(Came {
            used,
            outcome: Some(Outcome::Whole),
        })
    }

    /// Begins the body of a frame whose header passed its checks.
    #[inline(always)]
    fn open<L: Listener>(
        &mut self,
        listener: &mut L,
        header: Header,
        piece: &[u8],
    ) -> Result<Came, FeedErr>
        requires most { self.old.limit ≤ MAX_LIMIT }
        requires whole { length self.old.body.raw.items ≡ 10 }
        requires sound { IsSound self.old.body.reader.set self.old.limit self.old.body.raw.items
            header }
        requires told { (was : List ℕ) × L.stands listener.old was [] }
        ensures limit { self.new.limit ≡ self.old.limit }
        ensures set { self.new.body.reader.set ≡ self.old.body.reader.set }
        ensures within { IfOk result (λ came. came.used ≤ length piece.now) }
        ensures takes { OpensFrom (L.stands listener.old) (L.begins listener.new)
            (L.stands listener.new) (L.ends listener.new) self.old.limit self.old.body.raw.items
            piece.now self.new result }
        ensures refuses { BeginsRefused (L.stands listener.old) (L.faulty listener.new)
            self.old.body.reader.set self.old.limit self.old.body.raw.items piece.now self.new result }
    {
        self.body.raw.clear();
        start(&mut self.body, listener, &header)?;
        self.go_on(listener, header.id, piece)
    }

    /// Takes octets of a header, and what comes after it.
    fn begin<L: Listener>(&mut self, listener: &mut L, piece: &[u8]) -> Result<Came, FeedErr>
        requires most { self.old.limit ≤ MAX_LIMIT }
        requires short { length self.old.body.raw.items < 10 }
        requires told { (was : List ℕ) × L.stands listener.old was [] }
        ensures limit { self.new.limit ≡ self.old.limit }
        ensures set { self.new.body.reader.set ≡ self.old.body.reader.set }
        ensures within { IfOk result (λ came. came.used ≤ length piece.now) }
        ensures progress { IfOk result (λ came. IsSome came.outcome → 0 < came.used) }
        ensures takes { BeginsFrom (L.stands listener.old) (L.begins listener.new)
            (L.stands listener.new) (L.ends listener.new) self.old.limit self.old.body.raw.items
            piece.now self.new result }
        ensures refuses { BeginsRefused (L.stands listener.old) (L.faulty listener.new)
            self.old.body.reader.set self.old.limit self.old.body.raw.items piece.now self.new result }
    {
        let used = piece.len().min(HEADER_OCTETS - self.body.raw.len());
        let (near, rest) = piece.split_at(used);
        self.body.keep(near);
        match start_of(self.body.reader.set, self.body.raw.as_slice(), self.limit) {
            FrameStart::Breaking => Err(FeedErr::Broken),
            FrameStart::Short => {
                self.state = before_body(self.body.raw.as_slice());
                Ok(Came {
                    used,
                    outcome: None,
                })
            }
            FrameStart::Faulty(header) => {
                hand(listener, header.fault, None, self.body.raw.as_slice());
                self.body.raw.clear();
                let came = self.skip(HEADER_OCTETS as u32, header, rest);
                Ok(after(came, used))
            }
            FrameStart::Sound(header) => {
                let came = self.open(listener, header, rest)?;
                Ok(after(came, used))
            }
        }
    }

    /// Begins the body of a frame whose header passed its checks and lies in the piece itself.
    #[inline(always)]
    fn open_here<L: Listener>(
        &mut self,
        listener: &mut L,
        header: Header,
        _front: &[u8],
        piece: &[u8],
    ) -> Result<Came, FeedErr>
        requires most { self.old.limit ≤ MAX_LIMIT }
        requires fresh { self.old.body.raw.items ≡ [] }
        requires whole { length _front.now ≡ 10 }
        requires sound { IsSound self.old.body.reader.set self.old.limit _front.now header }
        requires told { (was : List ℕ) × L.stands listener.old was [] }
        ensures limit { self.new.limit ≡ self.old.limit }
        ensures set { self.new.body.reader.set ≡ self.old.body.reader.set }
        ensures within { IfOk result (λ came. came.used ≤ length piece.now) }
        ensures takes { OpensFrom (L.stands listener.old) (L.begins listener.new)
            (L.stands listener.new) (L.ends listener.new) self.old.limit _front.now
            piece.now self.new result }
        ensures refuses { BeginsRefused (L.stands listener.old) (L.faulty listener.new)
            self.old.body.reader.set self.old.limit _front.now piece.now self.new result }
    {
        let received = receive_bare(&self.body.reader, listener, &header)?;
        if received {
            self.state = State::Between;
            return Ok(Came {
                used: 0,
                outcome: Some(Outcome::Whole),
            });
        }
        start(&mut self.body, listener, &header)?;
        self.go_on(listener, header.id, piece)
    }

    /// Takes a header that lies whole in the piece, of which it keeps nothing, and what comes after it.
    #[inline(always)]
    fn begin_here<L: Listener>(&mut self, listener: &mut L, piece: &[u8]) -> Result<Came, FeedErr>
        requires most { self.old.limit ≤ MAX_LIMIT }
        requires fresh { self.old.body.raw.items ≡ [] }
        requires whole { 10 ≤ length piece.now }
        requires told { (was : List ℕ) × L.stands listener.old was [] }
        ensures limit { self.new.limit ≡ self.old.limit }
        ensures set { self.new.body.reader.set ≡ self.old.body.reader.set }
        ensures within { IfOk result (λ came. came.used ≤ length piece.now) }
        ensures progress { IfOk result (λ came. IsSome came.outcome → 0 < came.used) }
        ensures takes { BeginsFrom (L.stands listener.old) (L.begins listener.new)
            (L.stands listener.new) (L.ends listener.new) self.old.limit []
            piece.now self.new result }
        ensures refuses { BeginsRefused (L.stands listener.old) (L.faulty listener.new)
            self.old.body.reader.set self.old.limit [] piece.now self.new result }
    {
        let (near, rest) = piece.split_at(HEADER_OCTETS);
        match start_of(self.body.reader.set, near, self.limit) {
            FrameStart::Breaking => Err(FeedErr::Broken),
            FrameStart::Short => unreachable!(),
            FrameStart::Faulty(header) => {
                hand(listener, header.fault, None, near);
                let came = self.skip(HEADER_OCTETS as u32, header, rest);
                Ok(after(came, HEADER_OCTETS))
            }
            FrameStart::Sound(header) => {
                let came = self.open_here(listener, header, near, rest)?;
                Ok(after(came, HEADER_OCTETS))
            }
        }
    }

    /// Takes octets of a header, wherever it lies, and what comes after it.
    #[inline(always)]
    fn begin_any<L: Listener>(&mut self, listener: &mut L, piece: &[u8]) -> Result<Came, FeedErr>
        requires most { self.old.limit ≤ MAX_LIMIT }
        requires short { length self.old.body.raw.items < 10 }
        requires told { (was : List ℕ) × L.stands listener.old was [] }
        ensures limit { self.new.limit ≡ self.old.limit }
        ensures set { self.new.body.reader.set ≡ self.old.body.reader.set }
        ensures within { IfOk result (λ came. came.used ≤ length piece.now) }
        ensures progress { IfOk result (λ came. IsSome came.outcome → 0 < came.used) }
        ensures takes { BeginsFrom (L.stands listener.old) (L.begins listener.new)
            (L.stands listener.new) (L.ends listener.new) self.old.limit self.old.body.raw.items
            piece.now self.new result }
        ensures refuses { BeginsRefused (L.stands listener.old) (L.faulty listener.new)
            self.old.body.reader.set self.old.limit self.old.body.raw.items piece.now self.new result }
    {
        if self.body.raw.is_empty() && piece.len() >= HEADER_OCTETS {
            return self.begin_here(listener, piece);
        }
        self.begin(listener, piece)
    }

    /// Takes the octets of a piece, whatever the state is.
    #[inline(always)]
    fn advance<L: Listener>(&mut self, listener: &mut L, piece: &[u8]) -> Result<Came, FeedErr>
        requires least { 10 ≤ self.old.limit }
        requires most { self.old.limit ≤ MAX_LIMIT }
        requires comes { Comes (L.begins listener.old) (L.stands listener.old) self.old }
        ensures limit { self.new.limit ≡ self.old.limit }
        ensures set { self.new.body.reader.set ≡ self.old.body.reader.set }
        ensures within { IfOk result (λ came. came.used ≤ length piece.now) }
        ensures progress { IfOk result (λ came. IsSome came.outcome → 0 < came.used) }
        ensures takes { GoesFrom (L.begins listener.old) (L.stands listener.old)
            (L.begins listener.new) (L.stands listener.new) (L.ends listener.new) self.old self.new
            piece.now result }
        ensures refuses { RefusesFrom (L.begins listener.old) (L.stands listener.old)
            (L.faulty listener.old) (L.faulty listener.new) self.old self.new piece.now result }
        ensures broken { self.old.state ≡ State.Broken → result ≡ Err failure.Broken }
        ensures dead { self.old.state ≡ State.Dead → result ≡ Err failure.Dead }
    {
        match self.state {
            State::Between | State::Header => self.begin_any(listener, piece),
            State::Reading { id } => self.go_on(listener, id, piece),
            State::Skipping { count, header } => Ok(self.skip(count, header, piece)),
            State::Broken => Err(FeedErr::Broken),
            State::Dead => Err(FeedErr::Dead),
        }
    }

    /// Drops what is kept, after an error.
    fn stop(&mut self, error: FeedErr)
        ensures limit { self.new.limit ≡ self.old.limit }
        ensures set { self.new.body.reader.set ≡ self.old.body.reader.set }
        ensures raw { self.new.body.raw.items ≡ [] }
        ensures broken { error ≡ failure.Broken → self.new.state ≡ State.Broken }
        ensures memory { error ≡ failure.Memory → self.new.state ≡ State.Dead }
        ensures dead { error ≡ failure.Dead → self.new.state ≡ State.Dead }
    {
        self.body.raw.clear();
        self.state = match error {
            FeedErr::Broken => State::Broken,
            FeedErr::Memory | FeedErr::Dead => State::Dead,
        };
    }

    /// Takes the bytes of a piece up to the end of the next frame, and returns what that frame
    /// turned out to be; if there is no outcome, it took the whole piece. The error is `Broken` at
    /// the sixth byte of a frame whose length field is below 10, and from then on; it is `Memory`
    /// if the listener ran out of memory, and `Dead` from then on.
    pub fn feed<L: Listener>(&mut self, listener: &mut L, piece: &[u8]) -> Result<Came, FeedErr>
        requires least { 10 ≤ limit_of self.old }
        requires most { limit_of self.old ≤ MAX_LIMIT }
        // The first octets of a frame came, and the listener has what was read of it.
        requires comes { Comes (L.begins listener.old) (L.stands listener.old) self.old }
        ensures limit { limit_of self.new ≡ limit_of self.old }
        ensures set { set_of self.new ≡ set_of self.old }
        ensures within { IfOk result (λ came. came.used ≤ length piece.now) }
        ensures progress { IfOk result (λ came. IsSome came.outcome → 0 < came.used) }
        ensures takes { GoesFrom (L.begins listener.old) (L.stands listener.old)
            (L.begins listener.new) (L.stands listener.new) (L.ends listener.new) self.old self.new
            piece.now result }
        ensures refuses { RefusesFrom (L.begins listener.old) (L.stands listener.old)
            (L.faulty listener.old) (L.faulty listener.new) self.old self.new piece.now result }
        ensures broken { IsBroken self.old → (result ≡ Err failure.Broken) × IsBroken self.new }
        ensures dead { IsDead self.old → (result ≡ Err failure.Dead) × IsDead self.new }
        ensures stops { IfErr result (Stops self.new) }
    {
        match self.advance(listener, piece) {
            Ok(came) => Ok(came),
            Err(error) => {
                self.stop(error);
                Err(error)
            }
        }
    }

    /// How the stream ends if no more bytes follow; `Rest` counts those after the last whole frame.
    pub fn finish(&self) -> End
        ensures stands { (front : List ℕ) → IsFrontOf self.now front → EndsStream front result }
        ensures broken { IsBroken self.now → result ≡ at_end.Broken }
        ensures dead { IsDead self.now → result ≡ at_end.Dead }
    {
        match self.state {
            State::Between => End::Clean,
            State::Header => End::Rest(self.body.raw.len() as u64),
            State::Reading { .. } => {
                End::Rest(self.body.reader.at as u64 + self.body.raw.len() as u64)
            }
            State::Skipping { count, .. } => End::Rest(count as u64),
            State::Broken => End::Broken,
            State::Dead => End::Dead,
        }
    }
}
