//! Reads the tail of a node, which comes in pieces.

ghost use Rattle.std.specs.Prelude.{◌≡◌, ◌≢◌, ◌+◌, ◌*◌, ◌<◌, ◌≤◌, ℕ, Bool, IfErr, List, [], ◌∷◌, ◌++◌, not, length, drop, take, true, false};
ghost use Rattle.tag_bits.specs.Digits.{digits_of_bytes};
ghost use Rattle.llrp_schema.specs.Schema.{fields_of, tail_of};
ghost use Rattle.llrp_schema.specs.declared.kinds.Tail.TheVariants.{Words, Text, Bits};
ghost use Rattle.llrp_tree.specs.declared.TheConstants.{MAX_LIMIT};
ghost use Rattle.llrp_tree.specs.Lawful.{first};
ghost use Rattle.llrp_tree.specs.OpenTree.{Begun, has_tail};
ghost use Rattle.llrp_stream.specs.Calls.Reading.{HasReadTo};
ghost use Rattle.llrp_stream.specs.Private.Steps.{StepsOn};
ghost use Rattle.llrp_stream.specs.Private.Tails.{CountSays, Counts, HasWhole};
ghost use Rattle.llrp_stream.specs.declared.engine.body_reader.Stage.TheVariants as Stage;

use crate::engine::body_reader::{BodyReader, Stage, Step, bad};
use crate::engine::listener::Listener;
use llrp_schema::Tail;
use llrp_tree::numbers::word;
use llrp_tree::{FrameErr, Reason};

/// How many octets a tail has, and the count before it.
#[derive(Clone, Copy)]
pub(crate) struct TailSize {
    pub count: u32,
    pub octets: u32,
}

/// Whether a kind has no tail.
pub(crate) fn is_absent(form: Tail) -> bool
    ensures { result ≡ not (has_tail form) }
{
    match form {
        Tail::Absent => true,
        Tail::Words | Tail::Text | Tail::Bits | Tail::Data => false,
    }
}

/// Reads the count of a tail of words; `None` if it is not whole in the octets.
fn words_counted(octets: &[u8], at: usize, stop: usize) -> Result<Option<TailSize>, FrameErr>
    requires before { at ≤ stop }
    requires small { stop ≤ MAX_LIMIT }
    ensures says { (fields : List ℕ) (later : List Bool)
        → CountSays Words fields (8 * at) (8 * stop) (digits_of_bytes octets.now ++ later)
        octets.now result }
    ensures there { IfErr result (λ error. at + 2 ≤ stop → 2 ≤ length octets.now) }
{
    if stop - at < 2 {
        return Err(bad(8 * at, Reason::Short));
    }
    if octets.len() < 2 {
        return Ok(None);
    }
    let length = 2 * word(octets, 0) as usize;
    if stop - at - 2 < length {
        return Err(bad(8 * at, Reason::Count));
    }
    Ok(Some(TailSize {
        count: 2,
        octets: length as u32,
    }))
}

/// Reads the count of a tail of text; `None` if it is not whole in the octets.
fn text_counted(octets: &[u8], at: usize, stop: usize) -> Result<Option<TailSize>, FrameErr>
    requires before { at ≤ stop }
    requires small { stop ≤ MAX_LIMIT }
    ensures says { (fields : List ℕ) (later : List Bool)
        → CountSays Text fields (8 * at) (8 * stop) (digits_of_bytes octets.now ++ later) octets.now
        result }
    ensures there { IfErr result (λ error. at + 2 ≤ stop → 2 ≤ length octets.now) }
{
    if stop - at < 2 {
        return Err(bad(8 * at, Reason::Short));
    }
    if octets.len() < 2 {
        return Ok(None);
    }
    let length = word(octets, 0) as usize;
    if stop - at - 2 < length {
        return Err(bad(8 * at, Reason::Count));
    }
    Ok(Some(TailSize {
        count: 2,
        octets: length as u32,
    }))
}

/// The octets of a tail of bits, whose count is the first field of the node.
fn bits_counted(known: u128, at: usize, stop: usize) -> Result<Option<TailSize>, FrameErr>
    requires after { 2 ≤ at }
    requires before { at ≤ stop }
    requires small { stop ≤ MAX_LIMIT }
    ensures { (fields octets : List ℕ) (rest : List Bool) → known ≡ first fields
        → CountSays Bits fields (8 * at) (8 * stop) rest octets result }
{
    let octets = known / 8 + (known % 8 + 7) / 8;
    if ((stop - at) as u128) < octets {
        return Err(bad(8 * at - 16, Reason::Count));
    }
    Ok(Some(TailSize {
        count: 0,
        octets: octets as u32,
    }))
}

/// How many octets a tail has, by its count, by the first field of the node or by its stop; `None`
/// if the count is not whole in the octets.
fn counted(
    octets: &[u8],
    at: usize,
    stop: usize,
    form: Tail,
    known: u128,
) -> Result<Option<TailSize>, FrameErr>
    requires after { 2 ≤ at }
    requires before { at ≤ stop }
    requires small { stop ≤ MAX_LIMIT }
    requires has { has_tail form ≡ true }
    ensures says { Counts form known at stop octets.now result }
    ensures there { IfErr result (λ error. form ≢ Bits → at + 2 ≤ stop
        → 2 ≤ length octets.now) }
{
    match form {
        Tail::Words => words_counted(octets, at, stop),
        Tail::Text => text_counted(octets, at, stop),
        Tail::Bits => bits_counted(known, at, stop),
        Tail::Data => Ok(Some(TailSize {
            count: 0,
            octets: (stop - at) as u32,
        })),
        Tail::Absent => Ok(None),
    }
}

/// How many of the first octets are whole words or whole characters.
fn whole_front(form: Tail, octets: &[u8]) -> usize
    requires has { has_tail form ≡ true }
    ensures { HasWhole form octets.now result }
{
    match form {
        Tail::Words => octets.len() - octets.len() % 2,
        Tail::Text => match std::str::from_utf8(octets) {
            Ok(_) => octets.len(),
            Err(error) => error.valid_up_to(),
        },
        Tail::Bits | Tail::Data | Tail::Absent => octets.len(),
    }
}

/// Whether these octets, which hold no whole character, cannot begin one: the text has no more
/// octets, or they are as many as the longest character has.
fn is_faulty(form: Tail, octets: &[u8], left: u32) -> bool
    ensures text { result ≡ true → form ≡ Text }
    ensures many { result ≡ true → length octets.now < 4 → length octets.now ≡ left }
    ensures few { result ≡ false → form ≡ Text → length octets.now < 4 }
    ensures more { result ≡ false → form ≡ Text → length octets.now ≢ left }
{
    match form {
        Tail::Text => octets.len() >= 4 || octets.len() == left as usize,
        Tail::Words | Tail::Bits | Tail::Data | Tail::Absent => false,
    }
}

impl BodyReader {
    /// Reads the count of a tail.
    pub(crate) fn begin_tail<L: Listener>(
        &mut self,
        listener: &mut L,
        octets: &[u8],
        form: Tail,
    ) -> Result<Step, FrameErr>
        requires stage { self.old.stage ≡ Stage.Leading (length (fields_of self.old.top.kind)) }
        requires form { tail_of self.old.top.kind ≡ form }
        requires has { has_tail form ≡ true }
        requires stop { self.old.top.stop ≤ MAX_LIMIT }
        requires some { (front : List ℕ) × (b : Begun) × (outer : List Begun)
            × HasReadTo self.old front b outer }
        ensures { StepsOn (L.begins listener.old) (L.begins listener.new) (L.stands listener.new)
            self.old self.new octets.now result }
    {
        let found = counted(
            octets,
            self.at as usize,
            self.top.stop as usize,
            form,
            self.first,
        )?;
        let Some(size) = found else {
            return Ok(Step::Waits);
        };
        listener.tail(form)?;
        self.stage = Stage::Tail(size.octets);
        self.at += size.count;
        Ok(Step::Goes(size.count as usize))
    }

    /// Ends a tail.
    fn end_tail<L: Listener>(&mut self, listener: &mut L) -> Result<Step, FrameErr>
        requires stage { self.old.stage ≡ Stage.Tail 0 }
        ensures { (octets : List ℕ) → StepsOn (L.begins listener.old) (L.begins listener.new)
            (L.stands listener.new) self.old self.new octets result }
    {
        listener.ready()?;
        self.stage = Stage::Children;
        Ok(Step::Goes(0))
    }

    /// Reads octets of a tail that has this many left.
    fn more_tail<L: Listener>(
        &mut self,
        listener: &mut L,
        octets: &[u8],
        left: u32,
    ) -> Result<Step, FrameErr>
        requires stage { self.old.stage ≡ Stage.Tail left }
        requires some_left { 1 ≤ left }
        requires some { (front : List ℕ) × (b : Begun) × (outer : List Begun)
            × HasReadTo self.old front b outer }
        ensures { StepsOn (L.begins listener.old) (L.begins listener.new) (L.stands listener.new)
            self.old self.new octets.now result }
    {
        let form = llrp_schema::tail(self.top.kind);
        let near = octets.split_at(octets.len().min(left as usize)).0;
        let used = whole_front(form, near);
        if used == 0 {
            let faulty = is_faulty(form, near, left);
            if faulty {
                return Err(bad(8 * self.at as usize, Reason::Utf8));
            }
            return Ok(Step::Waits);
        }
        listener.octets(form, near.split_at(used).0)?;
        self.stage = Stage::Tail(left - used as u32);
        self.at += used as u32;
        Ok(Step::Goes(used))
    }

    /// Reads octets of a tail, or ends it.
    pub(crate) fn tail<L: Listener>(
        &mut self,
        listener: &mut L,
        octets: &[u8],
        left: u32,
    ) -> Result<Step, FrameErr>
        requires stage { self.old.stage ≡ Stage.Tail left }
        requires some { (front : List ℕ) × (b : Begun) × (outer : List Begun)
            × HasReadTo self.old front b outer }
        ensures { StepsOn (L.begins listener.old) (L.begins listener.new) (L.stands listener.new)
            self.old self.new octets.now result }
    {
        if left == 0 {
            return self.end_tail(listener);
        }
        self.more_tail(listener, octets, left)
    }
}
