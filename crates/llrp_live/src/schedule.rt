//! The lines of a script that have not happened yet.

ghost use Rattle.std.specs.Prelude.{◌≡◌, ◌<◌, IfNone, IfOk, IfSome, List, length, slice_index_or};
ghost use Rattle.llrp_live.specs.Private.Schedules.{with_at};
ghost use Rattle.llrp_live.specs.Calls.Schedules.{NoneIsDue, TakesDue, again_of as the_again, before_first, happens_at, next_moment as the_next, put_off as the_put_off};

use crate::lines::{Again, Line};
use crate::moments::{Stage, When, later, moment_of};
use llrp_session::sooner;
use std::alloc::{AllocError, Global};
use std::marker::Model;

/// The lines that have not happened yet, in the script's order. Contracts see it as a list.
#[derive(Debug, Drop)]
pub struct Schedule {
    lines: Vec<Line>,
}

impl Model for Schedule {
    ghost use Rattle.std.specs.Prelude.{List};
    ghost use Rattle.llrp_live.specs.declared.lines.Line.{Line};

    ghost Value = { List Line };

    ghost view = { λ s. s.lines.items };
}

/// Whether a line happens at a moment.
fn happens_at(stage: Stage, moment: u64, line: &Line) -> bool
    ensures { result ≡ happens_at stage moment line.now }
{
    match moment_of(stage, line.when) {
        Some(its) => its == moment,
        None => false,
    }
}

/// When the next of these lines happens.
fn next_of(stage: Stage, lines: &[Line]) -> Option<u64>
    ensures { result ≡ the_next stage lines.now }
{
    let mut next = None;
    for line in lines {
        next = sooner(next, moment_of(stage, line.when));
    }
    next
}

/// How many of these lines stand before the first that happens at a moment.
fn place_of(stage: Stage, moment: u64, lines: &[Line]) -> usize
    ensures { result ≡ before_first stage moment lines.now }
{
    let mut place = 0;
    for line in lines {
        if happens_at(stage, moment, line) {
            return place;
        }
        place += 1;
    }
    place
}

/// The line at a place.
fn line_at(lines: &[Line], place: usize) -> Line
    requires { place < length lines.now }
    ensures { result ≡ slice_index_or lines.now place result }
{
    lines[place]
}

/// From when on a line waits that is put off by this many microseconds.
fn put_off(when: When, period: u64) -> When
    ensures { result ≡ the_put_off when period }
{
    match when {
        When::Frames { after, now } => When::Frames { after, now },
        When::Accepted { wait } => When::Accepted {
            wait: later(wait, period),
        },
        When::Started { wait } => When::Started {
            wait: later(wait, period),
        },
    }
}

/// The line as it waits once more after it has happened, if it does.
fn again_of(line: Line) -> Option<Line>
    ensures { result ≡ the_again line }
{
    match line.again {
        Some(Again { period, left, done }) if period < left => Some(Line {
            number: line.number,
            when: put_off(line.when, period),
            again: Some(Again {
                period,
                left: left - period,
                done: later(done, 1),
            }),
            deed: line.deed,
        }),
        _ => None,
    }
}

impl Schedule {
    /// All lines of a script. The only error is that memory ran out.
    pub fn new(alloc: Global, lines: &[Line]) -> Result<Schedule, AllocError>
        ensures { IfOk result (λ schedule. schedule ≡ lines.now) }
    {
        Ok(Schedule {
            lines: lines.to_vec(alloc)?,
        })
    }

    /// When the next line happens, in microseconds, as far as that is known at this stage. `None` means
    /// that no line waits whose moment is known.
    pub fn next_moment(&self, stage: Stage) -> Option<u64>
        ensures { result ≡ the_next stage self.now }
    {
        next_of(stage, self.lines.as_slice())
    }

    /// Puts a line in the place of one, or takes that out.
    fn put(&mut self, place: usize, line: Option<Line>)
        requires { place < length self.old }
        ensures { self.new ≡ with_at self.old place line }
    {
        match line {
            Some(line) => self.lines[place] = line,
            None => {
                self.lines.remove(place);
            }
        }
    }

    /// Takes out the line that is due at the moment `now`, in microseconds, and returns it: of the lines
    /// with the smallest moment the first in the script. A line that happens again waits once more, in
    /// its place. Returns `None`, and changes nothing, if no line is due.
    pub fn take_due(&mut self, now: u64, stage: Stage) -> Option<Line>
        ensures taken { IfSome result (TakesDue now stage self.old self.new) }
        ensures none { IfNone result (NoneIsDue now stage self.old × (self.new ≡ self.old)) }
    {
        let moment = self.next_moment(stage)?;
        if moment > now {
            return None;
        }
        let place = place_of(stage, moment, self.lines.as_slice());
        let line = line_at(self.lines.as_slice(), place);
        let again = again_of(line_at(self.lines.as_slice(), place));
        self.put(place, again);
        Some(line)
    }
}
