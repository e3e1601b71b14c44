//! Scripts in real time, which of their lines are due, and what their readers say.

use llrp_answers::Answers;
use llrp_live::{
    Deed, Expectation, Expectations, FaultPlace, LONGEST_LINE, Line, LiveReader, MOST_LEVELS,
    Notices, Schedule, ScriptReader, Stage, Timetable, fault_place, moment_in, says_start,
    with_place, with_status,
};
use llrp_schema::{KindSet, MsgKind};
use llrp_session::{Reader, ReaderIn, RoState, SideEvent};
use llrp_stream::Item;
use llrp_tool::ToolErr;
use llrp_tree::{Message, Reason};
use std::alloc::Global;
use std::test::*;
use test_devices::{are_spelled, decoded_in, octets};

/// GET_SUPPORTED_VERSION, and ADD_ROSPEC, ENABLE_ROSPEC and START_ROSPEC of ROSpec 1 (LLRP 1.1, sections 9 to
/// 11).
const STARTING: [&str; 4] = [
    "042E0000000A00000007",
    "04140000003E00000002 00B10034000000010000 00B20012 00B3000500 00B600090000000000 00B7001800010000 00B800090000000000 00BA0007000101",
    "04180000000E0000000300000001",
    "04160000000E0000000400000001",
];

/// SET_READER_CONFIG that asks for events of antennas, and its response; and the event that antenna 2 is
/// disconnected, at the moment 5 and under the id 2 (LLRP 1.1, sections 13 and 14).
const ASKING: &str = "0403000000160000000100 00F4000B 00F50007000880";

const ASKED: &str = "040D0000001200000001 011F000800000000";

const ANTENNA_OFF: &str = "043F0000002100000002 00F60017 0080000C0000000000000005 00FF0007000002";

/// ADD_ROSPEC_RESPONSE, and the same with the status 401 and the text "no room" (LLRP 1.1, sections 10 and
/// 15).
const ADDED: &str = "041E0000001200000002 011F000800000000";

const NO_ROOM: &str = "041E0000001900000002 011F000F01910007 6E6F20726F6F6D";

/// ADD_ROSPEC whose ROSpec has the Priority 9, and the ERROR_MESSAGE that says M_FieldError; the same with a
/// ParameterError for the ROSpec, P_FieldError, and a FieldError for its second field, A_OutOfRange (LLRP
/// 1.1, sections 10, 11 and 15).
const OUT_OF_RANGE: &str = "04140000001C00000002 00B10012000000010900 00B20008 00B30004";

const REFUSED: &str = "04640000001200000002 011F000800650000";

const LOCATED: &str = "04640000002200000002 011F001800650000 0121001000B100C9 012000080002012D";

/// A connection that was accepted at 1,000 microseconds, and on which no ROSpec became active.
const ACCEPTED: Stage = Stage {
    taken: 0,
    accepted: 1_000,
    started: None,
};

#[test]
fn messages_that_are_expected(rt: HostRuntime) -> Result<(), Fail> {
    let mut expectations = Expectations::new(rt.alloc());
    assert!(rt; expectations.soonest() == None && expectations.first_over(u64::MAX) == None);
    for (kind, until, line) in [
        (MsgKind::WholeSetReaderConfig, 500, 1),
        (MsgKind::WholeGetRoSpecs, 300, 4),
    ] {
        expectations.add(Expectation { kind, until, line })?;
    }
    assert!(rt; expectations.soonest() == Some(300));
    assert!(rt; expectations.first_over(300) == None && expectations.first_over(301) == Some(4));
    assert!(rt; expectations.first_over(501) == Some(1));
    expectations.meet(MsgKind::WholeSetReaderConfig);
    assert!(rt; expectations.first_over(501) == Some(4) && expectations.first_line() == Some(4));
    expectations.meet(MsgKind::WholeGetRoSpecs);
    assert!(rt; expectations.first_line() == None);
    Ok(())
}

/// The lines of a script that comes in two pieces.
fn read(alloc: Global, first: &[u8], second: &[u8]) -> Result<Timetable, ToolErr> {
    let mut reader = ScriptReader::new(alloc);
    reader.take(first)?;
    reader.take(second)?;
    reader.finish()
}

#[test]
fn scripts_in_pieces(rt: HostRuntime) -> Result<(), Fail> {
    let lines = read(rt.alloc(), b"0 5 tick\naccep", b"ted+1s close\n0 5 tick\n")?;
    assert!(rt; lines.lines.len() == 3);
    for (first, second, line) in [
        (b"0 5 tick\n".as_slice(), b"0 4 tick\n".as_slice(), 2),
        (b"0 5 tick\n", b"0 5 tick", 2),
        (b"\n", b"", 1),
    ] {
        let refused = read(rt.alloc(), first, second).err();
        assert!(rt; refused == Some(ToolErr::Script { line }));
    }
    let endless = [b'a'; LONGEST_LINE + 1];
    let refused = read(rt.alloc(), b"", &endless).err();
    assert!(rt; refused == Some(ToolErr::Script { line: 1 }));
    Ok(())
}

/// A script that sends two messages, and one that closes the connection after them.
const SENDING: &[u8] = b"accepted+1s send\n0 KEEPALIVE 1 7\n0 KEEPALIVE 1 8\naccepted+2s close\n";

/// The frames of those messages (LLRP 1.1, section 14).
const KEEPALIVES: [&str; 2] = ["043E0000000A00000007", "043E0000000A00000008"];

#[test]
fn lines_that_send_messages(rt: HostRuntime) -> Result<(), Fail> {
    for cut in [0, 20, 40, 66] {
        let (first, second) = SENDING.split_at(cut);
        let read = read(rt.alloc(), first, second)?;
        let lines = read.lines.as_slice();
        assert!(rt; lines.len() == 2 && lines[0].deed == Deed::Send && lines[1].number == 4);
        let sent = read.sent.as_slice();
        assert!(rt; sent.len() == 1 && sent[0].line == 1);
        assert!(rt; are_spelled(rt.alloc(), sent[0].messages.as_slice(), &KEEPALIVES)?);
    }
    for (text, line) in [
        (b"accepted+1s send\n".as_slice(), 2),
        (b"accepted+1s send\n0 KEEPALIVE 1 7\n0 KEEPALIVES 1 8\n", 3),
        (b"accepted+1s send\n0 KEEPALIVE 1 7\n0 KEEPALIVE 1 8", 3),
        (b"accepted+1s close\n0 KEEPALIVE 1 7\n", 2),
    ] {
        let refused = read(rt.alloc(), text, b"").err();
        assert!(rt; refused == Some(ToolErr::Script { line }));
    }
    Ok(())
}

/// What happens by a line, if there is one.
fn deed_of(line: Option<Line>) -> Option<Deed> {
    match line {
        Some(line) => Some(line.deed),
        None => None,
    }
}

#[test]
fn lines_that_are_due(rt: HostRuntime) -> Result<(), Fail> {
    let text =
        b"accepted+2ms silent 1s\naccepted+1ms every 2ms for 4ms tick\n1 0 tick\nstarted+0s close\n";
    let read = read(rt.alloc(), text, b"")?;
    let mut schedule = Schedule::new(rt.alloc(), read.lines.as_slice())?;
    assert!(rt; schedule.next_moment(ACCEPTED) == Some(2_000));
    assert!(rt; deed_of(schedule.take_due(1_999, ACCEPTED)) == None);
    assert!(rt; deed_of(schedule.take_due(2_000, ACCEPTED)) == Some(Deed::Tick));
    assert!(rt; deed_of(schedule.take_due(2_999, ACCEPTED)) == None);
    let silent = Deed::Silent { wait: 1_000_000 };
    assert!(rt; deed_of(schedule.take_due(9_000, ACCEPTED)) == Some(silent));
    assert!(rt; deed_of(schedule.take_due(9_000, ACCEPTED)) == Some(Deed::Tick));
    assert!(rt; schedule.next_moment(ACCEPTED) == None);
    let later = Stage {
        taken: 1,
        accepted: 1_000,
        started: Some(10_000),
    };
    assert!(rt; schedule.next_moment(later) == Some(0));
    assert!(rt; deed_of(schedule.take_due(9_000, later)) == Some(Deed::Tick));
    assert!(rt; deed_of(schedule.take_due(9_000, later)) == None);
    assert!(rt; deed_of(schedule.take_due(10_000, later)) == Some(Deed::Close));
    Ok(())
}

#[test]
fn clocks_and_their_moments(rt: HostRuntime) -> Result<(), Fail> {
    for (began, elapsed, rate, moment) in [
        (5, 10, 1, 15),
        (5, 10, 10, 105),
        (0, u64::MAX, 2, u64::MAX),
        (u64::MAX, 1, 1, u64::MAX),
    ] {
        assert!(rt; moment_in(began, elapsed, rate) == moment);
    }
    Ok(())
}

#[test]
fn a_rospec_that_starts(rt: HostRuntime) -> Result<(), Fail> {
    let alloc = rt.alloc();
    let up = octets(alloc, &STARTING)?;
    let mut reader = reader_as_new(alloc);
    let mut sent: Vec<Message> = Vec::new(alloc);
    reader.happen(5, ReaderIn::Connect, &mut sent)?;
    sent.clear();
    assert!(rt; !reader.feed(5, up.as_slice(), &mut sent)?);
    assert!(rt; reader.taken() == 3);
    assert!(rt; sent.len() == 5);
    for (place, message) in sent.as_slice().iter().enumerate() {
        assert!(rt; says_start(message) == (place == 4));
    }
    Ok(())
}

/// A reader as new.
fn reader_as_new(alloc: Global) -> LiveReader {
    LiveReader::new(alloc, Reader::new(alloc, 65_536, 1), Answers::new(alloc))
}

#[test]
fn what_is_said_beside_the_machine(rt: HostRuntime) -> Result<(), Fail> {
    let alloc = rt.alloc();
    let event = SideEvent::AntennaOff { number: 2 };
    let mut reader = reader_as_new(alloc);
    let mut sent: Vec<Message> = Vec::new(alloc);
    reader.notify(5, event, &mut sent)?;
    assert!(rt; sent.is_empty());
    reader.happen(5, ReaderIn::Connect, &mut sent)?;
    sent.clear();
    reader.notify(5, event, &mut sent)?;
    assert!(rt; are_spelled(alloc, sent.as_slice(), &[ANTENNA_OFF])?);
    Ok(())
}

/// The message of octets in the whole standard.
fn message_of(alloc: Global, text: &str) -> Option<Message> {
    let frame = octets(alloc, &[text]).ok()?;
    decoded_in(alloc, KindSet::Standard, frame.as_slice())?.ok()
}

#[test]
fn what_a_client_asked_to_hear(rt: HostRuntime) -> Result<(), Fail> {
    let alloc = rt.alloc();
    let asking = message_of(alloc, ASKING);
    let asked = message_of(alloc, ASKED);
    assert!(rt; asking.is_some() && asked.is_some());
    if let (Some(asking), Some(asked)) = (asking, asked) {
        let said = Vec::from_array(alloc, [asked])?;
        let item = Item::Msg(asking);
        let antenna = SideEvent::AntennaOn { number: 1 };
        let input = SideEvent::InputLow { port: 1 };
        let notices = Notices::none().after(&item, said.as_slice());
        assert!(rt; notices.includes(antenna) && !notices.includes(input));
        assert!(rt; notices.includes(SideEvent::OtherClient));
        assert!(rt; Notices::none().after(&item, &[]) == Notices::none());
    }
    Ok(())
}

#[test]
fn a_response_with_another_status(rt: HostRuntime) -> Result<(), Fail> {
    let alloc = rt.alloc();
    let added = message_of(alloc, ADDED);
    let event = message_of(alloc, ANTENNA_OFF);
    assert!(rt; added.is_some() && event.is_some());
    if let (Some(added), Some(event)) = (added, event) {
        let said = with_status(alloc, &added, 401, b"no room")?;
        assert!(rt; said.is_some());
        if let Some(said) = said {
            let said = Vec::from_array(alloc, [said])?;
            assert!(rt; are_spelled(alloc, said.as_slice(), &[NO_ROOM])?);
        }
        assert!(rt; with_status(alloc, &event, 401, b"no room")?.is_none());
    }
    Ok(())
}

#[test]
fn a_response_with_a_place(rt: HostRuntime) -> Result<(), Fail> {
    let alloc = rt.alloc();
    let frame = octets(alloc, &[OUT_OF_RANGE])?;
    let mut types = [0; MOST_LEVELS];
    types[0] = 177;
    let place = FaultPlace {
        types,
        depth: 1,
        field: Some(2),
        reason: Reason::Value,
    };
    assert!(rt; fault_place(frame.as_slice()) == Some(place));
    let refused = message_of(alloc, REFUSED);
    assert!(rt; refused.is_some());
    if let Some(refused) = refused {
        let said = with_place(alloc, &refused, &place)?;
        assert!(rt; said.is_some());
        if let Some(said) = said {
            let said = Vec::from_array(alloc, [said])?;
            assert!(rt; are_spelled(alloc, said.as_slice(), &[LOCATED])?);
        }
    }
    Ok(())
}

#[test]
fn a_reader_for_its_next_client(rt: HostRuntime) -> Result<(), Fail> {
    let alloc = rt.alloc();
    let up = octets(alloc, &STARTING)?;
    let mut reader = reader_as_new(alloc);
    let mut sent: Vec<Message> = Vec::new(alloc);
    reader.happen(5, ReaderIn::Connect, &mut sent)?;
    assert!(rt; !reader.feed(5, up.as_slice(), &mut sent)?);
    assert!(rt; reader.next_due() == None);
    let core = reader.into_reader();
    assert!(rt; core.state_of(1) == Some(RoState::Inactive));
    Ok(())
}
