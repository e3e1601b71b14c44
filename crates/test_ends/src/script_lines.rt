//! The lines of a script in real time, and the tags that their files have.

use llrp_live::{
    Again, Deed, Line, MOST_NUMBERS, MOST_OCTETS, Rounds, ShortNumbers, ShortOctets, TagsErr, When,
    line_of, sighting_at, words_of_tags,
};
use llrp_schema::MsgKind;
use llrp_session::SideEvent;
use std::test::*;

/// The number of a line.
const NUMBER: u64 = 7;

/// A line that happens once.
fn once(when: When, deed: Deed) -> Option<Line> {
    Some(Line {
        number: NUMBER,
        when,
        again: None,
        deed,
    })
}

/// A line that happens a second after the connection was accepted.
fn later(deed: Deed) -> Option<Line> {
    once(When::Accepted { wait: 1_000_000 }, deed)
}

#[test]
fn lines_and_what_they_are(rt: HostRuntime) -> Result<(), Fail> {
    let frames = When::Frames {
        after: 3,
        now: 1_000,
    };
    let repeated = Line {
        number: NUMBER,
        when: When::Started { wait: 2_000_000 },
        again: Some(Again {
            period: 20_000,
            left: 10_000_000,
            done: 0,
        }),
        deed: Deed::Tick,
    };
    let silent = Deed::Silent { wait: 3_000_000 };
    for (text, line) in [
        (b"3 1000 tick".as_slice(), once(frames, Deed::Tick)),
        (
            b"accepted+500ms close",
            once(When::Accepted { wait: 500_000 }, Deed::Close),
        ),
        (b"started+2s every 20ms for 10s tick", Some(repeated)),
        (
            b"accepted+0s silent 3s",
            once(When::Accepted { wait: 0 }, silent),
        ),
        (b"accepted+1 tick", None),
        (b"accepted+01s tick", None),
        (b"accepted+1s every 0ms for 1s tick", None),
        (b"ended+1s tick", None),
        (b"3 1000 close", None),
    ] {
        assert!(rt; line_of(rt.alloc(), NUMBER, text)? == line);
    }
    Ok(())
}

/// Lines of what happens beside the machine, and those events.
static SIDE_LINES: [(&[u8], SideEvent); 4] = [
    (
        b"accepted+1s antenna 2 off",
        SideEvent::AntennaOff { number: 2 },
    ),
    (
        b"accepted+1s antenna 65535 on",
        SideEvent::AntennaOn { number: 65_535 },
    ),
    (b"accepted+1s gpi 1 high", SideEvent::InputHigh { port: 1 }),
    (b"accepted+1s gpi 0 low", SideEvent::InputLow { port: 0 }),
];

/// The octets 04 and FF.
fn two_octets() -> ShortOctets {
    let mut octets = [0; MOST_OCTETS];
    octets[0] = 4;
    octets[1] = 255;
    ShortOctets { octets, count: 2 }
}

/// The status 401 and the text "no room", for the next ADD_ROSPEC_RESPONSE.
fn no_room() -> Deed {
    let mut octets = [0; MOST_OCTETS];
    octets[..7].copy_from_slice(b"no room");
    Deed::Status {
        kind: MsgKind::WholeAddRoSpecResponse,
        status: 401,
        text: ShortOctets { octets, count: 7 },
    }
}

#[test]
fn lines_of_a_bench(rt: HostRuntime) -> Result<(), Fail> {
    for (text, event) in &SIDE_LINES {
        assert!(rt; line_of(rt.alloc(), NUMBER, text)? == later(Deed::Side(*event)));
    }
    let expected = Deed::Expect {
        kind: MsgKind::WholeSetReaderConfig,
        wait: 2_000_000,
    };
    for (text, line) in [
        (
            b"accepted+1s expect SET_READER_CONFIG within 2s".as_slice(),
            later(expected),
        ),
        (
            b"accepted+1s octets 04Ff",
            later(Deed::Octets(two_octets())),
        ),
        (b"accepted+1s cut 17", later(Deed::Cut { count: 17 })),
        (
            b"accepted+1s status 401 ADD_ROSPEC_RESPONSE no room",
            later(no_room()),
        ),
        (b"accepted+1s status 65536 ADD_ROSPEC_RESPONSE", None),
        (b"accepted+1s expect KEEPALIVES within 2s", None),
        (b"accepted+1s octets 04F", None),
        (b"accepted+1s antenna 65536 on", None),
        (b"accepted+1s antenna 1 low", None),
    ] {
        assert!(rt; line_of(rt.alloc(), NUMBER, text)? == line);
    }
    Ok(())
}

/// A few numbers.
fn short_numbers(given: &[u16]) -> ShortNumbers {
    let mut numbers = [0; MOST_NUMBERS];
    let count = given.len().min(MOST_NUMBERS);
    for (at, number) in given.iter().enumerate() {
        if at < count {
            numbers[at] = *number;
        }
    }
    ShortNumbers { numbers, count }
}

/// Two antennas and three signal strengths, with the file `tags`.
fn rounds() -> Rounds {
    let mut octets = [0; MOST_OCTETS];
    octets[..4].copy_from_slice(b"tags");
    Rounds {
        antennas: short_numbers(&[1, 2]),
        least: -70,
        greatest: -68,
        file: ShortOctets { octets, count: 4 },
    }
}

#[test]
fn lines_with_files_of_tags(rt: HostRuntime) -> Result<(), Fail> {
    let one = Rounds {
        antennas: short_numbers(&[65_535]),
        least: -60,
        greatest: -60,
        ..rounds()
    };
    for (text, line) in [
        (
            b"accepted+1s seen 1,2 -70..-68 tags".as_slice(),
            later(Deed::Tags(rounds())),
        ),
        (b"accepted+1s seen 65535 -60 tags", later(Deed::Tags(one))),
        (b"accepted+1s seen 1,,2 -60 tags", None),
        (b"accepted+1s seen 1, -60 tags", None),
        (b"accepted+1s seen 65536 -60 tags", None),
        (b"accepted+1s seen 1 -68..-70 tags", None),
        (b"accepted+1s seen 1 -60...-50 tags", None),
        (b"accepted+1s seen 1 -60 ", None),
        (b"accepted+1s seen 1 -60 urn:tags", None),
        (b"3 1000 seen 1 -60 tags", None),
    ] {
        assert!(rt; line_of(rt.alloc(), NUMBER, text)? == line);
    }
    Ok(())
}

#[test]
fn tags_of_a_file(rt: HostRuntime) -> Result<(), Fail> {
    let text = b"urn:epc:tag:gid-96:1.2.3\nurn:epc:tag:gid-96:1.2.4\n";
    let words = words_of_tags(rt.alloc(), text)?;
    assert!(rt; words.len() == 2);
    for (turn, antenna, rssi, word) in [
        (0, 1, -70, 0),
        (1, 2, -69, 1),
        (2, 1, -68, 0),
        (3, 2, -70, 1),
        (u64::MAX, 2, -70, 1),
    ] {
        let seen = sighting_at(&rounds(), words.as_slice(), turn);
        assert!(rt; seen.is_some());
        if let Some(seen) = seen {
            assert!(rt; seen.antenna == antenna && seen.rssi == rssi);
            assert!(rt; seen.epc == words[word]);
        }
    }
    assert!(rt; sighting_at(&rounds(), &[], 0) == None);
    for (text, line) in [
        (b"".as_slice(), 1),
        (b"urn:epc:tag:gid-96:1.2.3\n\n", 2),
        (b"urn:epc:tag:gid-96:1.2.3", 1),
        (b"urn:epc:tag:gid-96:1.2.3\nurn:epc:id:gid:1.2.3\n", 2),
    ] {
        let refused = words_of_tags(rt.alloc(), text).err();
        assert!(rt; refused == Some(TagsErr::Line { line }));
    }
    Ok(())
}
