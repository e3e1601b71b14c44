//! The objects of messages in JSON, against lines worked out from the standard.

use llrp_json::{
    JsonLister, JsonPrinter, Names, list_stream_json, list_stream_json_named, push_parameters,
    run_show_json, run_show_json_named,
};
use llrp_listing::Text;
use llrp_schema::KindSet;
use llrp_stream::{Came, Frames, Input, Outcome, Output};
use llrp_tool::Verdict;
use std::alloc::Global;
use std::test::*;
use test_devices::{decoded_in, octets};

/// A frame as hexadecimal digits, and the line of its object.
pub struct Line {
    pub name: &'static str,
    pub frame: &'static str,
    pub line: &'static str,
}

pub static LINES: [Line; 5] = [
    Line {
        name: "keepalive",
        frame: "083E0000000A00000007",
        line: "{\"message\":\"KEEPALIVE\",\"version\":2,\"id\":7}\n",
    },
    Line {
        name: "an EPC, an antenna and a negative RSSI",
        frame: "043D0000002000000001 00F00016 8D3074257BF7194E4000001A85 810001 86C4",
        line: "{\"message\":\"RO_ACCESS_REPORT\",\"version\":1,\"id\":1,\"parameters\":[{\"parameter\":\"TagReportData\",\"parameters\":[{\"parameter\":\"EPC-96\",\"EPC\":\"urn:epc:tag:sgtin-96:3.0614141.812345.6789\"},{\"parameter\":\"AntennaID\",\"AntennaID\":1},{\"parameter\":\"PeakRSSI\",\"PeakRSSI\":-60}]}]}\n",
    },
    Line {
        name: "a text with a quote, a backslash and LF",
        frame: "04640000001600000002 011F000C 0064 0004 61225C0A",
        line: "{\"message\":\"ERROR_MESSAGE\",\"version\":1,\"id\":2,\"parameters\":[{\"parameter\":\"LLRPStatus\",\"StatusCode\":100,\"text\":\"a\\\"\\\\\\u000a\"}]}\n",
    },
    Line {
        name: "bits",
        frame: "043D0000001600000003 00F0000C 00F10008 0010 F0A1",
        line: "{\"message\":\"RO_ACCESS_REPORT\",\"version\":1,\"id\":3,\"parameters\":[{\"parameter\":\"TagReportData\",\"parameters\":[{\"parameter\":\"EPCData\",\"BitCount\":16,\"bits\":\"f0a1\"}]}]}\n",
    },
    Line {
        name: "words, and parameters of parameters",
        frame: "04140000004000000005 00B10036 00000001 00 00 00B20012 00B30005 00 00B60009 00 00000000 00B7001A 0002 0001 012C 00B80009 00 00000000 00BA0007 0001 01",
        line: "{\"message\":\"ADD_ROSPEC\",\"version\":1,\"id\":5,\"parameters\":[{\"parameter\":\"ROSpec\",\"ROSpecID\":1,\"Priority\":0,\"CurrentState\":0,\"parameters\":[{\"parameter\":\"ROBoundarySpec\",\"parameters\":[{\"parameter\":\"ROSpecStartTrigger\",\"Type\":0},{\"parameter\":\"ROSpecStopTrigger\",\"Type\":0,\"Duration\":0}]},{\"parameter\":\"AISpec\",\"words\":[1,300],\"parameters\":[{\"parameter\":\"AISpecStopTrigger\",\"Type\":0,\"Duration\":0},{\"parameter\":\"InventoryParameterSpec\",\"ID\":1,\"ProtocolID\":1}]}]}]}\n",
    },
];

#[test]
fn objects_of_messages(rt: HostRuntime) -> Result<(), Fail> {
    let alloc = rt.alloc();
    for line in &LINES {
        let frame = octets(alloc, &[line.frame])?;
        let mut printer = JsonPrinter::new(alloc);
        let mut frames = Frames::new(65_536);
        let Came { used, outcome } = frames.feed(&mut printer, frame.as_slice())?;
        assert!(rt; used == frame.len(), "{}", line.name);
        assert!(rt; matches!(outcome, Some(Outcome::Whole)), "{}", line.name);
        assert!(rt; printer.as_slice() == line.line.as_bytes(), "{}", line.name);
    }
    Ok(())
}

/// Streams with a frame that is no message, or with an end that is not clean.
static FAULTY: [Line; 4] = [
    Line {
        name: "an octet too many",
        frame: "083E0000000B0000000700 083E0000000A00000008",
        line: "{\"fault\":\"Extra\",\"id\":7,\"bit\":80}\n{\"message\":\"KEEPALIVE\",\"version\":2,\"id\":8}\n",
    },
    Line {
        name: "an unknown parameter",
        frame: "043D0000000E00000001 03FE0004",
        line: "{\"fault\":\"ParamType\",\"id\":1,\"bit\":86}\n",
    },
    Line {
        name: "a rest",
        frame: "083E0000000A00000007 083E0000",
        line: "{\"message\":\"KEEPALIVE\",\"version\":2,\"id\":7}\n{\"rest\":4}\n",
    },
    Line {
        name: "a break",
        frame: "083E00000009",
        line: "{\"broken\":true}\n",
    },
];

#[test]
fn lines_of_faults_and_ends(rt: HostRuntime) -> Result<(), Fail> {
    let alloc = rt.alloc();
    for line in &FAULTY {
        let stream = octets(alloc, &[line.frame])?;
        let mut listed = Output::new(Vec::new(alloc));
        let verdict = list_stream_json(
            alloc,
            KindSet::Profile,
            stream.as_slice(),
            &mut listed,
            65_536,
        )?;
        assert!(rt; verdict == Verdict::Faulty, "{}", line.name);
        assert!(rt;
            listed.into_inner().as_slice() == line.line.as_bytes(),
            "{}",
            line.name
        );
        let mut source = Input::new(stream.as_slice());
        let mut shown = Output::new(Vec::new(alloc));
        let verdict = run_show_json(alloc, KindSet::Profile, &mut source, &mut shown, 65_536)?;
        assert!(rt; verdict == Verdict::Faulty, "{}", line.name);
        assert!(rt;
            shown.into_inner().as_slice() == line.line.as_bytes(),
            "{}",
            line.name
        );
    }
    Ok(())
}

/// What a stream has, piece by piece: a KEEPALIVE in three pieces, a frame with an octet too many, and a
/// length field of 9.
static PIECES: [(&str, &str); 6] = [
    ("08", ""),
    ("3E0000000A0000", ""),
    (
        "0007 083E",
        "{\"message\":\"KEEPALIVE\",\"version\":2,\"id\":7}\n",
    ),
    (
        "0000000B0000000700 083E0000000A00000008",
        "{\"fault\":\"Extra\",\"id\":7,\"bit\":80}\n{\"message\":\"KEEPALIVE\",\"version\":2,\"id\":8}\n",
    ),
    ("083E00000009", ""),
    ("083E0000000A00000009", ""),
];

#[test]
fn lines_of_pieces(rt: HostRuntime) -> Result<(), Fail> {
    let alloc = rt.alloc();
    let mut lister = JsonLister::new(alloc, 65_536);
    for (piece, line) in &PIECES {
        let mut text = Vec::new(alloc);
        lister.feed(octets(alloc, &[*piece])?.as_slice(), &mut text)?;
        assert!(rt; text.as_slice() == line.as_bytes(), "{piece}");
    }
    Ok(())
}

/// Parameters of whole messages, and the member that has their objects: of a report with a result and a
/// Custom parameter, of two with bits and with a sign, of one with reserved bits, and of one with a text; and
/// of none.
static MEMBERS: [Line; 5] = [
    Line {
        name: "a result of an operation and Custom",
        frame: "043D0000003300000001 00F00029 8D3074257BF7194E4000001A85 015D000B 00 0001 0001 E200 03FF000D 0000651A 00000025 AA",
        line: ",\"parameters\":[{\"parameter\":\"TagReportData\",\"parameters\":[{\"parameter\":\"EPC-96\",\"EPC\":\"urn:epc:tag:sgtin-96:3.0614141.812345.6789\"},{\"parameter\":\"C1G2ReadOpSpecResult\",\"Result\":0,\"OpSpecID\":1,\"words\":[57856]},{\"parameter\":\"Custom\",\"VendorIdentifier\":25882,\"ParameterSubtype\":37,\"octets\":\"aa\"}]}]",
    },
    Line {
        name: "two of them, with bits, and with a sign",
        frame: "043D0000002800000002 00F0000B 00F10007 0008 A1 00F00013 8D3074257BF7194E4000001A85 86C4",
        line: ",\"parameters\":[{\"parameter\":\"TagReportData\",\"parameters\":[{\"parameter\":\"EPCData\",\"BitCount\":8,\"bits\":\"a1\"}]},{\"parameter\":\"TagReportData\",\"parameters\":[{\"parameter\":\"EPC-96\",\"EPC\":\"urn:epc:tag:sgtin-96:3.0614141.812345.6789\"},{\"parameter\":\"PeakRSSI\",\"PeakRSSI\":-60}]}]",
    },
    Line {
        name: "reserved bits after a flag",
        frame: "04030000001600000003 00 00F4000B 00F50007 0001 80",
        line: ",\"parameters\":[{\"parameter\":\"ReaderEventNotificationSpec\",\"parameters\":[{\"parameter\":\"EventNotificationState\",\"EventType\":1,\"NotificationState\":1}]}]",
    },
    Line {
        name: "a text with a quote",
        frame: "04640000001400000002 011F000A 0064 0002 6122",
        line: ",\"parameters\":[{\"parameter\":\"LLRPStatus\",\"StatusCode\":100,\"text\":\"a\\\"\"}]",
    },
    Line {
        name: "none",
        frame: "083E0000000A00000007",
        line: "",
    },
];

#[test]
fn members_of_parameters(rt: HostRuntime) -> Result<(), Fail> {
    let alloc = rt.alloc();
    for line in &MEMBERS {
        let frame = octets(alloc, &[line.frame])?;
        let decoded = decoded_in(alloc, KindSet::Standard, frame.as_slice());
        let Some(Ok(message)) = decoded else {
            assert!(rt; false, "{}", line.name);
            continue;
        };
        let mut text = Text::new(alloc);
        push_parameters(&mut text, message.children().as_slice())?;
        assert!(rt; text.as_slice() == line.line.as_bytes(), "{}", line.name);
    }
    Ok(())
}

/// Messages of the profile with a field that has a longer name in the standard, under that name; and frames
/// that are none.
static NAMED: [Line; 4] = [
    Line {
        name: "the state of a ROSpec, of a TLV with three fields",
        frame: "043F0000002700000001 00F6001D 0080000C 0005AF3107A40000 00F9000D 01 00000002 00000003",
        line: "{\"message\":\"READER_EVENT_NOTIFICATION\",\"version\":1,\"id\":1,\"parameters\":[{\"parameter\":\"ReaderEventNotificationData\",\"parameters\":[{\"parameter\":\"UTCTimestamp\",\"Microseconds\":1600000000000000},{\"parameter\":\"ROSpecEvent\",\"EventType\":1,\"ROSpecID\":2,\"PreemptingROSpecID\":3}]}]}\n",
    },
    Line {
        name: "words, and names in parameters of parameters",
        frame: "04140000004000000005 00B10036 00000001 00 00 00B20012 00B30005 00 00B60009 00 00000000 00B7001A 0002 0001 012C 00B80009 00 00000000 00BA0007 0001 01",
        line: "{\"message\":\"ADD_ROSPEC\",\"version\":1,\"id\":5,\"parameters\":[{\"parameter\":\"ROSpec\",\"ROSpecID\":1,\"Priority\":0,\"CurrentState\":0,\"parameters\":[{\"parameter\":\"ROBoundarySpec\",\"parameters\":[{\"parameter\":\"ROSpecStartTrigger\",\"ROSpecStartTriggerType\":0},{\"parameter\":\"ROSpecStopTrigger\",\"ROSpecStopTriggerType\":0,\"DurationTriggerValue\":0}]},{\"parameter\":\"AISpec\",\"words\":[1,300],\"parameters\":[{\"parameter\":\"AISpecStopTrigger\",\"AISpecStopTriggerType\":0,\"DurationTrigger\":0},{\"parameter\":\"InventoryParameterSpec\",\"InventoryParameterSpecID\":1,\"ProtocolID\":1}]}]}]}\n",
    },
    Line {
        name: "reserved bits before a named field, and a message with a field",
        frame: "04030000001400000006 80 00DC0009 01 00000064",
        line: "{\"message\":\"SET_READER_CONFIG\",\"version\":1,\"id\":6,\"ResetToFactoryDefault\":1,\"parameters\":[{\"parameter\":\"KeepaliveSpec\",\"KeepaliveTriggerType\":1,\"PeriodicTriggerValue\":100}]}\n",
    },
    Line {
        name: "a message that the profile leaves out, and a rest",
        frame: "04010000000B0000000500 083E",
        line: "{\"fault\":\"MessageType\",\"id\":5,\"bit\":6}\n{\"rest\":2}\n",
    },
];

/// The lines of a stream under these names, from memory and from a source.
fn lines_named(alloc: Global, names: Names, stream: &[u8]) -> Result<(Vec<u8>, Vec<u8>), Fail> {
    let mut listed = Output::new(Vec::new(alloc));
    list_stream_json_named(alloc, names, KindSet::Profile, stream, &mut listed, 65_536)?;
    let mut source = Input::new(stream);
    let mut shown = Output::new(Vec::new(alloc));
    run_show_json_named(
        alloc,
        names,
        KindSet::Profile,
        &mut source,
        &mut shown,
        65_536,
    )?;
    Ok((listed.into_inner(), shown.into_inner()))
}

#[test]
fn lines_under_the_names_of_the_standard(rt: HostRuntime) -> Result<(), Fail> {
    let alloc = rt.alloc();
    for line in &NAMED {
        let stream = octets(alloc, &[line.frame])?;
        let (listed, shown) = lines_named(alloc, Names::Standard, stream.as_slice())?;
        assert!(rt; listed.as_slice() == line.line.as_bytes(), "{}", line.name);
        assert!(rt; shown.as_slice() == line.line.as_bytes(), "{}", line.name);
    }
    Ok(())
}

#[test]
fn lines_under_their_own_names(rt: HostRuntime) -> Result<(), Fail> {
    let alloc = rt.alloc();
    for line in &LINES {
        let stream = octets(alloc, &[line.frame])?;
        let (listed, shown) = lines_named(alloc, Names::Own, stream.as_slice())?;
        assert!(rt; listed.as_slice() == line.line.as_bytes(), "{}", line.name);
        assert!(rt; shown.as_slice() == line.line.as_bytes(), "{}", line.name);
    }
    Ok(())
}
