//! The examples of the libraries of the two ends, and of the command line.

use crate::run::{CONNECTED, DOWN, LINES};
use crate::served::{ADD, ADDED, ENABLE, ENABLED, START, STOP};
use llrp_keys::run_answer;
use llrp_listing::Verdict;
use llrp_session::{Client, CmdFault, CmdRefusal, Command, Reader, TakeFault, TakeRefusal, Taken};
use llrp_tool::{
    Input, Output, Script, Summary, run_command, run_inventory, run_serve, standard_plan,
};
use llrp_tree::{MAX_LIMIT, Message};
use std::alloc::Global;
use std::test::Fail;
use tag_forms::{Company, Form, Wanted};
use test_devices::{are_spelled, decoded, octets, spell};

/// Why a client does not go on.
#[derive(Clone, Copy, Debug, PartialEq)]
enum Refused {
    Message(TakeFault),
    Command(CmdFault),
}

impl From<TakeRefusal> for Refused {
    fn from(refusal: TakeRefusal) -> Refused {
        Refused::Message(refusal.fault)
    }
}

impl From<CmdRefusal> for Refused {
    fn from(refusal: CmdRefusal) -> Refused {
        Refused::Command(refusal.fault)
    }
}

/// Whether a client is connected by its reader's first message, and what it has sent after a command.
fn llrp_session_client(
    alloc: Global,
    first_message: Message,
) -> Result<(bool, Vec<Message>), Refused> {
    let mut sent = Vec::new(alloc);
    let mut client = Client::new(alloc, 65_536, 1);
    let taken = client.take(first_message, &mut sent)?; // Taken::Connected
    client.command(Command::GetReport, &mut sent)?; // sent now ends with GET_REPORT
    Ok((matches!(taken, Taken::Connected), sent))
}

#[test]
fn llrp_session_example(rt: HostRuntime) -> Result<(), Fail> {
    let frame = octets(rt.alloc(), &[CONNECTED])?;
    let first_message = decoded(rt.alloc(), frame.as_slice()).ok_or("no frame")??;
    let (is_connected, sent) = llrp_session_client(rt.alloc(), first_message)?;
    assert!(rt; is_connected);
    assert!(rt; are_spelled(rt.alloc(), sent.as_slice(), &["043C0000000A00000001"])?);
    Ok(())
}

/// What a reader sends to a client that adds, enables, starts and stops a ROSpec, where a tag of a GID is
/// seen after START.
const SERVED: [&str; 8] = [
    CONNECTED,
    ADDED,
    ENABLED,
    "08200000001200000004 011F000800000000",
    "083F0000002700000002 00F6001D 0080000C0000000000000000 00F9000D000000000100000000",
    "083D0000002000000003 00F00016 8D350000001000002000000003 810001 86C4",
    "083F0000002700000004 00F6001D 0080000C00000000000003E8 00F9000D010000000100000000",
    "08210000001200000005 011F000800000000",
];

#[test]
fn llrp_endpoints_serve(rt: HostRuntime) -> Result<(), Fail> {
    let alloc = rt.alloc();
    let up = octets(alloc, &[ADD, ENABLE, START, STOP])?;
    let mut source = Input::new(up.as_slice());
    let mut sink = Output::new(Vec::new(alloc));
    let script = Script::parse(alloc, b"3 1000 seen 1 -60 urn:epc:tag:gid-96:1.2.3\n")?;
    run_serve(
        alloc,
        Reader::new(alloc, MAX_LIMIT, 1),
        script,
        &mut source,
        &mut sink,
    )?;
    assert!(rt; spell(alloc, &SERVED, sink.into_inner().as_slice())?);
    Ok(())
}

#[test]
fn llrp_endpoints_inventory(rt: HostRuntime) -> Result<(), Fail> {
    let alloc = rt.alloc();
    let down = octets(alloc, &DOWN)?;
    let mut source = Input::new(down.as_slice());
    let mut sink = Output::new(Vec::new(alloc));
    let mut lines = Output::new(Vec::new(alloc));
    let plan = standard_plan(alloc, 2, 1)?;
    let summary = run_inventory(alloc, plan, MAX_LIMIT, &mut source, &mut sink, &mut lines)?;
    assert_eq!(rt;
        summary,
        Summary {
            tags: 1,
            reports: 2
        }
    );
    assert!(rt; lines.into_inner().as_slice() == LINES);
    Ok(())
}

#[test]
fn llrp_commands_example(rt: HostRuntime) -> Result<(), Fail> {
    let alloc = rt.alloc();
    let mut input = Input::new(b"".as_slice());
    let mut output = Output::new(Vec::new(alloc));
    let mut errors = Output::new(Vec::new(alloc));
    let words = ["epc", "3074257BF7194E4000001A85"];
    let status = run_command(alloc, &words, &mut input, &mut output, &mut errors)?; // 0, and the text was written to output
    assert_eq!(rt; status, 0);
    let text = b"urn:epc:tag:sgtin-96:3.0614141.812345.6789\n".as_slice();
    assert!(rt; output.into_inner().as_slice() == text);
    Ok(())
}

#[test]
fn llrp_keys_example(rt: HostRuntime) -> Result<(), Fail> {
    let alloc = rt.alloc();
    let mut output = Output::new(Vec::new(alloc));
    let verdict = run_answer(
        alloc,
        "(01)80614141123458(21)6789",
        Wanted::Text(Form::Hex),
        3,
        Company::Digits(Some(7)),
        &mut output,
    )?;
    assert_eq!(rt; verdict, Verdict::Lawful);
    assert!(rt; output.into_inner().as_slice() == b"3074257BF7194E4000001A85\n".as_slice());
    Ok(())
}
