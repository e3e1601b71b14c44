//! Streams and listings with messages and parameters that the profile leaves out, in both sets of kinds, cut
//! anywhere.

use llrp_tool::{Output, Refusal, ToolErr, Verdict, run_encode_in, run_show_in};
use llrp_tree::KindSet;
use std::alloc::Global;
use std::test::*;
use test_devices::{Pieces, octets};

/// A frame, its listing among all of LLRP 1.1 and in the profile, and the line at which the profile refuses
/// the first listing.
struct Both {
    frame: &'static str,
    whole: &'static str,
    own: &'static str,
    refused: u64,
}

/// A report with a maker's parameter after the EPC, a request for capabilities, a configuration with a
/// maker's parameter, a maker's message, and an AccessSpec whose only operation is a maker's (LLRP 1.1,
/// section 17). Vendor 25882 is Impinj.
const BOTH: [Both; 6] = [
    Both {
        frame: "043D0000002900000001 00F0001F 8D3074257BF7194E4000001A85 03FF000E0000651A000000250001",
        whole: "0 RO_ACCESS_REPORT 1 1
1 TagReportData
2 EPC-96 urn:epc:tag:sgtin-96:3.0614141.812345.6789
2 Custom 25882 37 x0001
",
        own: "! 1 222 ParamType\n",
        refused: 4,
    },
    Both {
        frame: "04010000000B0000000500",
        whole: "0 GET_READER_CAPABILITIES 1 5 0\n",
        own: "! 5 6 MessageType\n",
        refused: 1,
    },
    Both {
        frame: "04030000001900000003 00 03FF000E0000651A000000250001",
        whole: "0 SET_READER_CONFIG 1 3 0\n1 Custom 25882 37 x0001\n",
        own: "! 3 94 ParamType\n",
        refused: 2,
    },
    Both {
        frame: "07FF0000000F00000002 0000651A 15",
        whole: "0 CUSTOM_MESSAGE 1 2 25882 21 x\n",
        own: "! 2 6 MessageType\n",
        refused: 1,
    },
    Both {
        frame: "07FF0000001300000007 0000651A 15 00000000",
        whole: "0 CUSTOM_MESSAGE 1 7 25882 21 x00000000\n",
        own: "! 7 6 MessageType\n",
        refused: 1,
    },
    Both {
        frame: "0428000000420000000900CF0038000000090000010000000007 00D00007000000 00D10021 0152000F0153000B60002000000000 03FF000E0000651A000000250001",
        whole: "0 ADD_ACCESSSPEC 1 9
1 AccessSpec 9 0 1 0 7
2 AccessSpecStopTrigger 0 0
2 AccessCommand
3 C1G2TagSpec
4 C1G2TargetTag 1 1 32 0 x0000
3 Custom 25882 37 x0001
",
        own: "! 9 6 MessageType\n",
        refused: 1,
    },
];

/// Whether a stream that comes in two pieces has this listing in a set of kinds, and this verdict.
fn is_listed(
    alloc: Global,
    set: KindSet,
    stream: &[u8],
    first: usize,
    listing: &str,
    verdict: Verdict,
) -> bool {
    let mut source = Pieces::new(stream, first, 4096);
    let mut sink = Output::new(Vec::new(alloc));
    let found = run_show_in(alloc, set, &mut source, &mut sink, 65_536);
    found == Ok(verdict) && sink.into_inner().as_slice() == listing.as_bytes()
}

/// The answer to a listing that comes in two pieces, in a set of kinds, and the octets written.
fn encoded(
    alloc: Global,
    set: KindSet,
    listing: &str,
    first: usize,
) -> (Result<(), ToolErr>, Vec<u8>) {
    let mut source = Pieces::new(listing.as_bytes(), first, 4096);
    let mut sink = Output::new(Vec::new(alloc));
    let answer = run_encode_in(alloc, set, &mut source, &mut sink, 65_536);
    (answer, sink.into_inner())
}

#[test]
fn streams_listed_in_both_sets(rt: HostRuntime) -> Result<(), ToolErr> {
    let alloc = rt.alloc();
    for both in &BOTH {
        let frame = octets(alloc, &[both.frame])?;
        let stream = frame.as_slice();
        for first in 1..=stream.len() {
            assert!(rt;
                is_listed(
                    alloc,
                    KindSet::Standard,
                    stream,
                    first,
                    both.whole,
                    Verdict::Lawful
                )
            );
            assert!(rt;
                is_listed(
                    alloc,
                    KindSet::Profile,
                    stream,
                    first,
                    both.own,
                    Verdict::Faulty
                )
            );
        }
    }
    Ok(())
}

#[test]
fn listings_encoded_in_both_sets(rt: HostRuntime) -> Result<(), ToolErr> {
    let alloc = rt.alloc();
    for both in &BOTH {
        let frame = octets(alloc, &[both.frame])?;
        for first in 1..=both.whole.len() {
            let (answer, written) = encoded(alloc, KindSet::Standard, both.whole, first);
            assert!(rt; answer == Ok(()) && written.as_slice() == frame.as_slice());
            let (answer, written) = encoded(alloc, KindSet::Profile, both.whole, first);
            let refused = ToolErr::Listing {
                line: both.refused,
                reason: Refusal::Name,
            };
            assert!(rt; answer == Err(refused) && written.is_empty());
        }
    }
    Ok(())
}
