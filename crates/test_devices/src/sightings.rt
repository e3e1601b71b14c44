//! Three sightings that a simulated reader reports, as `examples/inventory.script` has them, and what an
//! inventory prints of them.

/// The script: once the reader took three messages, it sees a tag at 1,000, 2,000 and 3,000 microseconds.
pub const THREE_SIGHTINGS: &[u8] = b"3 1000 seen 1 -60 urn:epc:tag:sgtin-96:3.0614141.812345.6789\n\
    3 2000 seen 1 -61 urn:epc:tag:sscc-96:0.0614141.0000000001\n\
    3 3000 seen 2 -62 urn:epc:tag:gid-96:1.2.3\n";

/// The lines of an inventory by a plan that reports after two tags.
pub const THREE_LINES: &[u8] = b"urn:epc:tag:sgtin-96:3.0614141.812345.6789 1 -60\n\
    urn:epc:tag:sscc-96:0.0614141.0000000001 1 -61\n\
    = 2\n\
    urn:epc:tag:gid-96:1.2.3 2 -62\n\
    = 1\n\
    total 3 2\n";
