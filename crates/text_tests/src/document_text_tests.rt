//! Documents that are read, and documents that are refused.

use document_text::*;
use net_types::OutOfMemory;
use std::alloc::Global;

/// The lines one behind another, each with an LF at its end.
fn joined(alloc: Global, lines: &Lines) -> Result<Vec<u8>, OutOfMemory> {
    let mut texts = Vec::new(alloc);
    for place in 0..lines.len() {
        if let Some(text) = lines.at(place) {
            texts.extend_from_slice(text)?;
            texts.push(b'\n')?;
        }
    }
    Ok(texts)
}

/// The lines that reading these octets gives; `None` where the document is refused as `Toml`.
fn texts(alloc: Global, octets: &[u8]) -> Result<Option<Vec<u8>>, DocumentFault> {
    match read_document(alloc, octets) {
        Ok(lines) => Ok(Some(joined(alloc, &lines)?)),
        Err(DocumentFault::Refused(DocumentRefusal::Toml)) => Ok(None),
        Err(fault) => Err(fault),
    }
}

/// Whether these lines are found, or none are where there are to be none.
fn are_found(found: &Option<Vec<u8>>, want: Option<&str>) -> bool {
    match (found, want) {
        (Some(found), Some(want)) => found.as_slice() == want.as_bytes(),
        (None, None) => true,
        _ => false,
    }
}

/// Documents, and their lines.
const DOCUMENTS: [(&[u8], Option<&str>); 14] = [
    (
        b"topology = [\"node a 10.0.1.1\", \"route a 10.0.0.0/8 local\"]\nevents = [\"send a 00\"]",
        Some("node a 10.0.1.1\nroute a 10.0.0.0/8 local\nsend a 00\n"),
    ),
    (
        b"events = ['send a 00', \"\"]\ntopology = [\"node a 10.0.1.1\\n\"]\n",
        Some("node a 10.0.1.1\n\nsend a 00\n\n"),
    ),
    (b"events = [\"tick a\"] # no topology", Some("tick a\n")),
    (b"topology = []", Some("")),
    (b"", Some("")),
    (b"topology = []\nevent = []", None),
    (b"topology = []\nevents = []\nrules = []", Some("")),
    (
        b"events = [\"tick a\"]\ntopology = ['# b']\nrules = [\"\", 'deny']",
        Some("\ndeny\n# b\ntick a\n"),
    ),
    (b"topology = []\nevents = []\nrule = []", None),
    (b"topology = [\"node a 10.0.1.1\", 1]", None),
    (b"events = \"tick a\"", None),
    (b"[topology]", None),
    (b"topology = [\"\xff\"]", None),
    (b"node a 10.0.1.1\n", None),
];

#[test]
fn documents_have_lines_or_none(rt: HostRuntime) -> Result<(), DocumentFault> {
    for &(octets, want) in &DOCUMENTS {
        let found = texts(rt.alloc(), octets)?;
        assert!(rt; are_found(&found, want), "{octets:?}");
    }
    Ok(())
}
