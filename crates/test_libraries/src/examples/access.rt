//! The examples of the libraries of keys, of tags' memory and of operations on it, and of messages in memory.

use llrp_access::{AccessSpec, Entry, Operation, OperationResult, chosen, perform};
use llrp_schema::KindSet;
use llrp_texts::messages_of;
use llrp_tree::MAX_LIMIT;
use std::alloc::Global;
use std::test::Fail;
use tag_bits::Word;
use tag_epc::Epc;
use tag_forms::{Form, text_in, word_in};
use tag_keys::{Spelling, parse_key, print_key};
use tag_memory::{Bank, TagMemory};

#[test]
fn tag_keys_example(rt: HostRuntime) -> Result<(), Fail> {
    let epc = Epc::from_word(Word::of_bytes([
        0x30, 0x74, 0x25, 0x7B, 0xF7, 0x19, 0x4E, 0x40, 0x00, 0x00, 0x1A, 0x85,
    ]))?;
    let expected = epc;
    let text = print_key(&epc, Spelling::Element);
    match text {
        Some(text) => assert_eq!(rt; text.as_str(), "(01)80614141123458(21)6789"),
        None => assert!(rt; false),
    }
    let epc = parse_key("(01)80614141123458(21)6789", Spelling::Element, 3, 7)?;
    assert_eq!(rt; epc, expected);
    Ok(())
}

#[test]
fn tag_forms_example(rt: HostRuntime) -> Result<(), Fail> {
    let word = Word::of_bytes([
        0x30, 0x74, 0x25, 0x7B, 0xF7, 0x19, 0x4E, 0x40, 0x00, 0x00, 0x1A, 0x85,
    ]);
    let expected = word;
    let text = text_in(word, Form::Key); // gtin 80614141123458 6789
    match text {
        Some(text) => assert_eq!(rt; text.as_str(), "gtin 80614141123458 6789"),
        None => assert!(rt; false),
    }
    let word = word_in("(01)80614141123458(21)6789", Form::Element, 3, Some(7))?;
    assert_eq!(rt; word.number(), expected.number());
    Ok(())
}

/// A memory with one word of TID and two of user memory, and no password.
fn memory(alloc: Global) -> Result<TagMemory, Fail> {
    let reserved = Vec::new(alloc);
    let epc = vec![in alloc; 0u16, 0x3000]?;
    let tid = vec![in alloc; 0xE200u16]?;
    let user = vec![in alloc; 0u16, 0]?;
    Ok(TagMemory::new(reserved, epc, tid, user))
}

#[test]
fn tag_memory_example(rt: HostRuntime) -> Result<(), Fail> {
    let mut memory = memory(rt.alloc())?;
    memory.write(0, Bank::User, 0, &[0x1234])?;
    let words = memory.read(0, Bank::User, 0, 1)?;
    assert!(rt; words == [0x1234].as_slice());
    Ok(())
}

/// An AccessSpec for every tag, which reads its first word of TID.
fn reads_tid(alloc: Global) -> Result<Entry, Fail> {
    let read = Operation::Read {
        id: 1,
        password: 0,
        bank: Bank::Tid,
        pointer: 0,
        count: 1,
    };
    let operations = vec![in alloc; read]?;
    let spec = AccessSpec {
        id: 9,
        antenna: 0,
        rospec: 0,
        stop_after: 0,
        targets: Vec::new(alloc),
        operations,
    };
    Ok(Entry {
        spec,
        enabled: true,
        done: 0,
    })
}

/// How many results there are, and whether the first has the first word of TID.
fn first_word(results: &[OperationResult]) -> (usize, bool) {
    match results.first() {
        Some(OperationResult::Read { id, result, words }) => {
            let is_tid = words.as_slice() == [0xE200].as_slice();
            (results.len(), *id == 1 && *result == 0 && is_tid)
        }
        _ => (results.len(), false),
    }
}

#[test]
fn llrp_access_example(rt: HostRuntime) -> Result<(), Fail> {
    let alloc = rt.alloc();
    let mut memory = memory(alloc)?;
    let entries = vec![in alloc; reads_tid(alloc)?]?;
    let entries = entries.as_slice();
    let (antenna, rospec) = (1, 7);
    let mut came = (0, false);
    if let Some(entry) = chosen(entries, antenna, rospec, &memory) {
        let results = perform(alloc, entry.spec.operations.as_slice(), &mut memory)?;
        came = first_word(results.as_slice());
    }
    assert!(rt; came == (1, true));
    Ok(())
}

#[test]
fn llrp_texts_example(rt: HostRuntime) -> Result<(), Fail> {
    let alloc = rt.alloc();
    let text = b"0 GET_ACCESSSPECS 1 7\n0 DELETE_ACCESSSPEC 1 8 9\n";
    let messages = messages_of(alloc, KindSet::Standard, text, MAX_LIMIT)?;
    assert_eq!(rt; messages.len(), 2);
    Ok(())
}
