//! The examples of the libraries of further schemes, of their keys and of listings with labels.

use llrp_labels::{Labels, PlainErr, label_text, plain_text};
use std::alloc::Global;
use std::test::Fail;
use tag_bits::Word;
use tag_keys::{KeyFault, Spelling};
use tag_scheme_keys::{parse_key_in, print_key_in};
use tag_schemes::{SchemeFault, numbers_of, text_in_all, word_in_all, word_of};

/// Whether a word has this text, and the word that has it.
fn tag_schemes_texts(word: Word) -> Result<(bool, Word), SchemeFault> {
    let text = text_in_all(word); // urn:epc:tag:giai-96:3.0614141.5678
    let is_text = text.as_str() == "urn:epc:tag:giai-96:3.0614141.5678";
    let word = word_in_all("urn:epc:tag:giai-96:3.0614141.5678")?;
    Ok((is_text, word))
}

#[test]
fn tag_schemes_example(rt: HostRuntime) -> Result<(), Fail> {
    let asset = Word::new(0x3474257BF40000000000162E).ok_or("no word")?;
    assert_eq!(rt; tag_schemes_texts(asset), Ok((true, asset)));
    Ok(())
}

/// Whether the element string of a word's EPC is that of the asset 5678 of company 0614141, and the word that
/// this one is read as.
fn tag_scheme_keys_texts(word: Word) -> Result<(bool, Word), KeyFault> {
    let Some(epc) = numbers_of(word) else {
        return Ok((false, word));
    };
    let text = print_key_in(epc, Spelling::Element);
    let is_text = text.as_str() == "(8004)06141415678";
    let epc = parse_key_in("(8004)06141415678", Spelling::Element, 3, 7)?;
    Ok((is_text, word_of(epc)))
}

#[test]
fn tag_scheme_keys_example(rt: HostRuntime) -> Result<(), Fail> {
    let asset = Word::new(0x3474257BF40000000000162E).ok_or("no word")?;
    assert_eq!(rt; tag_scheme_keys_texts(asset), Ok((true, asset)));
    Ok(())
}

/// A listing with the keys of its EPCs, and the listing that this is read back as.
fn llrp_labels_there_and_back(
    alloc: Global,
    listing: &[u8],
) -> Result<(Vec<u8>, Vec<u8>), PlainErr> {
    let labels = Labels {
        schemes: false,
        keys: true,
    };
    let labelled = label_text(alloc, labels, listing)?; // 2 EPC-96 urn:epc:tag:sgtin-96:3.0614141.812345.6789, a tab, gtin 80614141123458 6789
    let listing = plain_text(alloc, labels, labelled.as_slice())?;
    Ok((labelled, listing))
}

#[test]
fn llrp_labels_example(rt: HostRuntime) -> Result<(), Fail> {
    let listing: &[u8] = b"2 EPC-96 urn:epc:tag:sgtin-96:3.0614141.812345.6789\n";
    let expected: &[u8] =
        b"2 EPC-96 urn:epc:tag:sgtin-96:3.0614141.812345.6789\tgtin 80614141123458 6789\n";
    let (labelled, plain) = llrp_labels_there_and_back(rt.alloc(), listing)?;
    assert!(rt; labelled.as_slice() == expected);
    assert!(rt; plain.as_slice() == listing);
    Ok(())
}
