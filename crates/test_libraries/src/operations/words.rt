//! The operations that words ask for.

use llrp_operations::{LockField, LockManner, Operation, lock_of, read_of, write_of};
use std::test::*;
use tag_memory::Bank;

#[test]
fn words_say_operations(rt: HostRuntime) {
    let read = read_of(b"tid:0:6");
    assert!(rt;
        matches!(
            &read,
            Ok(Operation::Read {
                bank: Bank::Tid,
                pointer: 0,
                count: 6
            })
        )
    );
    let Ok(Operation::Lock { field, manner }) = lock_of(b"user=permanent-lock") else {
        panic!(rt; "no lock");
    };
    assert!(rt; field == LockField::User);
    assert!(rt; manner == LockManner::PermanentLock);
    let Ok(Operation::Write { words, .. }) = write_of(rt.alloc(), b"user:2=1234ABCD") else {
        panic!(rt; "no write");
    };
    assert!(rt; words.as_slice() == [0x1234, 0xabcd].as_slice());
}
