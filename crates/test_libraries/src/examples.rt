//! The example at the head of each library's `src/lib.rt`, run. Each is in a test, or in two, whose names
//! begin with the library's; `tests/documents.py` compares the statements.

mod access;
mod asking;
mod captures;
mod labels;
mod messages;
mod part_counter;
mod streams;
mod tags;
