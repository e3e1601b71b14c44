//! Operations on one tag.

mod courses;
mod requests;
mod words;
