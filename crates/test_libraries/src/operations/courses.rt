//! The course of a client that changes one tag.

use llrp_operations::{Course, Demand, Heard, Outcome, Saying, Stage};
use std::alloc::Global;
use std::test::*;

/// A client that is to change any tag, once its inventory runs.
fn looking(alloc: Global, said: &mut Vec<Saying>) -> Option<Course<'static>> {
    let mut course = Course::new(alloc, &[], true);
    course.hear(Heard::Accepts(0), said).ok()?;
    for _ in 0..5 {
        course.hear(Heard::Answers(0), said).ok()?;
    }
    Some(course)
}

#[test]
fn one_tag_is_changed(rt: HostRuntime) {
    let mut said = Vec::new(rt.alloc());
    let Some(mut course) = looking(rt.alloc(), &mut said) else {
        panic!(rt; "memory ran out");
    };
    assert!(rt; course.stage() == Stage::Seeking);
    assert!(rt; course.hear(Heard::Sees(&[1, 2]), &mut said).is_ok());
    assert!(rt; course.stage() == Stage::Settling);
    assert!(rt; course.fall_silent(&mut said).is_ok());
    assert!(rt; course.stage() == Stage::Asking(Demand::AddAccess));
    assert!(rt; course.target() == [1, 2].as_slice());
}

#[test]
fn two_tags_are_not_changed(rt: HostRuntime) {
    let mut said = Vec::new(rt.alloc());
    let Some(mut course) = looking(rt.alloc(), &mut said) else {
        panic!(rt; "memory ran out");
    };
    assert!(rt; course.hear(Heard::Sees(&[1, 2]), &mut said).is_ok());
    assert!(rt; course.hear(Heard::Sees(&[1, 3]), &mut said).is_ok());
    assert!(rt; course.fall_silent(&mut said).is_ok());
    assert!(rt; course.stage() == Stage::Asking(Demand::RemoveAccess));
    course.lose();
    assert!(rt; course.outcome() == Outcome::Broken);
}

#[test]
fn a_change_without_results_is_unknown(rt: HostRuntime) {
    let mut said = Vec::new(rt.alloc());
    let Some(mut course) = looking(rt.alloc(), &mut said) else {
        panic!(rt; "memory ran out");
    };
    assert!(rt; course.hear(Heard::Sees(&[1, 2]), &mut said).is_ok());
    assert!(rt; course.fall_silent(&mut said).is_ok());
    assert!(rt; course.hear(Heard::Answers(0), &mut said).is_ok());
    assert!(rt; course.hear(Heard::Answers(0), &mut said).is_ok());
    assert!(rt; course.stage() == Stage::Operating);
    assert!(rt; course.fall_silent(&mut said).is_ok());
    for _ in 0..3 {
        assert!(rt; course.hear(Heard::Answers(0), &mut said).is_ok());
    }
    assert!(rt; course.stage() == Stage::Ended);
    assert!(rt; course.outcome() == Outcome::Unknown);
    assert!(rt; !course.is_reported());
}
