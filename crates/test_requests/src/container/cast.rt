//! Lists of objects that note in one diary, and what stands in it.

ghost use Rattle.std.specs.Prelude.{◌≡◌};
ghost use Rattle.sv_container.specs.Life.{AreNamedNew};
ghost use Rattle.sv_servlet.specs.declared.servlet.Phase.TheVariants.{New};

use crate::container::noting::{Diary, NotingFilter, NotingListener, NotingServlet, Pen};
use crate::fixtures::{push, text};
use std::alloc::Global;
use std::cell::RefCell;
use std::process::Abort;
use std::rc::Rc;
use sv_container::Named;
use sv_servlet::{Filter, Phase, Servlet};

/// An object: the number of its context, and its name.
pub type Part = (usize, &'static str);

/// A diary in which nothing stands.
pub fn new_diary(rt: &impl Abort, alloc: Global) -> Diary {
    Rc::new(alloc, RefCell::new(String::new(alloc))).expect(rt, "memory")
}

fn pen_of(rt: &impl Abort, alloc: Global, diary: &Diary, name: &str) -> Pen {
    Pen {
        name: text(rt, alloc, name),
        diary: diary.clone().expect(rt, "memory"),
    }
}

/// A servlet as it was made.
pub fn servlet_of(
    rt: &impl Abort,
    alloc: Global,
    diary: &Diary,
    name: &str,
    is_able: bool,
) -> NotingServlet
    ensures { result.phase ≡ New }
{
    NotingServlet {
        pen: pen_of(rt, alloc, diary, name),
        is_able,
        phase: Phase::New,
    }
}

/// A filter as it was made.
pub fn filter_of(
    rt: &impl Abort,
    alloc: Global,
    diary: &Diary,
    name: &str,
    is_able: bool,
) -> NotingFilter
    ensures { result.phase ≡ New }
{
    NotingFilter {
        pen: pen_of(rt, alloc, diary, name),
        is_able,
        phase: Phase::New,
    }
}

pub fn listener_of(rt: &impl Abort, alloc: Global, diary: &Diary, name: &str) -> NotingListener {
    NotingListener {
        pen: pen_of(rt, alloc, diary, name),
    }
}

/// An object with its context and its name.
pub fn named<T>(rt: &impl Abort, alloc: Global, part: &Part, object: T) -> Named<T>
    ensures { result.object ≡ object }
{
    let (context, name) = *part;
    Named {
        context,
        name: text(rt, alloc, name),
        object,
    }
}

/// Servlets, of which the one that is called `unable` can't be initialised.
pub fn servlets_of(
    rt: &impl Abort,
    alloc: Global,
    diary: &Diary,
    parts: &[Part],
    unable: &str,
) -> Vec<Named<NotingServlet>>
    ensures { AreNamedNew ⟦<NotingServlet as Servlet>⟧.servlet_phase result.items }
{
    let mut all = Vec::new(alloc);
    for part in parts {
        let object = servlet_of(rt, alloc, diary, part.1, part.1 != unable);
        push(rt, &mut all, named(rt, alloc, part, object));
    }
    all
}

/// Filters likewise.
pub fn filters_of(
    rt: &impl Abort,
    alloc: Global,
    diary: &Diary,
    parts: &[Part],
    unable: &str,
) -> Vec<Named<NotingFilter>>
    ensures { AreNamedNew ⟦<NotingFilter as Filter>⟧.filter_phase result.items }
{
    let mut all = Vec::new(alloc);
    for part in parts {
        let object = filter_of(rt, alloc, diary, part.1, part.1 != unable);
        push(rt, &mut all, named(rt, alloc, part, object));
    }
    all
}

pub fn listeners_of(
    rt: &impl Abort,
    alloc: Global,
    diary: &Diary,
    parts: &[Part],
) -> Vec<Named<NotingListener>> {
    let mut all = Vec::new(alloc);
    for part in parts {
        let object = listener_of(rt, alloc, diary, part.1);
        push(rt, &mut all, named(rt, alloc, part, object));
    }
    all
}

/// Forgets what was noted.
pub fn clear_notes(diary: &Diary) {
    if let Ok(mut notes) = diary.try_borrow_mut() {
        notes.clear();
    }
}

/// Just this was noted since the last look.
pub fn has_notes(diary: &Diary, want: &str) -> bool {
    match diary.try_borrow_mut() {
        Ok(mut notes) => {
            let is_same = notes.as_str() == want;
            notes.clear();
            is_same
        }
        Err(_) => false,
    }
}

/// So many bytes were noted since the last look.
pub fn has_so_many(diary: &Diary, count: usize) -> bool {
    match diary.try_borrow() {
        Ok(notes) => notes.len() == count,
        Err(_) => false,
    }
}

/// That each of the two applications' objects was dropped.
static DROPS: [&str; 10] = [
    "s1.drop ", "s2.drop ", "s3.drop ", "f1.drop ", "f2.drop ", "f3.drop ", "l1.drop ", "l2.drop ",
    "l3.drop ", "l4.drop ",
];

/// Each note is among these, once.
fn are_drops(notes: &str) -> bool {
    for drop in &DROPS {
        if !notes.contains(*drop) {
            return false;
        }
    }
    notes.len() == 8 * DROPS.len()
}

/// What was noted since the last look: `calls`, and then that each object was dropped, once, in any order.
pub fn has_end(diary: &Diary, calls: &str) -> bool {
    match diary.try_borrow() {
        Ok(notes) => match notes.as_str().strip_prefix(calls) {
            Some(drops) => are_drops(drops),
            None => false,
        },
        Err(_) => false,
    }
}
