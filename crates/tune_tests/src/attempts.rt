ghost use Rattle.std.specs.Prelude.{◌≤◌};
ghost use Rattle.dim_schedule.specs.Settings.{AreSettings};

use crate::bound::read_both;
use crate::many::elsewhere;
use dim_base::{Lid, Tid};
use dim_history_file::write;
use dim_rag::{Births, Entry};
use dim_run::{Outcome, Settings};
use dim_tune::{Attempt, Immunized, immunize};
use samples::entries::right;
use samples::histories::{AVOIDED, EMPTY, INTERLEAVED, LEARNT, SWITCHED_OFF};
use samples::programs::{CROSSED, LEADS_ON, NEVER_FREED, SMALLEST};
use std::alloc::Global;
use std::process::Abort;

pub const SETTINGS: Settings = Settings {
    fuel: 8_192,
    quantum: 2,
    depth: 4,
    seed: 0,
    workers: 4,
};

fn settings() -> Settings
    ensures { AreSettings result }
{
    SETTINGS
}

/// At most so many attempts with a program and a history, each given by its text.
fn made(rt: &impl Abort, alloc: Global, program: &[u8], history: &[u8], attempts: u32) -> Immunized
    requires some { 1 ≤ attempts }
    requires most { attempts ≤ 64 }
{
    let both = read_both(rt, alloc, program, history);
    immunize(alloc, &both.program, &both.history, &settings(), attempts).expect(rt, "attempts")
}

/// These are the attempts.
fn has(rt: &impl Abort, made: &Immunized, expected: &[(Outcome, u32)]) {
    let lines = made.lines.as_slice();
    assert!(rt; lines.len() == expected.len());
    for i in 0..expected.len() {
        let (outcome, learnt) = expected[i];
        assert_eq!(rt; lines[i], Attempt { outcome, learnt });
    }
}

/// The last run has so many entries.
fn runs(rt: &impl Abort, made: &Immunized, entries: usize) {
    assert!(rt; made.run.entries.len() == entries);
}

/// This is the text of the history that is left.
fn leaves(rt: &impl Abort, alloc: Global, made: &Immunized, text: &[u8]) {
    let left = write(alloc, &made.history).expect(rt, "a text");
    assert!(rt; left.as_slice() == text);
}

fn close(_made: Immunized) {}

#[test]
fn the_second_attempt_avoids_what_the_first_one_learnt(rt: HostRuntime) {
    let made = made(&rt, rt.alloc(), CROSSED, EMPTY, 8);
    has(
        &rt,
        &made,
        &[(Outcome::Deadlocked, 1), (Outcome::Finished, 0)],
    );
    runs(&rt, &made, 15);
    leaves(&rt, rt.alloc(), &made, AVOIDED);
    close(made);
}

/// The third entry of the last run is a Yield because of what the first attempt learnt.
fn yields_at_once(rt: &impl Abort, made: &Immunized) {
    let yielded = Entry::Yield {
        t: Tid(1),
        l: Lid(2),
        stack: right(0),
        sig: 1,
        births: Births::new(&[0, 2]),
    };
    let entries = made.run.entries.as_slice();
    assert!(rt; entries.len() > 2);
    assert!(rt; entries[2] == yielded);
}

#[test]
fn a_starvation_that_is_learnt_is_avoided_in_the_next_attempt(rt: HostRuntime) {
    let made = made(&rt, rt.alloc(), LEADS_ON, INTERLEAVED, 8);
    has(
        &rt,
        &made,
        &[(Outcome::Deadlocked, 1), (Outcome::Finished, 0)],
    );
    runs(&rt, &made, 21);
    yields_at_once(&rt, &made);
    close(made);
}

#[test]
fn no_more_attempts_are_made_than_are_allowed(rt: HostRuntime) {
    let made = made(&rt, rt.alloc(), CROSSED, EMPTY, 1);
    has(&rt, &made, &[(Outcome::Deadlocked, 1)]);
    runs(&rt, &made, 7);
    leaves(&rt, rt.alloc(), &made, LEARNT);
    close(made);
}

#[test]
fn a_deadlock_that_is_known_ends_the_attempts(rt: HostRuntime) {
    let made = made(&rt, rt.alloc(), CROSSED, SWITCHED_OFF, 8);
    has(&rt, &made, &[(Outcome::Deadlocked, 0)]);
    leaves(&rt, rt.alloc(), &made, SWITCHED_OFF);
    close(made);
}

#[test]
fn a_run_without_a_deadlock_ends_them_too(rt: HostRuntime) {
    let finished = made(&rt, rt.alloc(), SMALLEST, EMPTY, 64);
    has(&rt, &finished, &[(Outcome::Finished, 0)]);
    leaves(&rt, rt.alloc(), &finished, EMPTY);
    close(finished);
    let stalled = made(&rt, rt.alloc(), NEVER_FREED, EMPTY, 64);
    has(&rt, &stalled, &[(Outcome::Stalled, 0)]);
    close(stalled);
}

/// How many signatures the history has that is left.
fn leaves_so_many(rt: &impl Abort, made: &Immunized, signatures: u32) {
    assert!(rt; made.history.catalogue.len() == signatures);
}

#[test]
fn what_has_too_many_signatures_is_not_loaded_again(rt: HostRuntime) {
    let full = elsewhere(rt.alloc(), 4_080).expect(&rt, "a history");
    let made = made(&rt, rt.alloc(), CROSSED, full.as_bytes(), 8);
    has(&rt, &made, &[(Outcome::Deadlocked, 1)]);
    leaves_so_many(&rt, &made, 4_081);
    close(made);
}

#[test]
fn what_has_the_most_signatures_is_loaded_again(rt: HostRuntime) {
    let nearly = elsewhere(rt.alloc(), 4_079).expect(&rt, "a history");
    let made = made(&rt, rt.alloc(), CROSSED, nearly.as_bytes(), 8);
    has(
        &rt,
        &made,
        &[(Outcome::Deadlocked, 1), (Outcome::Finished, 0)],
    );
    leaves_so_many(&rt, &made, 4_080);
    close(made);
}
