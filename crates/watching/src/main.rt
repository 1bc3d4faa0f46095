//! How a thread of one's own watches a gate: it reads the totals, waits for nobody, and slows
//! nobody down.
#![tactic(auto)]

ghost use Rattle.dim_events.specs.Watching.{IsPassOf};

mod desk;

use crate::desk::Desk;
use anyhow::{Result, anyhow};
use dim_events::{Kind, Watch, WatchPass};
use std::thread::join;

const ROUNDS: u32 = 1000;

/// The desk after its work.
fn worked(desk: Desk) -> Desk {
    let mut desk = desk;
    desk.work(ROUNDS);
    desk
}

/// The pass after so many readings of how many requests were granted, with the greatest fall from
/// one reading to the next, and the last.
fn watched(watch: &Watch, pass: WatchPass, readings: u32) -> (WatchPass, u64, u64)
    requires { IsPassOf watch.now pass }
    ensures { IsPassOf watch.now result.0 }
{
    let mut pass = pass;
    let (mut last, mut fall) = (0u64, 0u64);
    for _ in 0..readings {
        let goes = watch.read(&mut pass, Kind::Go);
        fall = fall.max(last.saturating_sub(goes));
        last = goes;
    }
    (pass, fall, last)
}

fn main(rt: HostRuntime) -> Result<()> {
    let opened = Desk::open(rt.alloc(), 3 * ROUNDS);
    let (desk, watch, pass) = opened.map_err(|_| anyhow!("memory ran out"))?;
    let (mut desk, (mut pass, fall, last)) = join(
        &rt,
        move || worked(desk),
        || watched(&watch, pass, ROUNDS),
    );
    let goes = desk.totals().goes;
    println!(rt; "granted {goes}")?;
    println!(rt; "the greatest fall between two readings {fall}")?;
    println!(rt; "a reading above what was granted {}", last > goes)?;
    println!(rt; "read afterwards {}", watch.read(&mut pass, Kind::Go))?;
    Ok(())
}
