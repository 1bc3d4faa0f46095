//! What commands are given.
use crate::reading::{command_of, read};
use dim_words::{Command, default_settings};
use std::test::Fail;

#[test]
fn options_stand_anywhere(rt: HostRuntime) -> Result<(), Fail> {
    let line = read(rt.alloc(), "run --seed 7 p - --fuel 9 h t")?;
    match command_of(&line) {
        Some(Command::Run(run)) => {
            assert_eq!(rt; run.program.as_str(), "p");
            assert_eq!(rt; run.history.as_str(), "-");
            assert_eq!(rt; run.new_history.as_str(), "h");
            assert_eq!(rt; run.trace.as_str(), "t");
            assert_eq!(rt; run.settings.seed, 7);
            assert_eq!(rt; run.settings.fuel, 9);
            assert_eq!(rt; run.settings.depth, 4);
        }
        _ => assert!(rt; false),
    }
    Ok(())
}

#[test]
fn attempts_are_read(rt: HostRuntime) -> Result<(), Fail> {
    let line = read(rt.alloc(), "immunize p g --attempts 3 h t --fuel 9")?;
    match command_of(&line) {
        Some(Command::Immunize(immunize)) => {
            assert_eq!(rt; immunize.attempts, 3);
            assert_eq!(rt; immunize.run.program.as_str(), "p");
            assert_eq!(rt; immunize.run.history.as_str(), "g");
            assert_eq!(rt; immunize.run.new_history.as_str(), "h");
            assert_eq!(rt; immunize.run.trace.as_str(), "t");
            assert_eq!(rt; immunize.run.settings.fuel, 9);
        }
        _ => assert!(rt; false),
    }
    Ok(())
}

#[test]
fn eight_attempts_are_the_default(rt: HostRuntime) -> Result<(), Fail> {
    let line = read(rt.alloc(), "immunize p - h t")?;
    match command_of(&line) {
        Some(Command::Immunize(immunize)) => assert_eq!(rt; immunize.attempts, 8),
        _ => assert!(rt; false),
    }
    Ok(())
}

#[test]
fn a_prediction_is_read(rt: HostRuntime) -> Result<(), Fail> {
    let line = read(rt.alloc(), "predict p - t h")?;
    match command_of(&line) {
        Some(Command::Predict(predict)) => {
            assert_eq!(rt; predict.judged.program.as_str(), "p");
            assert_eq!(rt; predict.judged.history.as_str(), "-");
            assert_eq!(rt; predict.judged.trace.as_str(), "t");
            assert_eq!(rt; predict.new_history.as_str(), "h");
            assert_eq!(rt; predict.depth, 4);
        }
        _ => assert!(rt; false),
    }
    Ok(())
}

#[test]
fn a_number_is_read(rt: HostRuntime) -> Result<(), Fail> {
    let line = read(rt.alloc(), "generate 12 p")?;
    match command_of(&line) {
        Some(Command::Generate(number, program)) => {
            assert_eq!(rt; number, 12);
            assert_eq!(rt; program.as_str(), "p");
        }
        _ => assert!(rt; false),
    }
    Ok(())
}

#[test]
fn a_switch_is_read(rt: HostRuntime) -> Result<(), Fail> {
    let line = read(rt.alloc(), "switch g 12 off h")?;
    match command_of(&line) {
        Some(Command::Switch(switch)) => {
            assert_eq!(rt; switch.history.as_str(), "g");
            assert_eq!(rt; switch.index, 12);
            assert_eq!(rt; switch.on, false);
            assert_eq!(rt; switch.new_history.as_str(), "h");
        }
        _ => assert!(rt; false),
    }
    Ok(())
}

#[test]
fn nothing_given_is_the_default(rt: HostRuntime) -> Result<(), Fail> {
    let line = read(rt.alloc(), "live p g h t --workers 3")?;
    match command_of(&line) {
        Some(Command::Live(live)) => {
            assert_eq!(rt; live.settings.workers, 3);
            assert_eq!(rt; live.settings.fuel, default_settings().fuel);
        }
        _ => assert!(rt; false),
    }
    Ok(())
}
