//! What the parser finds.
ghost use Rattle.std.specs.Prelude.{◌≡◌, ◌≢◌, IfOk, OnOk, map, option_map};
ghost use Rattle.clap.specs.Words.{found_of, rows_of, subcommand_rows_of, kind_of};
ghost use Rattle.clap.specs.declared.error.kind.ErrorKind.TheVariants as kind;
ghost use Rattle.dim_words.specs.Grammar.{IsFound, found_in};

use crate::grammar::whole;
use clap::error::ErrorKind;
use clap::{ArgMatches, Error};
use dim_base::OutOfMemory;
use std::alloc::Global;
use std::marker::Model;

/// The names and the values of options that a parse found.
#[derive(Drop)]
pub struct Found<'a> {
    pub first: Option<&'a str>,
    pub second: Option<&'a str>,
    pub third: Option<&'a str>,
    pub fourth: Option<&'a str>,
    pub fuel: Option<&'a str>,
    pub quantum: Option<&'a str>,
    pub depth: Option<&'a str>,
    pub seed: Option<&'a str>,
    pub workers: Option<&'a str>,
    pub attempts: Option<&'a str>,
}

impl<'a> Model for Found<'a> {
    ghost use Rattle.std.specs.Prelude.{option_map};
    ghost use Rattle.dim_words.specs.Grammar as spec;

    ghost Value = { spec.Found };

    ghost view = { λ f. record {
      first = option_map (λ w. w.now) f.first;
      second = option_map (λ w. w.now) f.second;
      third = option_map (λ w. w.now) f.third;
      fourth = option_map (λ w. w.now) f.fourth;
      fuel = option_map (λ w. w.now) f.fuel;
      quantum = option_map (λ w. w.now) f.quantum;
      depth = option_map (λ w. w.now) f.depth;
      seed = option_map (λ w. w.now) f.seed;
      workers = option_map (λ w. w.now) f.workers;
      attempts = option_map (λ w. w.now) f.attempts;
    } };
}

fn all_found<'a>(matches: &ArgMatches<'a>) -> Found<'a>
    ensures { result ≡ found_in (rows_of (found_of matches.now)) }
{
    Found {
        first: matches.get_str("first"),
        second: matches.get_str("second"),
        third: matches.get_str("third"),
        fourth: matches.get_str("fourth"),
        fuel: matches.get_str("fuel"),
        quantum: matches.get_str("quantum"),
        depth: matches.get_str("depth"),
        seed: matches.get_str("seed"),
        workers: matches.get_str("workers"),
        attempts: matches.get_str("attempts"),
    }
}

// What was found of the subcommand that was met.
fn inner_found<'a>(matches: &ArgMatches<'a>) -> Option<Found<'a>>
    ensures { result
        ≡ option_map found_in (option_map (λ p. p.1) (subcommand_rows_of matches.now)) }
{
    match matches.subcommand() {
        Some((_, inner)) => Some(all_found(inner)),
        None => None,
    }
}

// Whether words were refused, and not for want of memory.
fn refused(error: &Error) -> Result<(), OutOfMemory>
    ensures { OnOk result (kind_of error.now ≢ kind.OutOfMemory) }
{
    if error.kind() == ErrorKind::OutOfMemory {
        Err(OutOfMemory)
    } else {
        Ok(())
    }
}

/// What the words are found to be, and `None` where they are refused.
pub fn parse<'a>(alloc: Global, words: &'a [&'a str]) -> Result<Option<Found<'a>>, OutOfMemory>
    ensures { IfOk result (IsFound (map (λ w. w.now) words.now)) }
{
    match whole(alloc)?.try_get_matches_from(words) {
        Ok(matches) => Ok(inner_found(&matches)),
        Err(error) => {
            refused(&error)?;
            Ok(None)
        }
    }
}
