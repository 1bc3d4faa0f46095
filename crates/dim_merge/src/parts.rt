//! What a merged history is made of: what the first knows, and what the second adds.
ghost use Rattle.std.specs.Prelude.{◌≡◌, ◌+◌, ◌++◌, ◌∷◌, [], ◌<◌, ◌≤◌, ◌^◌, IfOk, OnOk, None, length, map};
ghost use Rattle.dim_stack.specs.Names.{table_of};
ghost use Rattle.dim_signature.specs.Catalogue.{signature_number};
ghost use Rattle.dim_history_file.specs.Seen.{value_of};
ghost use Rattle.dim_merge.specs.Merging.{merged};
ghost use Rattle.dim_merge.specs.Numbered.{AreDifferent, unknown_to, with_yields, yields_for};
ghost use Rattle.dim_merge.specs.Parts.{sigs_of};

use crate::parted::{Both, Parts};
use dim_base::OutOfMemory;
use dim_history_file::{History, rename};
use dim_signature::{Catalogue, Signature, number_law};
use dim_stack::{Names, Stack, merged_law};
use std::alloc::Global;

/// Both histories in the table of the names of both.
pub fn shared(alloc: Global, first: History, second: History) -> Result<Both, OutOfMemory>
    requires few { length first.names + length second.names < 2 ^ 32 }
    ensures first { IfOk result (λ both. value_of both.first ≡ value_of first) }
    ensures second { IfOk result (λ both. value_of both.second ≡ value_of second) }
    ensures names { IfOk result (λ both. both.first.names ≡ table_of (first.names ++ second.names)) }
{
    merged_law();
    let names = Names::merge(alloc, &first.names, &second.names)?;
    let first = rename(alloc, first, &names)?;
    let second = rename(alloc, second, &names)?;
    Ok(Both { first, second })
}

// How many yields a catalogue counts for these stacks.
fn yields_for(catalogue: &Catalogue, stacks: &[Stack]) -> u32
    ensures { result ≡ yields_for catalogue.now.sigs stacks.now }
{
    number_law();
    match catalogue.find(stacks) {
        Some(number) => catalogue.get(number).yields(),
        None => 0,
    }
}

// Counts for each signature the yields that others count for its stacks.
fn add_yields(catalogue: &mut Catalogue, others: &Catalogue)
    ensures { catalogue.new.sigs ≡ map (with_yields others.now.sigs) catalogue.old.sigs }
{
    for i in 0..catalogue.len() {
        let more = yields_for(others, catalogue.get(i).as_slice());
        catalogue.count(i, more);
    }
}

// Adds a signature where no known one has its stacks.
fn add_unknown(
    alloc: Global,
    unknown: &mut Catalogue,
    known: &Catalogue,
    sig: &Signature,
) -> Result<(), OutOfMemory>
    requires few { length unknown.old.sigs < 4096 }
    requires new { signature_number unknown.old.sigs sig.now.stacks ≡ None }
    ensures { OnOk result
        (unknown.new.sigs ≡ unknown.old.sigs ++ unknown_to known.now.sigs (sig.now ∷ [])) }
{
    match known.find(sig.as_slice()) {
        Some(_) => Ok(()),
        None => unknown.add_new(alloc, sig),
    }
}

// Those of the others whose stacks no known signature has.
fn unknown_to(
    alloc: Global,
    known: &Catalogue,
    others: &Catalogue,
) -> Result<Catalogue, OutOfMemory>
    ensures { IfOk result (λ c. c.sigs ≡ unknown_to known.now.sigs others.now.sigs) }
{
    let mut unknown = Catalogue::new(alloc);
    for i in 0..others.len() {
        add_unknown(alloc, &mut unknown, known, others.get(i))?;
    }
    Ok(unknown)
}

/// What two histories become together.
pub fn parts_of(alloc: Global, both: Both) -> Result<Parts, OutOfMemory>
    ensures sigs { IfOk result
        (λ parts. sigs_of parts ≡ merged (value_of both.first) (value_of both.second)) }
    ensures names { IfOk result (λ parts. parts.known.names ≡ both.first.names) }
{
    let Both { first, second, .. } = both;
    first.law();
    second.law();
    let unknown = unknown_to(alloc, &first.catalogue, &second.catalogue)?;
    let History {
        names,
        mut catalogue,
        ..
    } = first;
    add_yields(&mut catalogue, &second.catalogue);
    let known = History { names, catalogue };
    let added = History {
        names: second.names,
        catalogue: unknown,
    };
    Ok(Parts { known, added })
}

/// The history of both parts.
pub fn joined(alloc: Global, parts: Parts) -> Result<History, OutOfMemory>
    requires few { length (sigs_of parts) ≤ 4096 }
    ensures value { IfOk result (λ h. value_of h ≡ sigs_of parts) }
    ensures names { IfOk result (λ h. h.names ≡ parts.known.names) }
{
    let Parts { known, added, .. } = parts;
    let History {
        names,
        mut catalogue,
        ..
    } = known;
    add_all(alloc, &mut catalogue, &added.catalogue)?;
    Ok(History { names, catalogue })
}

// Appends signatures.
fn add_all(alloc: Global, catalogue: &mut Catalogue, others: &Catalogue) -> Result<(), OutOfMemory>
    requires few { length catalogue.old.sigs + length others.now.sigs ≤ 4096 }
    requires different { AreDifferent (catalogue.old.sigs ++ others.now.sigs) }
    ensures { OnOk result (catalogue.new.sigs ≡ catalogue.old.sigs ++ others.now.sigs) }
{
    for i in 0..others.len() {
        catalogue.add_new(alloc, others.get(i))?;
    }
    Ok(())
}
