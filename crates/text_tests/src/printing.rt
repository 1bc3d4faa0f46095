//! Programs are printed as the texts that they were assembled from.
use crate::programs::{DOORS, bind_with, done, program_of, same};
use dim_asm::{Program, print};
use samples::programs::{NESTED, PHILOSOPHERS, PLAIN, SMALLEST, TRAPPED, TRIES};
use std::alloc::Global;
use std::process::Abort;

// Each instruction word, and the ends of the ranges of numbers.
const WORDS: &[u8] =
    b"dim program 1\nlock a_1\nlock Z\nfunc f 16\nPUSH -9223372036854775808\nPUSH 9223372036854775807\nPOP\nDUP\nSWAP\nADD\nSUB\nLT\nEQ\nJMP 23\nJZ 0\nGETL 255\nPUTL 0\nCALL g\nCALL f\nRET\nLOCK Z\nLOCKX\nUNLOCK a_1\nUNLOCKX\nTRYLOCK Z\nSAY\nHALT\nend\nfunc g 0\nRET\nend\nthread g -1\nthread f 9223372036854775807\nend program\n";

// The program is printed as this text.
fn has_text(rt: &impl Abort, alloc: Global, program: &Program, text: &[u8]) {
    let printed = print(alloc, program).expect(rt, "a text");
    assert!(rt; printed.as_slice() == text);
}

// The program that a text spells is printed as the text.
fn is_printed(rt: &impl Abort, alloc: Global, text: &[u8]) {
    let program = program_of(rt, alloc, text);
    has_text(rt, alloc, &program, text);
}

const TEXTS: [&[u8]; 7] = [PHILOSOPHERS, NESTED, TRIES, TRAPPED, PLAIN, SMALLEST, WORDS];

#[test]
fn a_program_is_printed_as_its_text(rt: HostRuntime) {
    is_printed(&rt, rt.alloc(), DOORS.as_bytes());
    for text in &TEXTS {
        is_printed(&rt, rt.alloc(), text);
    }
}

#[test]
fn a_table_of_names_is_not_printed(rt: HostRuntime) {
    let mut program = program_of(&rt, rt.alloc(), NESTED);
    bind_with(&rt, rt.alloc(), &mut program, PHILOSOPHERS);
    same(&rt, program.number(0), 2);
    has_text(&rt, rt.alloc(), &program, NESTED);
    done(program);
}
