//! What has been read of a program, with names that stand in its text.
ghost use Rattle.std.specs.Prelude.{◌≡◌, ◌<◌, ◌^◌, ◌++◌, ◌∷◌, [], length, OnOk};
ghost use Rattle.dim_asm.specs.Seen.{seen_draft};

use crate::Op;
use crate::mnemonic::Naming;
use dim_base::OutOfMemory;
use std::marker::Model;

/// An instruction: complete, or with the name of a function or a lock.
#[derive(Clone, Copy, Debug)]
pub enum Draft<'a> {
    Ready(Op),
    Refers(Naming, &'a str),
}

/// A function.
#[derive(Drop)]
pub struct DraftFunction<'a> {
    pub name: &'a str,
    pub locals: u32,
    pub drafts: Vec<Draft<'a>>,
}

impl<'a> Model for DraftFunction<'a> {
    ghost use Rattle.std.specs.Prelude.{map};
    ghost use Rattle.dim_asm.specs.Source.{DraftFunction};

    ghost Value = { DraftFunction };

    ghost use Rattle.dim_asm.specs.Seen.{seen_draft};

    ghost view = { λ f. record { name = f.name.now; locals = f.locals; drafts = map seen_draft f.drafts.items } };
}

impl<'a> DraftFunction<'a> {
    /// How many instructions it has.
    pub fn len(&self) -> u32
        requires { length self.now.drafts < 2 ^ 32 }
        ensures { result ≡ length self.now.drafts }
    {
        self.drafts.len() as u32
    }

    /// Appends an instruction.
    pub fn push(&mut self, draft: Draft<'a>) -> Result<(), OutOfMemory>
        ensures { OnOk result
            (self.new
            ≡ record self.old { drafts = self.old.drafts ++ seen_draft draft.entry ∷ [] }) }
    {
        self.drafts.push(draft)?;
        Ok(())
    }
}

/// A thread.
#[derive(Drop)]
pub struct DraftStart<'a> {
    pub func: &'a str,
    pub argument: i64,
}

impl<'a> Model for DraftStart<'a> {
    ghost use Rattle.dim_asm.specs.Source.{DraftStart};

    ghost Value = { DraftStart };

    ghost view = { λ t. record { func = t.func.now; argument = t.argument } };
}
