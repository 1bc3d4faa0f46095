//! The report of `depths`.
ghost use Rattle.std.specs.Prelude.{◌≡◌, ◌++◌, length, IfOk, OnOk};
ghost use Rattle.std.specs.String.{string_bytes};
ghost use Rattle.dim_commands.specs.Depths.{depth_line, depths_text, depths_told};

use dim_base::{Bytes, OutOfMemory};
use dim_inquiry::{Ending, Report};
use dim_signature::Catalogue;
use std::alloc::{AllocError, Global};
use std::fmt::Write;

// Appends the line of the signature of this number.
#[tactic(auto, unfolding(crate::specs::Depths::depth_line))]
fn put_depth(text: &mut String, i: u32, depth: u8, least: u8) -> Result<(), AllocError>
    ensures { OnOk result (string_bytes text.new
        ≡ string_bytes text.old ++ depth_line i (depth, least)) }
{
    writeln!(text, "signature {i} depth {depth} least {least}")
}

fn depths_text(alloc: Global, loaded: &Catalogue, least: &[u8]) -> Result<String, AllocError>
    requires { length least.now ≡ length loaded.now.sigs }
    ensures { IfOk result (λ text. string_bytes text ≡ depths_text loaded.now.sigs least.now) }
{
    let mut text = String::new(alloc);
    let count = loaded.len();
    for i in 0..count {
        put_depth(&mut text, i, loaded.get(i).depth(), least[i as usize])?;
    }
    writeln!(text, "signatures {count}")?;
    Ok(text)
}

/// The report of `depths`: of each loaded signature its depth, and its least depth.
pub fn depths_told(alloc: Global, loaded: &Catalogue, least: &[u8]) -> Result<Report, OutOfMemory>
    requires { length least.now ≡ length loaded.now.sigs }
    ensures { IfOk result (λ r. r ≡ depths_told loaded.now.sigs least.now) }
{
    let text = depths_text(alloc, loaded, least)?;
    Ok(Report {
        ending: Ending::Done,
        text: Bytes::from_vec(text.into_bytes()),
    })
}
