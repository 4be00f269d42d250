//! The index of a sample suite.
ghost use Rattle.std.specs.Prelude.{◌≡◌, ◌≤◌, IfOk, None, length};
ghost use Rattle.repo_model.specs.{FirstFault.{first_fault}, Limits.{most_bytes}};
ghost use Rattle.sample_suite.specs.{Drawing.{IsCount}, SampleText.{sample_text}};

use crate::draws::Draws;
use crate::push_stanza::push_stanza;
use std::alloc::{AllocError, Global};

/// The index of a suite of `count` packages, made from a number; it has no fault.
pub fn sample_text(alloc: Global, seed: u64, count: u32) -> Result<Vec<u8>, AllocError>
    requires { IsCount count }
    ensures text { IfOk result (λ text. text.items ≡ sample_text seed count) }
    ensures accepted { IfOk result (λ text. first_fault text.items ≡ None) }
    ensures short { IfOk result (λ text. length text.items ≤ most_bytes) }
{
    let mut draws = Draws { state: seed };
    let mut text = Vec::new(alloc);
    for number in 0..count {
        let package = draws.package(alloc, count)?;
        push_stanza(&mut text, number, &package)?;
    }
    Ok(text)
}
