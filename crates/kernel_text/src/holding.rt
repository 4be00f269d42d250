//! The format of a kernel, and which of its classes are held, by flags.
ghost use Rattle.std.specs.Prelude.{◌≡◌, true, false, IfOk, length, replicate, slice_set};
ghost use Rattle.kernel_text.specs.{KernelText.{format_of}, Writing.{TellHeld}};

use std::alloc::{AllocError, Global};

/// The format of a kernel by whether classes may be held in it.
pub(crate) fn format_of(hold: bool) -> u32
    ensures { result ≡ format_of hold }
{
    if hold { 2 } else { 1 }
}

/// For each class whether it is one of the held. Each of these is looked at once.
pub(crate) fn held_flags(alloc: Global, held: &[u32], size: u32) -> Result<Vec<bool>, AllocError>
    ensures { IfOk result (λ flags. TellHeld flags.items held.now size) }
{
    let mut flags = vec![in alloc; false; size as usize]?;
    mark_held(&mut flags, held);
    Ok(flags)
}

// Sets the flags of the held classes.
fn mark_held(flags: &mut Vec<bool>, held: &[u32])
    requires { flags.old.items ≡ replicate (length flags.old.items) false }
    ensures { TellHeld flags.new.items held.now (length flags.old.items) }
{
    for class in held {
        mark(flags, *class);
    }
}

// Sets the flag of a class, if it has one.
fn mark(flags: &mut Vec<bool>, class: u32)
    ensures { flags.new.items ≡ slice_set flags.old.items class true }
{
    let place = class as usize;
    if place < flags.len() {
        flags[place] = true;
    }
}
