//! The lines of a kernel text, which are appended to a text one by one.
ghost use Rattle.std.specs.{Prelude.{◌≡◌, ◌++◌, ◌<◌, ℕ, ltb, OnOk, filter, length}, Fmt.{decimal}};
ghost use Rattle.std.specs.List.{flat_map};
ghost use Rattle.clause_pool.specs.Interned.{clauses_at, OfPool};
ghost use Rattle.listed.specs.Lists.{In};
ghost use Rattle.repo_model.specs.Stanzas.{stanza_at};
ghost use Rattle.kernel_text.specs.KernelLines.{AgainstLine, behind_space, ClassLine, EndLine};
ghost use Rattle.kernel_text.specs.KernelLines.{HeadLine, HeldLine, line_text, NeedsLine};
ghost use Rattle.kernel_text.specs.{KernelText.{held_lines}, Writing.{line_of_package, lines_text}};

use clause_pool::{ClauseId, Pool};
use itoa::Buffer;
use relation_fields::PackageFacts;
use std::alloc::AllocError;

// Appends a space and a number, in decimal digits.
#[tactic(auto, using(crate::proofs::append_assoc))]
fn push_number(out: &mut Vec<u8>, number: u32) -> Result<(), AllocError>
    ensures { OnOk result (out.new.items ≡ out.old.items ++ behind_space number) }
{
    let mut buffer = Buffer::new();
    out.extend_from_slice(b" ")?;
    out.extend_from_slice(buffer.format(number).as_bytes())
}

// Appends numbers, each after a space.
fn push_numbers(out: &mut Vec<u8>, numbers: &[u32]) -> Result<(), AllocError>
    ensures { OnOk result (out.new.items ≡ out.old.items ++ flat_map behind_space numbers.now) }
{
    for number in numbers {
        push_number(out, *number)?;
    }
    Ok(())
}

/// Appends the first line of the format.
#[tactic(auto, using(crate::proofs::append_assoc), unfolding(crate::specs::KernelLines::line_text))]
pub(crate) fn push_head(out: &mut Vec<u8>, format: u32) -> Result<(), AllocError>
    ensures { OnOk result (out.new.items ≡ out.old.items ++ line_text (HeadLine format)) }
{
    out.extend_from_slice(b"coinst-kernel")?;
    push_number(out, format)?;
    out.extend_from_slice(b"\n")
}

/// Appends the line that begins a class.
#[tactic(auto, using(crate::proofs::append_assoc), unfolding(crate::specs::KernelLines::line_text))]
pub(crate) fn push_class_line(out: &mut Vec<u8>, number: u32) -> Result<(), AllocError>
    ensures { OnOk result (out.new.items ≡ out.old.items ++ line_text (ClassLine number)) }
{
    out.extend_from_slice(b"class")?;
    push_number(out, number)?;
    out.extend_from_slice(b"\n")
}

/// Appends the lines of the packages with these numbers.
pub(crate) fn push_member_lines(
    out: &mut Vec<u8>,
    packages: &[PackageFacts],
    members: &[u32],
) -> Result<(), AllocError>
    requires { (i : ℕ) → In i members.now → i < length packages.now }
    ensures { OnOk result (out.new.items ≡ out.old.items
        ++ lines_text (λ i. line_of_package (stanza_at packages.now i)) members.now) }
{
    for member in members {
        push_member_line(out, &packages[*member as usize])?;
    }
    Ok(())
}

// Appends the line of a member.
#[tactic(auto, using(crate::proofs::append_assoc), unfolding(crate::specs::KernelLines::line_text))]
fn push_member_line(out: &mut Vec<u8>, member: &PackageFacts) -> Result<(), AllocError>
    ensures { OnOk result (out.new.items
        ≡ out.old.items ++ line_text (line_of_package member.now)) }
{
    out.extend_from_slice(b"member ")?;
    out.extend_from_slice(member.name.as_slice())?;
    out.extend_from_slice(b" ")?;
    out.extend_from_slice(member.version.text())?;
    out.extend_from_slice(b"\n")
}

/// Appends the line of a held class, if the class is held.
#[tactic(auto, unfolding(crate::specs::KernelLines::line_text))]
pub(crate) fn push_held_line(out: &mut Vec<u8>, held: bool) -> Result<(), AllocError>
    ensures { OnOk result (out.new.items ≡ out.old.items ++ flat_map line_text (held_lines held)) }
{
    if held {
        out.extend_from_slice(b"held\n")
    } else {
        Ok(())
    }
}

/// Appends the lines of the clauses with these ids.
pub(crate) fn push_needs_lines(
    out: &mut Vec<u8>,
    pool: &Pool,
    ids: &[ClauseId],
) -> Result<(), AllocError>
    requires { OfPool pool.now ids.now }
    ensures { OnOk result (out.new.items
        ≡ out.old.items ++ lines_text NeedsLine (clauses_at pool.now ids.now)) }
{
    for id in ids {
        push_needs_line(out, pool.slice(*id))?;
    }
    Ok(())
}

// Appends the line of a clause.
#[tactic(auto, using(crate::proofs::append_assoc), unfolding(crate::specs::KernelLines::line_text))]
fn push_needs_line(out: &mut Vec<u8>, clause: &[u32]) -> Result<(), AllocError>
    ensures { OnOk result (out.new.items ≡ out.old.items ++ line_text (NeedsLine clause.now)) }
{
    out.extend_from_slice(b"needs")?;
    push_numbers(out, clause)?;
    out.extend_from_slice(b"\n")
}

/// Appends the lines of the conflicts with greater classes.
pub(crate) fn push_against_lines(
    out: &mut Vec<u8>,
    number: u32,
    conflicts: &[u32],
) -> Result<(), AllocError>
    ensures { OnOk result (out.new.items
        ≡ out.old.items ++ lines_text AgainstLine (filter (λ m. ltb number m) conflicts.now)) }
{
    for class in conflicts {
        if number < *class {
            push_against_line(out, *class)?;
        }
    }
    Ok(())
}

// Appends the line of a conflict.
#[tactic(auto, using(crate::proofs::append_assoc), unfolding(crate::specs::KernelLines::line_text))]
fn push_against_line(out: &mut Vec<u8>, class: u32) -> Result<(), AllocError>
    ensures { OnOk result (out.new.items ≡ out.old.items ++ line_text (AgainstLine class)) }
{
    out.extend_from_slice(b"against")?;
    push_number(out, class)?;
    out.extend_from_slice(b"\n")
}

/// Appends the end line.
#[tactic(auto, using(crate::proofs::append_assoc), unfolding(crate::specs::KernelLines::line_text))]
pub(crate) fn push_end(out: &mut Vec<u8>, classes: u32, members: u32) -> Result<(), AllocError>
    ensures { OnOk result (out.new.items ≡ out.old.items ++ line_text (EndLine classes members)) }
{
    out.extend_from_slice(b"end")?;
    push_number(out, classes)?;
    push_number(out, members)?;
    out.extend_from_slice(b"\n")
}
