//! The stanza of a package, appended to a text.
ghost use Rattle.std.specs.{Prelude.{◌≡◌, ◌++◌, ◌∷◌, [], OnOk, codes, map}, List.{flat_map}};
ghost use Rattle.sample_suite.specs.SampleText.{conflicts_lines, depends_lines, element_text};
ghost use Rattle.sample_suite.specs.SampleText.{joined_by, with_feeds, needs_text, package_name};
ghost use Rattle.sample_suite.specs.SampleText.{stanza_text};

use crate::package::SamplePackage;
use clause_pool::NumList;
use itoa::Buffer;
use std::alloc::AllocError;

// Appends the name of a package.
#[tactic(auto, using(std::proofs::Common::append_assoc))]
fn push_name(out: &mut Vec<u8>, number: u32) -> Result<(), AllocError>
    ensures { OnOk result (out.new.items ≡ out.old.items ++ package_name number) }
{
    let mut buffer = Buffer::new();
    out.extend_from_slice(b"p")?;
    out.extend_from_slice(buffer.format(number).as_bytes())
}

// Appends an element.
#[tactic(auto, using(std::proofs::Common::append_assoc))]
fn push_element(out: &mut Vec<u8>, alternatives: &[u32]) -> Result<(), AllocError>
    ensures { OnOk result (out.new.items ≡ out.old.items ++ element_text alternatives.now) }
{
    let [first, more @ ..] = alternatives else {
        return Ok(());
    };
    push_name(out, *first)?;
    push_alternatives(out, more)
}

// Appends the alternatives after the first one.
fn push_alternatives(out: &mut Vec<u8>, more: &[u32]) -> Result<(), AllocError>
    ensures { OnOk result (out.new.items
        ≡ out.old.items ++ flat_map (λ other. codes " | " ++ other) (map package_name more.now)) }
{
    for other in more {
        push_alternative(out, *other)?;
    }
    Ok(())
}

#[tactic(auto, using(std::proofs::Common::append_assoc))]
fn push_alternative(out: &mut Vec<u8>, number: u32) -> Result<(), AllocError>
    ensures { OnOk result (out.new.items ≡ out.old.items ++ (codes " | " ++ package_name number)) }
{
    out.extend_from_slice(b" | ")?;
    push_name(out, number)
}

// Appends the line of what is needed, if anything is.
fn push_depends(out: &mut Vec<u8>, needs: &[NumList]) -> Result<(), AllocError>
    ensures { OnOk result (out.new.items ≡ out.old.items ++ with_feeds (depends_lines needs.now)) }
{
    if needs.is_empty() {
        return Ok(());
    }
    out.extend_from_slice(b"Depends: ")?;
    push_needs(out, needs)?;
    out.extend_from_slice(b"\n")
}

// Appends what is needed.
#[tactic(auto, using(std::proofs::Common::append_assoc))]
fn push_needs(out: &mut Vec<u8>, needs: &[NumList]) -> Result<(), AllocError>
    ensures { OnOk result (out.new.items ≡ out.old.items ++ needs_text needs.now) }
{
    let [first, more @ ..] = needs else {
        return Ok(());
    };
    push_element(out, first.as_slice())?;
    push_elements(out, more)
}

// Appends the elements after the first one.
fn push_elements(out: &mut Vec<u8>, more: &[NumList]) -> Result<(), AllocError>
    ensures { OnOk result (out.new.items
        ≡ out.old.items ++ flat_map (λ other. codes ", " ++ other) (map element_text more.now)) }
{
    for other in more {
        push_next_element(out, other.as_slice())?;
    }
    Ok(())
}

#[tactic(auto, using(std::proofs::Common::append_assoc))]
fn push_next_element(out: &mut Vec<u8>, alternatives: &[u32]) -> Result<(), AllocError>
    ensures { OnOk result (out.new.items
        ≡ out.old.items ++ (codes ", " ++ element_text alternatives.now)) }
{
    out.extend_from_slice(b", ")?;
    push_element(out, alternatives)
}

// Appends the line of a conflict, if there is one.
fn push_conflicts(out: &mut Vec<u8>, conflict: Option<u32>) -> Result<(), AllocError>
    ensures { OnOk result (out.new.items ≡ out.old.items ++ with_feeds (conflicts_lines conflict)) }
{
    let Some(conflict) = conflict else {
        return Ok(());
    };
    out.extend_from_slice(b"Conflicts: ")?;
    push_name(out, conflict)?;
    out.extend_from_slice(b"\n")
}

/// Appends the stanza of a package.
#[tactic(auto, using(std::proofs::Common::append_assoc, crate::proofs::Pieces::lines_joined))]
pub(crate) fn push_stanza(
    out: &mut Vec<u8>,
    number: u32,
    made: &SamplePackage,
) -> Result<(), AllocError>
    ensures { OnOk result (out.new.items ≡ out.old.items ++ stanza_text number made.now) }
{
    out.extend_from_slice(b"Package: ")?;
    push_name(out, number)?;
    out.extend_from_slice(b"\nVersion: 1\n")?;
    push_depends(out, made.needs.as_slice())?;
    push_conflicts(out, made.conflict)?;
    out.extend_from_slice(b"\n")
}
