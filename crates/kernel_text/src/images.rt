//! The classes of a stored kernel that goals name.
ghost use Rattle.std.specs.Prelude.{◌≡◌, ◌<◌, ◌↔◌, ℕ, None, IfOk, IfErr, length, map};
ghost use Rattle.listed.specs.Lists.{Ascending, In};
ghost use Rattle.kernel_text.specs.declared.member.Member.{Member};
ghost use Rattle.kernel_text.specs.Images.{class_at, image_of, is_named_by, NamesTheUnknown};
ghost use Rattle.kernel_text.specs.{Images.{unknown_goal}, Members.{IsMemberRegister}};
ghost use Rattle.package_register.specs.Numbers.{numbers_where};

use crate::member::Member;
use crate::stored::StoredKernel;
use listed::sort_once;
use package_register::Register;
use repo_model::Goal;
use row_book::Needs;
use std::alloc::{AllocError, Global};

/// Why goals have no images.
#[derive(Clone, Copy, Debug, PartialEq, Eq)]
pub enum ImageError {
    /// The goal, counted from 1, names no package.
    Unknown { goal: u64 },
    /// No memory was found.
    Memory,
}

impl From<AllocError> for ImageError {
    ghost use Rattle.std.specs.Prelude.{◌≡◌};
    ghost use Rattle.kernel_text.specs.declared.images.ImageError.TheVariants.{Memory};

    ghost from_gives = { λ _ e. e ≡ Memory };

    fn from(_error: AllocError) -> Self {
        ImageError::Memory
    }
}

impl StoredKernel {
    /// For each goal the classes with a package that it names, ascending. It is refused exactly if
    /// some goal names no package, by the first such goal.
    pub fn images(&self, alloc: Global, goals: &[Goal]) -> Result<Needs, ImageError>
        ensures images { IfOk result (λ needs. needs
            ≡ map (image_of self.now.members (length self.now.book.rows)) goals.now) }
        ensures known { IfOk result (λ _. unknown_goal self.now.members goals.now ≡ None) }
        ensures unknown { IfErr result (NamesTheUnknown (unknown_goal self.now.members goals.now)) }
    {
        let members = self.members.as_slice();
        let mut needs = Needs::new(alloc);
        for (place, goal) in goals.iter().enumerate() {
            let image = image_of(alloc, &self.register, members, goal)?;
            let classes = image.as_slice();
            if classes.is_empty() {
                return Err(ImageError::Unknown {
                    goal: place as u64 + 1,
                });
            }
            needs.push(classes)?;
        }
        Ok(needs)
    }
}

// The classes with a package that the goal names, ascending. They do not depend on the number of
// all classes.
fn image_of(
    alloc: Global,
    register: &Register,
    members: &[Member],
    goal: &Goal,
) -> Result<Vec<u32>, AllocError>
    requires { IsMemberRegister members.now register.now }
    ensures { (size : ℕ) → ((m : Member) → In m members.now → m.class < size) →
        IfOk result (λ image. image.items ≡ image_of members.now size goal.now) }
{
    let chosen = chosen_by(alloc, register, members, goal)?;
    let mut classes = classes_of(alloc, members, &chosen)?;
    sort_once(&mut classes);
    Ok(classes)
}

// The members that the goal names.
fn chosen_by(
    alloc: Global,
    register: &Register,
    members: &[Member],
    goal: &Goal,
) -> Result<Vec<u32>, AllocError>
    requires { IsMemberRegister members.now register.now }
    ensures { IfOk result (λ chosen. chosen.items
        ≡ numbers_where (is_named_by goal.now) members.now) }
{
    let name = goal.name.as_slice();
    match &goal.version {
        Some(version) => register.versioned(alloc, members, name, version),
        None => register.named(alloc, members, name),
    }
}

// The classes of the members of these numbers.
fn classes_of(alloc: Global, members: &[Member], numbers: &[u32]) -> Result<Vec<u32>, AllocError>
    ensures { IfOk result (λ classes. classes.items ≡ map (class_at members.now) numbers.now) }
{
    numbers
        .iter()
        .map(|number| class_at(members, *number))
        .collect(alloc)
}

// The class of the member of a number.
fn class_at(members: &[Member], number: u32) -> u32
    ensures { result ≡ class_at members.now number }
{
    match members.get(number as usize) {
        Some(member) => member.class,
        None => 0,
    }
}
