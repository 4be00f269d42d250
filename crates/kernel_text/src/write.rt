//! Writing the text of a kernel.
ghost use Rattle.std.specs.Prelude.{◌≡◌, ◌++◌, ◌≤◌, ◌<◌, ℕ, List, IfOk, OnOk, length};
ghost use Rattle.std.specs.List.{flat_map};
ghost use Rattle.row_book.specs.{Book.{repository_of, Sound}, Numbers.{numbers}, Flags.{flag}};
ghost use Rattle.listed.specs.Lists.{In};
ghost use Rattle.kernel_text.specs.{KernelText.{format_of, kernel_text}, Members.{kernel_members}};
ghost use Rattle.kernel_text.specs.Writing.{block_text, NumbersPackages, TellHeld};

use crate::classify::packages_by_class;
use crate::holding::{format_of, held_flags};
use crate::push_lines::{
    push_against_lines, push_class_line, push_end, push_head, push_held_line, push_member_lines,
    push_needs_lines,
};
use clause_pool::{NumList, Pool};
use kernel_rounds::Kernel;
use relation_fields::PackageFacts;
use repo_model::Suite;
use row_book::Book;
use std::alloc::{AllocError, Global};

/// The text of a kernel of the suite's book, in which each package of the suite is a member of its
/// class, in file order. It is of format 2 if classes may be held, else of format 1. Time is linear
/// in the packages, the classes and the text.
pub fn write_kernel(
    alloc: Global,
    pool: &Pool,
    suite: &Suite,
    kernel: &Kernel,
) -> Result<Vec<u8>, AllocError>
    requires sound { Sound pool.now kernel.now.book }
    requires each { length kernel.now.class_of ≡ length suite.now.packages }
    requires inside { (class : ℕ) → In class kernel.now.class_of →
        class < length kernel.now.book.rows }
    ensures { IfOk result (λ text. text.items
        ≡ kernel_text (format_of kernel.now.hold) (repository_of pool.now kernel.now.book)
        (kernel_members suite.now.packages kernel.now.class_of
        (length kernel.now.book.rows)) kernel.now.held) }
{
    let flags = held_flags(alloc, kernel.held.as_slice(), kernel.book.size())?;
    write_classes(
        alloc,
        pool,
        suite,
        &kernel.book,
        &kernel.class_of,
        flags.as_slice(),
        format_of(kernel.hold),
    )
}

// The text of the classes of a book, with the packages of each, and whether it is held.
fn write_classes(
    alloc: Global,
    pool: &Pool,
    suite: &Suite,
    book: &Book,
    class_of: &NumList,
    flags: &[bool],
    format: u32,
) -> Result<Vec<u8>, AllocError>
    requires sound { Sound pool.now book.now }
    requires each { length class_of.now ≡ length suite.now.packages }
    requires inside { (class : ℕ) → In class class_of.now → class < length book.now.rows }
    requires flags { length flags.now ≡ length book.now.rows }
    ensures { (held : List ℕ) → TellHeld flags.now held (length book.now.rows) →
        IfOk result (λ text. text.items ≡ kernel_text format (repository_of pool.now book.now)
        (kernel_members suite.now.packages class_of.now (length book.now.rows)) held) }
{
    let packages = suite.packages.as_slice();
    let by_class = packages_by_class(alloc, class_of.as_slice(), book.size())?;
    let mut text = Vec::new(alloc);
    push_head(&mut text, format)?;
    push_classes(&mut text, packages, by_class.as_slice(), flags, pool, book)?;
    push_end(&mut text, book.size(), suite.count())?;
    Ok(text)
}

// Appends the blocks of all classes.
fn push_classes(
    out: &mut Vec<u8>,
    packages: &[PackageFacts],
    by_class: &[NumList],
    flags: &[bool],
    pool: &Pool,
    book: &Book,
) -> Result<(), AllocError>
    requires size { length by_class.now ≡ length book.now.rows }
    requires flags { length flags.now ≡ length book.now.rows }
    requires members { NumbersPackages by_class.now packages.now }
    requires sound { Sound pool.now book.now }
    ensures { OnOk result (out.new.items ≡ out.old.items
        ++ flat_map (λ n. block_text (repository_of pool.now book.now)
        packages.now by_class.now (flag flags.now n) n)
        (numbers (length book.now.rows) 0)) }
{
    for number in 0..book.size() {
        push_class(
            out,
            packages,
            by_class,
            flags[number as usize],
            pool,
            book,
            number,
        )?;
    }
    Ok(())
}

// Appends the block of the class with the number.
fn push_class(
    out: &mut Vec<u8>,
    packages: &[PackageFacts],
    by_class: &[NumList],
    held: bool,
    pool: &Pool,
    book: &Book,
    number: u32,
) -> Result<(), AllocError>
    requires inside { number < length book.now.rows }
    requires size { length by_class.now ≡ length book.now.rows }
    requires members { NumbersPackages by_class.now packages.now }
    requires sound { Sound pool.now book.now }
    ensures { OnOk result (out.new.items ≡ out.old.items
        ++ block_text (repository_of pool.now book.now) packages.now by_class.now held number) }
{
    push_class_line(out, number)?;
    push_member_lines(out, packages, by_class[number as usize].as_slice())?;
    push_held_line(out, held)?;
    push_needs_lines(out, pool, pool.row(book.row(number)))?;
    push_against_lines(out, number, book.against(number))
}
