//! Writing a kernel as JSON.
ghost use Rattle.std.specs.Prelude.{◌≡◌, ◌++◌, ◌<◌, ℕ, ltb, codes, IfOk, OnOk, [], filter, length};
ghost use Rattle.std.specs.{Prelude.{map}, Str.{IsAscii}};
ghost use Rattle.clause_pool.specs.Interned.{clauses_at, OfPool};
ghost use Rattle.relation_fields.specs.declared.packages.PackageFacts.{PackageFacts};
ghost use Rattle.repo_model.specs.{Facts.{AreNamedPackages}, Stanzas.{stanza_at}};
ghost use Rattle.row_book.specs.Book.{repository_of, Sound};
ghost use Rattle.listed.specs.Lists.{In};
ghost use Rattle.serde_json.specs.Data.{string, put as with_member};
ghost use Rattle.serde_json.specs.{View.{view, members_view}, Written.{compact_text}};
ghost use Rattle.kernel_text.specs.JsonData.{clauses_data, data_of_class, kernel_data};
ghost use Rattle.kernel_text.specs.JsonData.{mark_of_class, number_data, numbers_data};
ghost use Rattle.kernel_text.specs.JsonData.{package_data, packages_data, with_told};
ghost use Rattle.kernel_text.specs.{KernelJson.{kernel_json}, KernelText.{format_of}};
ghost use Rattle.kernel_text.specs.{Members.{kernel_members}, Writing.{NumbersPackages}};

use crate::classify::packages_by_class;
use crate::holding::{format_of, held_flags};
use clause_pool::{ClauseId, NumList, Pool};
use kernel_rounds::Kernel;
use relation_fields::PackageFacts;
use repo_model::Suite;
use row_book::Book;
use serde_json::{Map, Value, json, put};
use std::alloc::{AllocError, Global};

/// The JSON of a kernel of the suite's book, in which each package of the suite is a member of its
/// class, in file order. It is of format 2 if classes may be held, else of format 1. Time is linear
/// in the packages, the classes and the text.
pub fn kernel_json(
    alloc: Global,
    pool: &Pool,
    suite: &Suite,
    kernel: &Kernel,
) -> Result<Vec<u8>, AllocError>
    requires sound { Sound pool.now kernel.now.book }
    requires each { length kernel.now.class_of ≡ length suite.now.packages }
    requires inside { (class : ℕ) → In class kernel.now.class_of →
        class < length kernel.now.book.rows }
    requires named { AreNamedPackages suite.now.packages }
    ensures { IfOk result (λ text. text.items
        ≡ kernel_json (format_of kernel.now.hold) (repository_of pool.now kernel.now.book)
        (kernel_members suite.now.packages kernel.now.class_of
        (length kernel.now.book.rows)) kernel.now.held) }
{
    let packages = suite.packages.as_slice();
    let by_class = packages_by_class(alloc, kernel.class_of.as_slice(), kernel.book.size())?;
    let flags = held_flags(alloc, kernel.held.as_slice(), kernel.book.size())?;
    document_text(
        alloc,
        packages,
        by_class.as_slice(),
        pool,
        &kernel.book,
        flags.as_slice(),
        kernel.hold,
    )
}

// The text of the document, and a line feed.
fn document_text(
    alloc: Global,
    packages: &[PackageFacts],
    by_class: &[NumList],
    pool: &Pool,
    book: &Book,
    flags: &[bool],
    hold: bool,
) -> Result<Vec<u8>, AllocError>
    requires size { length by_class.now ≡ length book.now.rows }
    requires members { NumbersPackages by_class.now packages.now }
    requires named { AreNamedPackages packages.now }
    requires sound { Sound pool.now book.now }
    requires flags { length flags.now ≡ length book.now.rows }
    ensures { IfOk result (λ text. text.items
        ≡ compact_text (kernel_data hold (repository_of pool.now book.now) packages.now by_class.now
        flags.now (length book.now.rows)) ++ codes "\n") }
{
    let document = document(alloc, packages, by_class, pool, book, flags, hold)?;
    let mut text = document.to_vec(alloc)?;
    text.extend_from_slice(b"\n")?;
    Ok(text)
}

// The document of all classes.
fn document(
    alloc: Global,
    packages: &[PackageFacts],
    by_class: &[NumList],
    pool: &Pool,
    book: &Book,
    flags: &[bool],
    hold: bool,
) -> Result<Value, AllocError>
    requires size { length by_class.now ≡ length book.now.rows }
    requires members { NumbersPackages by_class.now packages.now }
    requires named { AreNamedPackages packages.now }
    requires sound { Sound pool.now book.now }
    requires flags { length flags.now ≡ length book.now.rows }
    ensures { IfOk result (λ value. view value ≡ kernel_data hold (repository_of pool.now book.now)
        packages.now by_class.now flags.now (length book.now.rows)) }
{
    let mut items = Vec::new(alloc);
    for number in 0..book.size() {
        let mark = mark_of(hold, flags, number);
        items.push(class_value(alloc, packages, by_class, pool, book, mark, number)?)?;
    }
    let classes = Value::Array(items);
    json!(in alloc; {"classes": classes, "format": format_of(hold)})
}

// Whether a class is held, if classes may be.
fn mark_of(hold: bool, flags: &[bool], number: u32) -> Option<bool>
    requires { number < length flags.now }
    ensures { result ≡ mark_of_class hold flags.now number }
{
    if hold {
        Some(flags[number as usize])
    } else {
        None
    }
}

// A class: the greater classes that it conflicts with, whether it is held, if that is said, its
// packages and its clauses.
fn class_value(
    alloc: Global,
    packages: &[PackageFacts],
    by_class: &[NumList],
    pool: &Pool,
    book: &Book,
    mark: Option<bool>,
    number: u32,
) -> Result<Value, AllocError>
    requires inside { number < length book.now.rows }
    requires size { length by_class.now ≡ length book.now.rows }
    requires members { NumbersPackages by_class.now packages.now }
    requires named { AreNamedPackages packages.now }
    requires sound { Sound pool.now book.now }
    ensures { IfOk result (λ value. view value
        ≡ data_of_class (repository_of pool.now book.now) packages.now by_class.now mark number) }
{
    let mut class = Map::new(alloc);
    put_against(&mut class, alloc, number, book.against(number))?;
    put_mark(&mut class, alloc, mark)?;
    put_members(
        &mut class,
        alloc,
        packages,
        by_class[number as usize].as_slice(),
    )?;
    put_needs(&mut class, alloc, pool, pool.row(book.row(number)))?;
    Ok(Value::Object(class))
}

// Adds the conflicts with greater classes to an object.
fn put_against(
    class: &mut Map<String, Value>,
    alloc: Global,
    number: u32,
    conflicts: &[u32],
) -> Result<(), AllocError>
    ensures { OnOk result (members_view class.new.entries
        ≡ with_member (codes "against") (numbers_data (filter (λ m. ltb number m) conflicts.now))
        (members_view class.old.entries)) }
{
    let against = against_value(alloc, number, conflicts)?;
    put(class, alloc, "against", against)
}

// Adds to an object whether the class is held, if that is said.
fn put_mark(
    class: &mut Map<String, Value>,
    alloc: Global,
    mark: Option<bool>,
) -> Result<(), AllocError>
    ensures { OnOk result (members_view class.new.entries
        ≡ with_told mark (members_view class.old.entries)) }
{
    match mark {
        Some(held) => put(class, alloc, "held", Value::from(held)),
        None => Ok(()),
    }
}

// Adds the packages with these numbers to an object.
fn put_members(
    class: &mut Map<String, Value>,
    alloc: Global,
    packages: &[PackageFacts],
    members: &[u32],
) -> Result<(), AllocError>
    requires members { (i : ℕ) → In i members.now → i < length packages.now }
    requires named { AreNamedPackages packages.now }
    ensures { OnOk result (members_view class.new.entries
        ≡ with_member (codes "members") (packages_data packages.now members.now)
        (members_view class.old.entries)) }
{
    let members = members_value(alloc, packages, members)?;
    put(class, alloc, "members", members)
}

// Adds the clauses with these ids to an object.
fn put_needs(
    class: &mut Map<String, Value>,
    alloc: Global,
    pool: &Pool,
    ids: &[ClauseId],
) -> Result<(), AllocError>
    requires { OfPool pool.now ids.now }
    ensures { OnOk result (members_view class.new.entries
        ≡ with_member (codes "needs") (clauses_data (clauses_at pool.now ids.now))
        (members_view class.old.entries)) }
{
    let needs = needs_value(alloc, pool, ids)?;
    put(class, alloc, "needs", needs)
}

// The conflicts with greater classes.
fn against_value(alloc: Global, number: u32, conflicts: &[u32]) -> Result<Value, AllocError>
    ensures { IfOk result (λ value. view value
        ≡ numbers_data (filter (λ m. ltb number m) conflicts.now)) }
{
    let mut items = Vec::new(alloc);
    push_greater(&mut items, number, conflicts)?;
    Ok(Value::Array(items))
}

// Appends the numbers that are greater than one to an empty list.
fn push_greater(items: &mut Vec<Value>, number: u32, conflicts: &[u32]) -> Result<(), AllocError>
    requires { items.old.items ≡ [] }
    ensures { OnOk result (map view items.new.items
        ≡ map number_data (filter (λ m. ltb number m) conflicts.now)) }
{
    for class in conflicts {
        if number < *class {
            items.push(Value::from(*class))?;
        }
    }
    Ok(())
}

// The packages with these numbers.
fn members_value(
    alloc: Global,
    packages: &[PackageFacts],
    members: &[u32],
) -> Result<Value, AllocError>
    requires members { (i : ℕ) → In i members.now → i < length packages.now }
    requires named { AreNamedPackages packages.now }
    ensures { IfOk result (λ value. view value ≡ packages_data packages.now members.now) }
{
    let mut items = Vec::new(alloc);
    push_packages(&mut items, alloc, packages, members)?;
    Ok(Value::Array(items))
}

// Appends the packages with these numbers to an empty list.
fn push_packages(
    items: &mut Vec<Value>,
    alloc: Global,
    packages: &[PackageFacts],
    members: &[u32],
) -> Result<(), AllocError>
    requires none { items.old.items ≡ [] }
    requires members { (i : ℕ) → In i members.now → i < length packages.now }
    requires named { AreNamedPackages packages.now }
    ensures { OnOk result (map view items.new.items
        ≡ map (λ i. package_data (stanza_at packages.now i)) members.now) }
{
    for member in members {
        items.push(package_value(alloc, &packages[*member as usize])?)?;
    }
    Ok(())
}

// The name and the version of a package.
fn package_value(alloc: Global, facts: &PackageFacts) -> Result<Value, AllocError>
    requires name { IsAscii facts.now.name }
    requires version { IsAscii facts.now.version }
    ensures { IfOk result (λ value. view value ≡ package_data facts.now) }
{
    let name = text_value(alloc, facts.name.as_slice())?;
    let version = text_value(alloc, facts.version.text())?;
    json!(in alloc; [name, version])
}

// A text that is ASCII, so that nothing is lost.
fn text_value(alloc: Global, text: &[u8]) -> Result<Value, AllocError>
    requires { IsAscii text.now }
    ensures { IfOk result (λ value. view value ≡ string text.now) }
{
    let text = String::from_utf8_lossy(alloc, text)?;
    Ok(Value::from(text))
}

// The clauses with these ids.
fn needs_value(alloc: Global, pool: &Pool, ids: &[ClauseId]) -> Result<Value, AllocError>
    requires { OfPool pool.now ids.now }
    ensures { IfOk result (λ value. view value ≡ clauses_data (clauses_at pool.now ids.now)) }
{
    let mut items = Vec::new(alloc);
    push_clauses(&mut items, alloc, pool, ids)?;
    Ok(Value::Array(items))
}

// Appends the clauses with these ids to an empty list.
fn push_clauses(
    items: &mut Vec<Value>,
    alloc: Global,
    pool: &Pool,
    ids: &[ClauseId],
) -> Result<(), AllocError>
    requires none { items.old.items ≡ [] }
    requires ids { OfPool pool.now ids.now }
    ensures { OnOk result (map view items.new.items
        ≡ map numbers_data (clauses_at pool.now ids.now)) }
{
    for id in ids {
        items.push(numbers_value(alloc, pool.slice(*id))?)?;
    }
    Ok(())
}

// The numbers of a clause.
fn numbers_value(alloc: Global, numbers: &[u32]) -> Result<Value, AllocError>
    ensures { IfOk result (λ value. view value ≡ numbers_data numbers.now) }
{
    let mut items = Vec::new(alloc);
    push_numbers(&mut items, numbers)?;
    Ok(Value::Array(items))
}

// Appends numbers to an empty list.
fn push_numbers(items: &mut Vec<Value>, numbers: &[u32]) -> Result<(), AllocError>
    requires { items.old.items ≡ [] }
    ensures { OnOk result (map view items.new.items ≡ map number_data numbers.now) }
{
    for number in numbers {
        items.push(Value::from(*number))?;
    }
    Ok(())
}
