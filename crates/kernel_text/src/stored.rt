//! Stored kernels.
ghost use Rattle.std.specs.Prelude.{◌≡◌, ◌≤◌, ◌<◌, IfOk, IfErr, length};
ghost use Rattle.clause_pool.specs.Interned.{Kept};
ghost use Rattle.row_book.specs.Book.{repository_of, AddsOnly, Sound};
ghost use Rattle.listed.specs.Lists.{In};
ghost use Rattle.kernel_text.specs.declared.fault.KernelFault.TheVariants.{Memory};
ghost use Rattle.kernel_text.specs.{declared.member.Member.{Member}, KernelFaults.{IsFault}};
ghost use Rattle.kernel_text.specs.KernelReads.{KernelReads};
ghost use Rattle.kernel_text.specs.Members.{IsMemberRegister, IsMemberRegister-prop};
ghost use Rattle.repo_model.specs.Limits.{most_bytes};

use crate::build_book::book_of;
use crate::fault::KernelFault;
use crate::member::Member;
use crate::read::read_text;
use crate::reader::Reader;
use clause_pool::{NumList, Pool};
use listed::Listed;
use package_register::Register;
use row_book::Book;
use std::alloc::Global;

/// Packages of classes, in the order of their classes.
pub type MemberList = Listed<Member>;

/// The classes of a kernel, as a book over a pool, their packages, and the held ones.
#[derive(Drop)]
pub struct StoredKernel {
    /// The format of the text, 1 or 2.
    pub format: u32,
    /// The classes.
    pub book: Book,
    /// The packages of the classes.
    pub members: MemberList,
    /// The held classes, ascending.
    pub held: NumList,
    // The packages by their names and versions, as they were read.
    pub(crate) register: Register,
    ghost inside: { (m : Member) → In m members → m.class < length book.rows },
    ghost registered: { IsMemberRegister members
        register } by { IsMemberRegister-prop members register },
}

/// Reads the text of a kernel: its format, its classes, over the pool, their packages and the held
/// ones, or the first fault of the text. The pool gains only the rows of the classes and their
/// clauses, and by a fault of the text nothing. What it had stays, even if memory runs out. A text
/// has at most 1,073,741,824 bytes, the limit that the program keeps for files. Time is linear in
/// the text; equal packages are found by a register.
pub fn read_kernel(
    alloc: Global,
    bytes: &[u8],
    pool: &mut Pool,
) -> Result<StoredKernel, KernelFault>
    requires { length bytes.now ≤ most_bytes }
    ensures read { IfOk result (λ stored. KernelReads bytes.now stored.format
        (repository_of pool.new stored.book) stored.members stored.held) }
    ensures sound { IfOk result (λ stored. Sound pool.new stored.book) }
    ensures only { IfOk result (λ stored. AddsOnly pool.old pool.new stored.book.rows) }
    ensures refused { IfErr result (IsFault bytes.now) }
    ensures kept { Kept pool.old pool.new }
    ensures unchanged { IfErr result (λ fault. (fault ≡ Memory → ⊥) → pool.new ≡ pool.old) }
{
    let reader = read_text(alloc, bytes)?;
    let book = book_of(alloc, pool, &reader)?;
    let Reader {
        format,
        members,
        register,
        held,
        ..
    } = reader;
    Ok(StoredKernel {
        format,
        book,
        members,
        held,
        register,
    })
}
