//! What is read of a text so far.
ghost use Rattle.std.specs.Prelude.{◌≡◌, ◌<◌, ◌-◌, ℕ, true, IfOk};
ghost use Rattle.listed.specs.Lists.{In};
ghost use Rattle.kernel_text.specs.KernelLines.{AgainstLine, ClassLine, EndLine, HeadLine};
ghost use Rattle.kernel_text.specs.KernelLines.{HeldLine, MemberLine, NeedsLine};
ghost use Rattle.kernel_text.specs.Reader.{last_clause, Adds, Enters, HoldsReading, TakesLine};
ghost use Rattle.kernel_text.specs.{StoredReading.{is_complete}, Members.{IsMemberRegister}};
ghost use Rattle.kernel_text.specs.Reading.{empty_reading, IsFormat, IsNamed, may_add_clause};
ghost use Rattle.kernel_text.specs.Reading.{may_add_conflict, may_add_held, may_add_member};
ghost use Rattle.kernel_text.specs.Reading.{may_begin, number_limit, Reading};
ghost use Rattle.kernel_text.specs.Words.{IsWellFormed, line_of_content};

use crate::clause_shape::is_ascending;
use crate::content::LineContent;
use crate::member::Member;
use crate::read_line::read_line;
use clause_pool::{NumList, is_before};
use deb_version::{Bytes, Version};
use listed::Listed;
use package_register::Register;
use row_book::{Pair, holds};
use std::alloc::{AllocError, Global};

/// What the last line decides about the next one.
#[derive(Clone, Copy, Debug, PartialEq, Eq)]
pub(crate) enum LastLine {
    Nothing,
    Head,
    Class,
    Member,
    Held,
    Needs,
    Against { class: u32 },
    End { classes: u32, members: u32 },
}

/// A clause of a class.
#[derive(Drop)]
pub(crate) struct Clause {
    pub(crate) class: u32,
    pub(crate) numbers: NumList,
}

/// What the lines so far say. The last of them decides which line may come next. Then there are the
/// format, and how many classes have begun. There are the members with their classes and a register
/// of them, the held classes, the clauses and the pairs of conflicting classes.
#[derive(Drop)]
pub(crate) struct Reader {
    pub(crate) last: LastLine,
    pub(crate) format: u32,
    pub(crate) classes: u32,
    pub(crate) members: Listed<Member>,
    pub(crate) register: Register,
    pub(crate) held: NumList,
    pub(crate) clauses: Listed<Clause>,
    pub(crate) conflicts: Listed<Pair>,
}

impl Reader {
    /// Before the first line.
    pub(crate) fn new(alloc: Global) -> Reader
        ensures { HoldsReading result empty_reading }
    {
        Reader {
            last: LastLine::Nothing,
            format: 0,
            classes: 0,
            members: Listed::new(alloc),
            register: Register::new(alloc),
            held: NumList::new(alloc),
            clauses: Listed::new(alloc),
            conflicts: Listed::new(alloc),
        }
    }

    /// Takes a line, if it is allowed after those before it. Returns whether it is.
    pub(crate) fn add(&mut self, alloc: Global, line: &[u8]) -> Result<bool, AllocError>
        requires { (t : Reading) × HoldsReading self.old t }
        ensures { (t : Reading) → HoldsReading self.old t → IfOk result (Adds t line.now self.new) }
    {
        match read_line(alloc, line)? {
            Some(content) => self.take(alloc, content),
            None => Ok(false),
        }
    }

    // Takes a line by what it says.
    fn take(&mut self, alloc: Global, content: LineContent) -> Result<bool, AllocError>
        requires well_formed { IsWellFormed (line_of_content content) }
        requires holds { (t : Reading) × HoldsReading self.old t }
        ensures { (t : Reading) → HoldsReading self.old t →
            IfOk result (TakesLine t (line_of_content content) self.new) }
    {
        match content {
            LineContent::Head { format } => Ok(self.take_head(format)),
            LineContent::Class { number } => Ok(self.take_class(number)),
            LineContent::Member { name, version } => self.take_member(alloc, name, version),
            LineContent::Held => self.take_held(),
            LineContent::Needs { clause } => self.take_clause(clause),
            LineContent::Against { class } => self.take_conflict(class),
            LineContent::End { classes, members } => Ok(self.take_end(classes, members)),
        }
    }

    // Takes the first line.
    fn take_head(&mut self, format: u32) -> bool
        requires { IsFormat format }
        ensures { (t : Reading) → HoldsReading self.old t →
            TakesLine t (HeadLine format) self.new result }
    {
        match self.last {
            LastLine::Nothing => {
                self.format = format;
                self.last = LastLine::Head;
                true
            }
            _ => false,
        }
    }

    // Begins a class.
    fn take_class(&mut self, number: u32) -> bool
        requires { number < number_limit }
        ensures { (t : Reading) → HoldsReading self.old t →
            TakesLine t (ClassLine number) self.new result }
    {
        if !may_begin(self.last) {
            return false;
        }
        if number != self.classes {
            return false;
        }
        self.classes += 1;
        self.last = LastLine::Class;
        true
    }

    // Takes a member of the class.
    fn take_member(
        &mut self,
        alloc: Global,
        name: Bytes,
        version: Version,
    ) -> Result<bool, AllocError>
        requires named { IsNamed name version }
        requires holds { (t : Reading) × HoldsReading self.old t }
        ensures { (t : Reading) → HoldsReading self.old t →
            IfOk result (TakesLine t (MemberLine name version) self.new) }
    {
        if !may_add_member(self.last) {
            return Ok(false);
        }
        let class = self.this_class();
        let member = Member {
            class,
            name,
            version,
        };
        let members = self.members.as_slice();
        let is_new = enter(alloc, &mut self.register, members, &member)?;
        if !is_new {
            return Ok(false);
        }
        self.members.push(member)?;
        self.last = LastLine::Member;
        Ok(true)
    }

    // Takes that the class is held.
    fn take_held(&mut self) -> Result<bool, AllocError>
        ensures { (t : Reading) → HoldsReading self.old t →
            IfOk result (TakesLine t HeldLine self.new) }
    {
        if !may_add_held(self.last) {
            return Ok(false);
        }
        if self.format != 2 {
            return Ok(false);
        }
        let class = self.this_class();
        self.held.push(class)?;
        self.last = LastLine::Held;
        Ok(true)
    }

    // Takes a clause of the class.
    fn take_clause(&mut self, clause: NumList) -> Result<bool, AllocError>
        requires { (l : ℕ) → In l clause → l < number_limit }
        ensures { (t : Reading) → HoldsReading self.old t →
            IfOk result (TakesLine t (NeedsLine clause) self.new) }
    {
        let class = self.this_class();
        let numbers = clause.as_slice();
        if !may_add_clause(self.last, self.previous(), numbers) {
            return Ok(false);
        }
        if !is_ascending(numbers) {
            return Ok(false);
        }
        if holds(numbers, class) {
            return Ok(false);
        }
        self.clauses.push(Clause {
            class,
            numbers: clause,
        })?;
        self.last = LastLine::Needs;
        Ok(true)
    }

    // The last clause that was read.
    fn previous(&self) -> &[u32]
        ensures { result.now ≡ last_clause self.now.clauses }
    {
        match self.clauses.as_slice().last() {
            Some(clause) => clause.numbers.as_slice(),
            None => &[],
        }
    }

    // Takes a conflict of the class.
    fn take_conflict(&mut self, class: u32) -> Result<bool, AllocError>
        requires { class < number_limit }
        ensures { (t : Reading) → HoldsReading self.old t →
            IfOk result (TakesLine t (AgainstLine class) self.new) }
    {
        let low = self.this_class();
        if !may_add_conflict(self.last, class) {
            return Ok(false);
        }
        if class <= low {
            return Ok(false);
        }
        self.conflicts.push(Pair { low, high: class })?;
        self.last = LastLine::Against { class };
        Ok(true)
    }

    // The class whose block has the last line.
    fn this_class(&self) -> u32
        ensures { result ≡ self.now.classes - 1 }
    {
        self.classes.saturating_sub(1)
    }

    // Takes the end line.
    fn take_end(&mut self, classes: u32, members: u32) -> bool
        requires classes { classes < number_limit }
        requires members { members < number_limit }
        ensures { (t : Reading) → HoldsReading self.old t →
            TakesLine t (EndLine classes members) self.new result }
    {
        if !may_begin(self.last) {
            return false;
        }
        self.last = LastLine::End { classes, members };
        true
    }

    /// Whether the last line is the end line with the right numbers.
    pub(crate) fn is_complete(&self) -> bool
        ensures { (t : Reading) → HoldsReading self.now t → result ≡ is_complete t }
    {
        match self.last {
            LastLine::End { classes, members } => {
                classes == self.classes && members as usize == self.members.as_slice().len()
            }
            _ => false,
        }
    }
}

// Adds a member if it is new. Returns whether it was.
fn enter(
    alloc: Global,
    register: &mut Register,
    members: &[Member],
    member: &Member,
) -> Result<bool, AllocError>
    requires { IsMemberRegister members.now register.old }
    ensures { IfOk result (Enters members.now member.now register.new) }
{
    let name = member.name.as_slice();
    let found = register.versioned(alloc, members, name, &member.version)?;
    let same = found.as_slice();
    if !same.is_empty() {
        return Ok(false);
    }
    let Ok(number) = u32::try_from(members.len()) else {
        return Err(AllocError);
    };
    register.add(member, number)?;
    Ok(true)
}

// Whether the clause may come next, after the previous one.
fn may_add_clause(last: LastLine, previous: &[u32], clause: &[u32]) -> bool
    ensures { result ≡ may_add_clause last previous.now clause.now }
{
    match last {
        LastLine::Member | LastLine::Held => true,
        LastLine::Needs => is_before(previous, clause),
        _ => false,
    }
}

// Whether a conflict with the class may come next.
fn may_add_conflict(last: LastLine, class: u32) -> bool
    ensures { result ≡ may_add_conflict last class }
{
    match last {
        LastLine::Member | LastLine::Held | LastLine::Needs => true,
        LastLine::Against { class: lesser } => lesser < class,
        _ => false,
    }
}

// Whether it may come next that the class is held.
fn may_add_held(last: LastLine) -> bool
    ensures { result ≡ may_add_held last }
{
    match last {
        LastLine::Member => true,
        _ => false,
    }
}

// Whether a member may come next.
fn may_add_member(last: LastLine) -> bool
    ensures { result ≡ may_add_member last }
{
    match last {
        LastLine::Class | LastLine::Member => true,
        _ => false,
    }
}

// Whether a block or the end line may come next.
fn may_begin(last: LastLine) -> bool
    ensures { result ≡ may_begin last }
{
    match last {
        LastLine::Head
        | LastLine::Member
        | LastLine::Held
        | LastLine::Needs
        | LastLine::Against { .. } => true,
        LastLine::Nothing | LastLine::Class | LastLine::End { .. } => false,
    }
}
