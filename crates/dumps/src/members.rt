//! The members of an object, read from its text in any order, each once.

ghost use Rattle.std.specs.Prelude.{◌≡◌, ◌≢◌, ℕ, ◌+◌, max, List, [], ◌∷◌, Some, None, Err, IfOk, IsErrOf, OnOk};
ghost use Rattle.std.specs.Bool.{OnFalse, OnTrue};
ghost use Rattle.json.specs.Token.{key};
ghost use Rattle.serde_json.specs.Data.{Data, Members, no_members, put};
ghost use Rattle.dumps.specs.MemberNames.{text_of_name};
ghost use Rattle.dumps.specs.MembersRead.{AreRead, BeginsObject, IsApart, IsRead, Stands, filled};
ghost use Rattle.dumps.specs.declared.error.DumpError.TheVariants.{NotADump, OutOfMemory};

use crate::DumpError;
use crate::member_name::MemberName;
use crate::plain_text::PlainText;
use crate::read_text::ReadText;
use std::alloc::Global;

/// The members that an object may have, with the values that have been read.
pub(crate) trait ReadMembers<'a>: Drop {
    ghost stands: { Self → Members → Type 0 };

    ghost names: { Self → List (List ℕ) };

    ghost many: { Self → ℕ };

    ghost deep: { ℕ };

    /// Reads the next member. It has to be one of these, and not to have been read.
    fn read_next(&mut self, alloc: Global, reader: &mut PlainText<'a>) -> Result<(), DumpError>
        ensures { OnOk result (IsRead stands names many deep self.old self.new reader.old reader.new) };

    /// A law: what has been read stands on when a member of another name is found.
    fn stand_on(&self)
        ensures { (name : List ℕ) (value : Data) (found : Members) → IsApart name (names self.now) → stands self.now found → stands self.now (put name value found) };
}

/// No member.
#[derive(Drop)]
pub(crate) struct NoMember;

impl<'a> ReadMembers<'a> for NoMember {
    ghost stands = { λ _ _. Unit {0} };

    ghost names = { λ _. [] };

    ghost many = { λ _. 0 };

    ghost deep = { 0 };

    fn read_next(&mut self, _alloc: Global, _reader: &mut PlainText<'a>) -> Result<(), DumpError>
        ensures { result ≡ Err NotADump }
    {
        Err(DumpError::NotADump)
    }

    fn stand_on(&self) {}
}

/// A member and others.
#[derive(Drop)]
pub(crate) struct Member<T, R> {
    name: MemberName,
    value: Option<T>,
    others: R,
}

impl<T: Drop, R: Drop> Member<T, R> {
    /// A member of which nothing has been read, and others.
    #[inline(always)]
    pub(crate) fn unread(name: MemberName, others: R) -> Member<T, R>
        ensures { result ≡ record { name = name; value = None; others = others } }
    {
        Member {
            name,
            value: None,
            others,
        }
    }

    /// Takes the name of the member, if it is next and its value has not been read.
    fn takes_name(&self, reader: &mut PlainText<'_>) -> bool
        ensures none { OnTrue result (self.now.value ≡ None) }
        ensures taken { OnTrue result (reader.old ≡ key (text_of_name self.now.name) ∷ reader.new) }
        ensures unchanged { OnFalse result (reader.new ≡ reader.old) }
    {
        self.value.is_none() && reader.take_name(self.name.text())
    }

    /// The value, if it has been read, and the others.
    #[inline(always)]
    pub(crate) fn read(self) -> Result<(T, R), DumpError>
        ensures value { IfOk result (λ parts. self.value ≡ Some parts.0) }
        ensures others { IfOk result (λ parts. self.others ≡ parts.1) }
        ensures needs_no_memory { result ≢ Err OutOfMemory }
    {
        let Member { value, others, .. } = self;
        match value {
            Some(value) => Ok((value, others)),
            None => Err(DumpError::NotADump),
        }
    }
}

impl<'a, T: ReadText<'a>, R: ReadMembers<'a>> ReadMembers<'a> for Member<T, R> {
    ghost stands = { λ m found. Stands T.tells (text_of_name m.name) m.value found × IsApart (text_of_name m.name) (R.names m.others) × R.stands m.others found };

    ghost names = { λ m. text_of_name m.name ∷ R.names m.others };

    ghost many = { λ m. filled m.value + R.many m.others };

    ghost deep = { max T.deep R.deep };

    #[inline]
    fn read_next(&mut self, alloc: Global, reader: &mut PlainText<'a>) -> Result<(), DumpError> {
        if !self.takes_name(reader) {
            return self.others.read_next(alloc, reader);
        }
        let value = T::read_text(alloc, reader)?;
        self.others.stand_on();
        self.value = Some(value);
        Ok(())
    }

    fn stand_on(&self) {
        self.others.stand_on();
    }
}

/// Reads all members of the object that comes next. Where none does, no memory is needed to tell.
pub(crate) fn read_members<'a, M: ReadMembers<'a>>(
    alloc: Global,
    members: &mut M,
    reader: &mut PlainText<'a>,
) -> Result<(), DumpError>
    requires none { M.stands members.old no_members }
    requires unread { M.many members.old ≡ 0 }
    ensures read { OnOk result (AreRead M.stands M.names M.many M.deep members.old members.new reader.old reader.new) }
    ensures memory { IsErrOf result OutOfMemory → BeginsObject reader.old }
{
    reader.begin_members()?;
    'members: while !reader.take_end_object() {
        members.read_next(alloc, reader)?;
    }
    Ok(())
}
