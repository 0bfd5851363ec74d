//! Classes.

ghost use Rattle.std.specs.Prelude.{◌≡◌, [], OnOk};
ghost use Rattle.hhbc_repo.specs.TextSyntax.{AClass};
ghost use Rattle.hhas_read.specs.ClassMembers.{AParent, Braced, ClassTail, MembersToEnd, ParentAndMembers, member_of, members_of, with_member};
ghost use Rattle.hhas_read.specs.Reading.{Reads, any};

use crate::class_members::Member;
use crate::reader::{Reader, Stop};
use hack_values::{NoMemory, Seq, Text};
use hhbc_repo::{BodyParts, ClassParts, Const, PropertyParts};
use std::alloc::Global;

/// The members of a class, those of each kind in their order.
#[derive(Drop)]
pub struct Members {
    pub consts: Seq<Const>,
    pub props: Seq<PropertyParts>,
    pub methods: Seq<BodyParts>,
}

impl Members {
    fn new(alloc: Global) -> Members
        ensures { result ≡ members_of [] }
    {
        Members {
            consts: Seq::new(alloc),
            props: Seq::new(alloc),
            methods: Seq::new(alloc),
        }
    }

    fn add(&mut self, member: Member) -> Result<(), NoMemory>
        ensures { OnOk result (self.new ≡ with_member (member_of member) self.old) }
    {
        match member {
            Member::Const(constant) => self.consts.push(constant),
            Member::Property(property) => self.props.push(property),
            Member::Method(method) => self.methods.push(method),
        }
    }
}

impl<'a> Reader<'a> {
    /// Members, perhaps none, and the closing brace.
    fn members_to_end(&mut self, alloc: Global) -> Result<Members, Stop>
        ensures { Reads any MembersToEnd self.old result self.new }
    {
        let mut members = Members::new(alloc);
        while !self.is_mark(b'}') {
            let member = self.member(alloc)?;
            members.add(member)?;
        }
        self.skip();
        Ok(members)
    }

    /// Members in braces.
    fn braced_members(&mut self, alloc: Global) -> Result<Members, Stop>
        ensures { Reads any Braced self.old result self.new }
    {
        match self.mark(b'{') {
            Ok(()) => self.members_to_end(alloc),
            Err(stop) => Err(stop),
        }
    }

    /// `extends` and the name of the parent.
    fn parent(&mut self, alloc: Global) -> Result<Text, Stop>
        ensures { Reads any AParent self.old result self.new }
    {
        match self.keyword(b"extends") {
            Ok(()) => self.word(alloc),
            Err(stop) => Err(stop),
        }
    }

    /// What stands behind the name of a class.
    fn parent_and_members(&mut self, alloc: Global) -> Result<(Option<Text>, Members), Stop>
        ensures { Reads any ParentAndMembers self.old result self.new }
    {
        if !self.is_word(b"extends") {
            let members = self.braced_members(alloc)?;
            return Ok((None, members));
        }
        let parent = self.parent(alloc)?;
        let members = self.braced_members(alloc)?;
        Ok((Some(parent), members))
    }

    /// What stands behind `.class`.
    fn class_tail(&mut self, alloc: Global) -> Result<ClassParts, Stop>
        ensures { Reads any ClassTail self.old result self.new }
    {
        let name = self.word(alloc)?;
        let (parent, members) = self.parent_and_members(alloc)?;
        let Members {
            consts,
            props,
            methods,
        } = members;
        Ok(ClassParts {
            name,
            parent,
            consts,
            props,
            methods,
        })
    }

    /// `.class`, a name, perhaps a parent, and members in braces.
    pub fn class(&mut self, alloc: Global) -> Result<ClassParts, Stop>
        ensures { Reads any AClass self.old result self.new }
    {
        match self.directive(b"class") {
            Ok(()) => self.class_tail(alloc),
            Err(stop) => Err(stop),
        }
    }
}
