//! What has been read of a group.

ghost use Rattle.std.specs.Prelude.{◌≡◌, [], OnOk, IfOk};
ghost use Rattle.sparql_grammar.specs.Bodies as spec;

use crate::tree::{Element, Expression, Group, Member, Triples};
use rdf_terms::{Items, NoMemory};
use std::alloc::Global;
use std::mem;

/// What has been read of a group: its members, the block that more triples may
/// join, and its filters.
#[derive(Drop)]
pub struct Body<'a> {
    alloc: Global,
    members: Items<Member<'a>>,
    block: Items<Triples<'a>>,
    filters: Items<Expression<'a>>,
}

impl<'a> Body<'a> {
    /// Nothing has been read.
    pub fn new(alloc: Global) -> Body<'a>
        ensures { spec.IsEmpty result }
    {
        Body {
            alloc,
            members: Items::new(alloc),
            block: Items::new(alloc),
            filters: Items::new(alloc),
        }
    }

    /// Puts an element behind those before it.
    ///
    /// # Errors
    /// [`NoMemory`] where memory is wanting.
    pub fn put(&mut self, element: Element<'a>) -> Result<(), NoMemory>
        ensures { OnOk result (self.new ≡ spec.put element.entry self.old) }
    {
        match element {
            Element::Block(triples) => self.join(triples),
            Element::Filter(expression) => self.filters.push(expression),
            Element::Pattern(member) => match self.close() {
                Ok(()) => self.members.push(member),
                Err(fault) => {
                    drop(member);
                    Err(fault)
                }
            },
        }
    }

    /// Puts the element, if there is one, behind those before it.
    ///
    /// # Errors
    /// [`NoMemory`] where memory is wanting.
    pub fn put_some(&mut self, element: Option<Element<'a>>) -> Result<(), NoMemory>
        ensures { OnOk result (self.new ≡ spec.put_some element.entry self.old) }
    {
        match element {
            Some(element) => self.put(element),
            None => Ok(()),
        }
    }

    /// The group of all that has been read.
    ///
    /// # Errors
    /// [`NoMemory`] where memory is wanting.
    pub fn into_group(mut self) -> Result<Group<'a>, NoMemory>
        ensures { IfOk result (λ group. group ≡ spec.group_of self.entry) }
    {
        self.close()?;
        Ok(Group {
            members: self.members,
            filters: self.filters,
        })
    }

    // Triples join the block.
    fn join(&mut self, triples: Items<Triples<'a>>) -> Result<(), NoMemory>
        ensures { OnOk result (self.new ≡ spec.joined triples.entry self.old) }
    {
        let mut block = mem::replace(&mut self.block, Items::new(self.alloc)).into_vec();
        block.append(&mut triples.into_vec())?;
        let _ = mem::replace(&mut self.block, Items::from_vec(block));
        Ok(())
    }

    // The block, if it has triples, is a member, and none join it.
    fn close(&mut self) -> Result<(), NoMemory>
        ensures { OnOk result (self.new ≡ spec.closed self.old) }
    {
        if self.block.is_empty() {
            return Ok(());
        }
        let triples = mem::replace(&mut self.block, Items::new(self.alloc));
        self.members.push(Member::Triples(triples))
    }
}
