//! The objects that a journal names, numbered in order of making.

use crate::facts::Named;
use dv_journal::form::{Naming, ObjectKind};
use std::alloc::{AllocError, Global};
use std::collections::BTreeMap;

/// What was made under a name.
#[derive(Clone, Copy)]
struct Bound {
    /// The number of the last that was made.
    last: usize,
    /// Whether others were made before it.
    others: bool,
}

/// The objects of one kind.
#[derive(Drop)]
pub struct Names<'e> {
    names: Vec<&'e str>,
    bound: BTreeMap<&'e str, Bound>,
}

impl<'e> Names<'e> {
    fn new(alloc: Global) -> Names<'e> {
        Names {
            names: Vec::new(alloc),
            bound: BTreeMap::new(alloc),
        }
    }

    /// One is made, and its number answered.
    fn make(&mut self, name: &'e str) -> Result<usize, AllocError> {
        let number = self.names.len();
        let others = self.bound.get(name).is_some();
        self.bound.insert(
            name,
            Bound {
                last: number,
                others,
            },
        )?;
        self.names.push(name)?;
        Ok(number)
    }

    fn last(&self, name: &str) -> Option<usize> {
        Some(self.bound.get(name)?.last)
    }

    /// The one that was made under a name, where no other was.
    fn only(&self, name: &str) -> Option<usize> {
        let bound = self.bound.get(name)?;
        if bound.others { None } else { Some(bound.last) }
    }

    /// The name of the one of this number.
    pub fn name(&self, number: usize) -> Option<&'e str> {
        self.names.get(number).copied()
    }
}

/// An object that is named: its kind in a word, its name, and its number where that is known.
#[derive(Clone, Copy)]
pub struct Object<'e> {
    pub kind: &'e str,
    pub name: Option<&'e str>,
    pub number: Option<usize>,
}

/// All objects so far.
#[derive(Drop)]
pub struct Objects<'e> {
    pub locks: Names<'e>,
    pub queues: Names<'e>,
    pub calls: Names<'e>,
    pub loops: Names<'e>,
    pub tasks: Names<'e>,
    /// None is ever made: a script declares its bodies.
    pub bodies: Names<'e>,
    /// Nor is one of these: a script declares its cooperators.
    pub cooperators: Names<'e>,
}

fn word_of(kind: ObjectKind) -> &'static str {
    match kind {
        ObjectKind::Lock => "lock",
        ObjectKind::Queue => "queue",
        ObjectKind::Call => "call",
        ObjectKind::Loop => "loop",
        ObjectKind::Task => "task",
        ObjectKind::Body => "body",
        ObjectKind::Cooperator => "cooperator",
    }
}

impl<'e> Objects<'e> {
    pub fn new(alloc: Global) -> Objects<'e> {
        Objects {
            locks: Names::new(alloc),
            queues: Names::new(alloc),
            calls: Names::new(alloc),
            loops: Names::new(alloc),
            tasks: Names::new(alloc),
            bodies: Names::new(alloc),
            cooperators: Names::new(alloc),
        }
    }

    fn names(&self, kind: ObjectKind) -> &Names<'e> {
        match kind {
            ObjectKind::Lock => &self.locks,
            ObjectKind::Queue => &self.queues,
            ObjectKind::Call => &self.calls,
            ObjectKind::Loop => &self.loops,
            ObjectKind::Task => &self.tasks,
            ObjectKind::Body => &self.bodies,
            ObjectKind::Cooperator => &self.cooperators,
        }
    }

    fn make(&mut self, kind: ObjectKind, name: &'e str) -> Result<usize, AllocError> {
        match kind {
            ObjectKind::Lock => self.locks.make(name),
            ObjectKind::Queue => self.queues.make(name),
            ObjectKind::Call => self.calls.make(name),
            ObjectKind::Loop => self.loops.make(name),
            ObjectKind::Task => self.tasks.make(name),
            ObjectKind::Body => self.bodies.make(name),
            ObjectKind::Cooperator => self.cooperators.make(name),
        }
    }

    /// The number of the object that a name stands for, where that is known. It may be made by
    /// that.
    fn number(
        &mut self,
        kind: ObjectKind,
        naming: Naming,
        name: &'e str,
    ) -> Result<Option<usize>, AllocError> {
        match naming {
            Naming::Made => Ok(Some(self.make(kind, name)?)),
            Naming::Last => Ok(self.names(kind).last(name)),
            Naming::Any => Ok(self.names(kind).only(name)),
        }
    }

    /// The object that an entry names, which may be made by it.
    pub fn take(&mut self, named: &Named<'e>) -> Result<Option<Object<'e>>, AllocError> {
        match named {
            Named::Nothing => Ok(None),
            Named::Object(kind, naming, name) => {
                let number = self.number(*kind, *naming, name)?;
                Ok(Some(named_object(*kind, name, number)))
            }
            Named::Job(number) => Ok(Some(job(*number))),
        }
    }

    /// The object of a kind and a number.
    pub fn at(&self, kind: ObjectKind, number: usize) -> Object<'e> {
        Object {
            kind: word_of(kind),
            name: self.names(kind).name(number),
            number: Some(number),
        }
    }
}

/// The object of a kind and a name.
fn named_object<'e>(kind: ObjectKind, name: &'e str, number: Option<usize>) -> Object<'e> {
    Object {
        kind: word_of(kind),
        name: Some(name),
        number,
    }
}

/// The Cooperator of a name.
pub fn cooperator(name: &str) -> Object<'_> {
    named_object(ObjectKind::Cooperator, name, None)
}

/// The job of a number.
pub fn job<'e>(number: u32) -> Object<'e> {
    Object {
        kind: "job",
        name: None,
        number: Some(number as usize),
    }
}
