ghost use Rattle.std.specs.Prelude.{◌≡◌, ◌++◌, ◌+◌, ◌<◌, ◌^◌, length, map, nat_eq, IfOk, OnOk};
ghost use Rattle.std.specs.Prelude.{OnErr, IfSome};
ghost use Rattle.dv_value.specs.Classes.{find_class};
ghost use Rattle.std.specs.List.{list_any};
ghost use Rattle.dv_value.specs.Builtin.{children_of};

use crate::class_fault::ClassFault;
use crate::class_id::ClassId;
use crate::text::Text;
use std::alloc::{AllocError, Global};
use std::marker::Model;

/// A class of failures, with its parent: the root has none.
#[derive(Debug, Drop)]
pub struct Class {
    pub name: Text,
    pub parent: Option<ClassId>,
}

/// The table of classes, which contracts see as the list of them. A class is known by its place in
/// it.
#[derive(Debug, Drop)]
pub struct Classes {
    alloc: Global,
    classes: Vec<Class>,
}

impl Model for Classes {
    ghost use Rattle.std.specs.Prelude.{List, ◌<◌, ◌^◌, length};
    ghost use Rattle.dv_value.specs.declared.classes.Class.{Class};

    ghost Value = { List Class };

    ghost view = { λ c. c.classes.items };

    ghost invariant = { λ c. length c.classes.items < 2 ^ 32 };
}

impl Classes {
    ghost use Rattle.std.specs.Prelude.{[], Some, None};
    ghost use Rattle.dv_value.specs.Classes.{name_of, parent_of, path_within, descends};
    ghost use Rattle.dv_value.specs.Builtin.{children_of, builtin, later_builtin};
    ghost use Rattle.dv_value.specs.Declaring.{with_class, AnswersDeclare};

    /// The classes that every script has, each after its parent.
    #[tactic(auto, unfolding(crate::specs::Builtin::builtin))]
    pub fn builtin(alloc: Global) -> Result<Classes, AllocError>
        ensures { IfOk result (λ table. table ≡ builtin) }
    {
        let mut classes = Vec::new(alloc);
        add_children(alloc, &mut classes, None, &["Exception"])?;
        add_children(
            alloc,
            &mut classes,
            Some(ClassId::EXCEPTION),
            &[
                "ValueError",
                "TypeError",
                "NameError",
                "AssertionError",
                "OverflowError",
                "RuntimeError",
                "AlreadyCalledError",
                "CancelledError",
                "FirstError",
                "QueueOverflow",
                "QueueUnderflow",
                "SchedulerError",
            ],
        )?;
        add_children(
            alloc,
            &mut classes,
            Some(ClassId::VALUE_ERROR),
            &["AlreadyCalled", "AlreadyCancelled"],
        )?;
        add_children(
            alloc,
            &mut classes,
            Some(ClassId::SCHEDULER_ERROR),
            &["TaskFinished", "NotPaused"],
        )?;
        add_children(
            alloc,
            &mut classes,
            Some(ClassId::TASK_FINISHED),
            &["TaskDone", "TaskStopped", "TaskFailed"],
        )?;
        add_children(
            alloc,
            &mut classes,
            Some(ClassId::EXCEPTION),
            &["TimeoutError"],
        )?;
        Ok(Classes { alloc, classes })
    }

    /// The classes that every later script has: one more, at the end.
    #[tactic(auto, unfolding(crate::specs::Builtin::builtin))]
    pub fn later_builtin(alloc: Global) -> Result<Classes, AllocError>
        ensures { IfOk result (λ table. table ≡ later_builtin) }
    {
        let Classes { alloc, mut classes } = Classes::builtin(alloc)?;
        add_children(
            alloc,
            &mut classes,
            Some(ClassId::SCHEDULER_ERROR),
            &["SchedulerStopped"],
        )?;
        Ok(Classes { alloc, classes })
    }

    /// Adds a class at the end of the table, under the class of its parent's name. After a refusal
    /// the table is as it was.
    pub fn declare(&mut self, name: &str, parent: &str) -> Result<ClassId, ClassFault>
        requires room { length self.old + 1 < 2 ^ 32 }
        ensures answer { AnswersDeclare self.old name.now parent.now result }
        ensures declared { OnOk result (self.new ≡ with_class self.old name.now parent.now) }
        ensures kept { OnErr result (self.new ≡ self.old) }
    {
        if self.find(name).is_some() {
            return Err(ClassFault::Taken);
        }
        let Some(above) = self.find(parent) else {
            return Err(ClassFault::NoParent);
        };
        let class = child_of(self.alloc, Some(above), name)?;
        let id = ClassId::new(self.count());
        self.classes.push(class).map_err(AllocError::from)?;
        Ok(id)
    }

    /// The first class of this name, byte for byte, if there is one.
    pub fn find(&self, name: &str) -> Option<ClassId>
        ensures { result ≡ find_class name.now self.now }
    {
        match place_of(&self.classes, name) {
            None => None,
            Some(place) => Some(ClassId::new(place as u32)),
        }
    }

    /// How many classes there are.
    pub fn count(&self) -> u32
        ensures { result ≡ length self.now }
    {
        self.classes.len() as u32
    }

    /// The name of a class, or no name for a class of another table.
    pub fn name(&self, class: ClassId) -> &str
        ensures { result.now ≡ name_of self.now class }
    {
        match self.classes.get(class.place() as usize) {
            None => "",
            Some(class) => class.name.as_str(),
        }
    }

    fn parent(&self, class: ClassId) -> Option<ClassId>
        ensures { result ≡ parent_of self.now class }
    {
        match self.classes.get(class.place() as usize) {
            None => None,
            Some(class) => class.parent,
        }
    }

    /// Whether `class` is `from`, or has it above. A class with no place in the table descends from
    /// itself alone.
    pub fn descends(&self, class: ClassId, from: ClassId) -> bool
        ensures { result ≡ descends self.now class from }
    {
        self.reaches(u64::from(class.place()) + 1, class, from)
    }

    #[tactic(auto, using(crate::proofs::Paths::path_step))]
    fn reaches(&self, steps: u64, class: ClassId, from: ClassId) -> bool
        ensures { result ≡ list_any (λ d. nat_eq d from) (path_within steps self.now class) }
    {
        if steps == 0 {
            return false;
        }
        if class == from {
            return true;
        }
        match self.parent(class) {
            None => false,
            Some(parent) => self.reaches(steps - 1, parent, from),
        }
    }
}

fn add_children(
    alloc: Global,
    classes: &mut Vec<Class>,
    parent: Option<ClassId>,
    names: &[&str],
) -> Result<(), AllocError>
    ensures { OnOk result (classes.new.items
        ≡ classes.old.items ++ children_of parent (map (λ name. name.now) names.now)) }
{
    for child in names {
        classes.push(child_of(alloc, parent, child)?)?;
    }
    Ok(())
}

fn child_of(alloc: Global, parent: Option<ClassId>, name: &str) -> Result<Class, AllocError>
    ensures { IfOk result (λ class. class ≡ record { name = name.now; parent = parent }) }
{
    Ok(Class {
        name: Text::of(alloc, name)?,
        parent,
    })
}

fn place_of(classes: &[Class], name: &str) -> Option<usize>
    ensures place { result ≡ find_class name.now classes.now }
    ensures within { IfSome result (λ place. place < length classes.now) }
{
    classes.iter().position(|class| class.name.as_str() == name)
}
