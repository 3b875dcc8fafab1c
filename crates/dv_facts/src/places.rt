//! What lies in what.

use dv_journal::form::Nesting;
use std::alloc::{AllocError, Global};

/// What an entry is in which others lie.
#[derive(Clone, Copy, PartialEq, Eq)]
enum Part {
    /// The rest of an event: an advance, or a drain.
    Outer,
    /// What came due, but for a tick; or a post.
    Due,
    Tick,
    Step,
    /// A side that runs.
    Side,
}

/// An entry in which others lie.
#[derive(Clone, Copy)]
struct Open {
    entry: usize,
    part: Part,
}

/// Where an entry lies.
#[derive(Clone, Copy)]
pub struct Place {
    /// The entry of the innermost part that came due, or the post, or the step.
    pub section: Option<usize>,
    /// The entry that it lies in directly.
    pub under: Option<usize>,
    /// In how many entries it lies.
    pub depth: usize,
    /// The entry of the side that it ends.
    pub ends: Option<usize>,
}

/// What is open, from the outermost.
#[derive(Drop)]
pub struct Places {
    open: Vec<Open>,
    /// Whether the entry before made a loop.
    after_loop: bool,
}

impl Places {
    pub fn new(alloc: Global) -> Places {
        Places {
            open: Vec::new(alloc),
            after_loop: false,
        }
    }

    /// An event begins.
    pub fn begin_event(&mut self) {
        self.open.clear();
        self.after_loop = false;
    }

    /// The next entry, of this number, and where it lies.
    pub fn next(&mut self, entry: usize, nesting: Nesting) -> Result<Place, AllocError> {
        let at_once = self.after_loop;
        self.after_loop = nesting == Nesting::Loop;
        match nesting {
            Nesting::Plain | Nesting::Loop => Ok(self.place(None)),
            Nesting::Begins => self.open_part(entry, Part::Side),
            Nesting::Ends => {
                let ended = self.end_side();
                Ok(self.place(ended))
            }
            Nesting::Outer => self.open_part(entry, Part::Outer),
            Nesting::Turn => {
                if at_once {
                    Ok(self.place(None))
                } else {
                    self.open_due(entry, Part::Due)
                }
            }
            Nesting::Due => self.open_due(entry, Part::Due),
            Nesting::Tick => self.open_due(entry, Part::Tick),
            Nesting::Step => {
                self.end_step();
                self.open_part(entry, Part::Step)
            }
            Nesting::NextTick => {
                self.end_step();
                Ok(self.place(None))
            }
        }
    }

    fn open_part(&mut self, entry: usize, part: Part) -> Result<Place, AllocError> {
        let place = self.place(None);
        self.open.push(Open { entry, part })?;
        Ok(place)
    }

    /// What came due before has ended.
    fn open_due(&mut self, entry: usize, part: Part) -> Result<Place, AllocError> {
        let outer = match self.open.first() {
            Some(open) if open.part == Part::Outer => 1,
            Some(_) | None => 0,
        };
        self.open.truncate(outer);
        self.open_part(entry, part)
    }

    /// A step that is open, and in which no side runs, has ended.
    fn end_step(&mut self) {
        if let Some(open) = self.open.last() {
            if open.part == Part::Step {
                let _ = self.open.pop();
            }
        }
    }

    fn end_side(&mut self) -> Option<usize> {
        let open = self.open.last()?;
        if open.part != Part::Side {
            return None;
        }
        let entry = open.entry;
        let _ = self.open.pop();
        Some(entry)
    }

    fn place(&self, ends: Option<usize>) -> Place {
        Place {
            section: self.section(),
            under: self.under(),
            depth: self.open.len(),
            ends,
        }
    }

    fn under(&self) -> Option<usize> {
        Some(self.open.last()?.entry)
    }

    /// The innermost part that came due, or the post, or the step: the last that is no side among
    /// the first three that are open.
    fn section(&self) -> Option<usize> {
        let mut section = None;
        for open in self.open.iter().take(3) {
            match open.part {
                Part::Due | Part::Tick | Part::Step => section = Some(open.entry),
                Part::Outer | Part::Side => {}
            }
        }
        section
    }
}
