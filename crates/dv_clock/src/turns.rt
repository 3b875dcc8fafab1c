ghost use Rattle.std.specs.Prelude.{◌≡◌, length, IfOk, OnOk, OnErr};

use crate::place::Place;
use crate::task_id::TaskId;
use dv_script::turn_rule::TurnRule;
use dv_value::items::Items;
use std::alloc::{AllocError, Global};
use std::collections::{BTreeMap, HashMap};
use std::marker::Model;

/// The tasks that take turns, each in its order of joining, round and round (Twisted:
/// `Cooperator`). Whose turn it is once one has left goes by a rule.
///
/// Each task is kept under a number that grows with each that joins.
#[derive(Drop)]
pub struct Turns {
    rule: TurnRule,
    order: BTreeMap<u64, u32>,
    numbers: HashMap<u32, u64>,
    given: u64,
    place: Place,
}

impl Model for Turns {
    ghost use Rattle.std.specs.Prelude.{◌+◌};
    ghost use Rattle.std.specs.Coded.{codes};
    ghost use Rattle.dv_clock.specs.Turns.{Turns as Seen, IsKept, tasks_of, stepped};
    ghost use Rattle.dv_script.specs.contracts.turn_rule.TurnRule as rule_contract;

    ghost Value = { Seen };

    ghost coded = { Prim.hlevel (codes, rule_contract.the_row.coded) };

    ghost view = { λ t. record {
      rule = t.rule;
      tasks = tasks_of t.order.entries;
      position = stepped t.place.next t.order.entries + t.place.beyond;
    } };

    ghost invariant = { λ t. IsKept t.order.entries t.numbers.entries t.given t.place };
}

impl Turns {
    ghost use Rattle.dv_clock.specs.Turns.{new_turns, joined, is_among, left, turn_of, gone_on};

    /// Nobody takes turns.
    pub fn new(alloc: Global, rule: TurnRule) -> Turns
        ensures { result ≡ new_turns rule }
    {
        Turns {
            rule,
            order: BTreeMap::new(alloc),
            numbers: HashMap::new(alloc),
            given: 0,
            place: Place { next: 0, beyond: 0 },
        }
    }

    /// The rule by which a task leaves.
    pub fn rule(&self) -> TurnRule
        ensures { result ≡ self.now.rule }
    {
        self.rule
    }

    /// How many tasks take turns.
    pub fn len(&self) -> usize
        ensures { result ≡ length self.now.tasks }
    {
        self.order.len()
    }

    /// The tasks that take turns, in order of joining.
    pub fn to_items(&self, alloc: Global) -> Result<Items<TaskId>, AllocError>
        ensures { IfOk result (λ tasks. tasks ≡ self.now.tasks) }
    {
        let mut tasks = Items::new(alloc);
        for task in self.order.values() {
            tasks.push(TaskId::new(*task))?;
        }
        Ok(tasks)
    }

    /// A task joins, last; one that takes turns already stays where it is. On allocation failure,
    /// or as the 2^64th that joins, it doesn't join.
    pub fn add(&mut self, task: TaskId) -> Result<(), AllocError>
        ensures ok { OnOk result (self.new ≡ joined task self.old) }
        ensures err { OnErr result (self.new ≡ self.old) }
    {
        let joining = task.number();
        if self.numbers.contains_key(&joining) {
            return Ok(());
        }
        let Some(given) = self.given.checked_add(1) else {
            return Err(AllocError);
        };
        join(&mut self.order, &mut self.numbers, joining, self.given)?;
        self.place = place_joined(self.place, self.given);
        self.given = given;
        Ok(())
    }

    /// Removes a task, and returns whether it took turns.
    pub fn remove(&mut self, task: TaskId) -> bool
        ensures was { result ≡ is_among task self.old.tasks }
        ensures rest { self.new ≡ left task self.old }
    {
        let leaving = task.number();
        let Some(number) = self.numbers.remove(&leaving) else {
            return false;
        };
        self.order.remove(&number);
        self.place = place_left(&self.order, self.rule, self.place, number);
        true
    }

    /// The task whose turn it is. None where nobody takes turns.
    pub fn turn(&self) -> Option<TaskId>
        ensures { result ≡ turn_of self.now }
    {
        match turn(&self.order, self.place.next) {
            Some((_, task)) => Some(TaskId::new(task)),
            None => None,
        }
    }

    /// The task whose turn it is; then it is the turn of the one after it. None where nobody takes
    /// turns; then the next turn is that of the first.
    pub fn next(&mut self) -> Option<TaskId>
        ensures turn { result ≡ turn_of self.old }
        ensures rest { self.new ≡ gone_on self.old }
    {
        let Some((number, task)) = turn(&self.order, self.place.next) else {
            self.place = Place { next: 0, beyond: 0 };
            return None;
        };
        self.place = Place {
            next: number + 1,
            beyond: 0,
        };
        Some(TaskId::new(task))
    }
}

ghost use Rattle.std.specs.Prelude.{◌<◌, ◌+◌, ◌^◌, Some};
ghost use Rattle.dv_clock.specs.Turns.{turn_from, found_from, place_joined, place_left, Joined};

/// The first that is looked for from a number on, with its own number.
#[tactic(auto, using(crate::proofs::TurnsLemmas::between_from))]
fn found_from(order: &BTreeMap<u64, u32>, next: u64) -> Option<(u64, u32)>
    ensures { result ≡ found_from next order.now.entries }
{
    match order.range(next..).next() {
        Some((number, task)) => Some((*number, *task)),
        None => None,
    }
}

/// Whose turn it is, with the number under which it joined.
fn turn(order: &BTreeMap<u64, u32>, next: u64) -> Option<(u64, u32)>
    ensures { result ≡ turn_from (found_from next order.now.entries) order.now.entries }
{
    match found_from(order, next) {
        Some(found) => Some(found),
        None => match order.first_key_value() {
            Some((number, task)) => Some((*number, *task)),
            None => None,
        },
    }
}

/// The place once a task has joined under a number, last.
fn place_joined(place: Place, number: u64) -> Place
    requires room { number + 1 < 2 ^ 64 }
    ensures { result ≡ place_joined number place }
{
    if place.beyond == 0 {
        place
    } else {
        Place {
            next: number + 1,
            beyond: place.beyond - 1,
        }
    }
}

/// The place once the task with a number has left these.
fn place_left(order: &BTreeMap<u64, u32>, rule: TurnRule, place: Place, number: u64) -> Place
    requires found { (j : Joined) → found_from place.next order.now.entries ≡ Some j
        → j.0 + 1 < 2 ^ 64 }
    requires beyond { place.beyond + 1 < 2 ^ 64 }
    ensures { result
        ≡ place_left rule number (found_from place.next order.now.entries) place }
{
    match rule {
        TurnRule::Earlier => place,
        TurnRule::Fair => match found_from(order, place.next) {
            Some(_) => place,
            None => Place { next: 0, beyond: 0 },
        },
        TurnRule::Twisted => {
            if number < place.next {
                place_stayed(found_from(order, place.next), place)
            } else {
                place
            }
        }
    }
}

ghost use Rattle.dv_clock.specs.Turns.{place_stayed};

/// The place once a task has left that stood before it, where this is found from the place on.
fn place_stayed(found: Option<(u64, u32)>, place: Place) -> Place
    requires found { (j : Joined) → found ≡ Some j → j.0 + 1 < 2 ^ 64 }
    requires beyond { place.beyond + 1 < 2 ^ 64 }
    ensures { result ≡ place_stayed found place }
{
    match found {
        Some((skipped, _)) => Place {
            next: skipped + 1,
            beyond: place.beyond,
        },
        None => Place {
            next: place.next,
            beyond: place.beyond + 1,
        },
    }
}

ghost use Rattle.std.specs.Prelude.{None, nat_eq};
ghost use Rattle.std.specs.Map.{lookup};
ghost use Rattle.std.specs.BTreeMap.{insert_entry, IsOrdered};
ghost use Rattle.std.specs.Ordering.{nat_cmp};
ghost use Rattle.dv_clock.specs.Turns.{FindsToo, FindsSame};

/// A task that hasn't joined joins under a number. On allocation failure, it doesn't.
fn join(
    order: &mut BTreeMap<u64, u32>,
    numbers: &mut HashMap<u32, u64>,
    task: u32,
    number: u64,
) -> Result<(), AllocError>
    requires new { lookup (nat_eq task) numbers.old.entries ≡ None }
    ensures ordered { OnOk result
        (order.new.entries ≡ insert_entry nat_cmp order.old.entries number task) }
    ensures ascends { OnOk result (IsOrdered nat_cmp order.new) }
    ensures found { OnOk result (FindsToo numbers.old.entries numbers.new.entries task number) }
    ensures same_order { OnErr result (order.new.entries ≡ order.old.entries) }
    ensures same_found { OnErr result (FindsSame numbers.old.entries numbers.new.entries) }
{
    let Ok(_) = numbers.insert(task, number) else {
        return Err(AllocError);
    };
    let Ok(_) = order.insert(number, task) else {
        numbers.remove(&task);
        return Err(AllocError);
    };
    Ok(())
}
