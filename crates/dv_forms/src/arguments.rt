ghost use Rattle.dv_document.specs.View.{items_view};
ghost use Rattle.dv_clock.specs.declared.limits.TheConstants.{MOST_DELAY};
ghost use Rattle.dv_script.specs.declared.limits.TheConstants.{MOST_PLACE, MOST_PLACES};
ghost use Rattle.dv_forms.specs.Answer.{Reads};
ghost use Rattle.dv_forms.specs.Parts.{text_at, integer_at, number_at, bound_at, fault_at};
ghost use Rattle.dv_forms.specs.Parts.{value_at, class_at, list_flag_at, gather_flag_at, list_at};
ghost use Rattle.dv_forms.specs.Parts.{sole, pair, triple};

use crate::failure::failure;
use crate::leaf::{
    bound, class, classes_in, gather_flags_in, integer, list_flags_in, number, one, places_in,
    small, text, texts_in, three, two,
};
use crate::shape_fault::ShapeFault;
use crate::value::value;
use dv_clock::limits::MOST_DELAY;
use dv_document::places::Elements;
use dv_script::action::{GatherFlag, ListFlag};
use dv_script::limits::MOST_PLACES;
use dv_value::boxed::Boxed;
use dv_value::class_id::ClassId;
use dv_value::classes::Classes;
use dv_value::items::Items;
use dv_value::text::Text;
use dv_value::value::Value;
use std::alloc::Global;

/// A text alone.
#[inline(always)]
#[tactic(auto, unfolding(crate::specs::Parts::sole))]
pub fn one_text(alloc: Global, arguments: Elements<'_>) -> Result<Text, ShapeFault>
    ensures { Reads result (sole text_at (items_view arguments.entry)) }
{
    text(alloc, one(arguments)?)
}

/// A value alone.
#[tactic(auto, unfolding(crate::specs::Parts::sole))]
pub fn one_value(
    alloc: Global,
    classes: &Classes,
    arguments: Elements<'_>,
) -> Result<Value, ShapeFault>
    ensures { Reads result (sole (value_at classes.now) (items_view arguments.entry)) }
{
    value(alloc, classes, one(arguments)?)
}

/// A failure alone, as a value.
#[tactic(auto, unfolding(crate::specs::Parts::sole))]
pub fn one_fault(
    alloc: Global,
    classes: &Classes,
    arguments: Elements<'_>,
) -> Result<Value, ShapeFault>
    ensures { Reads result (sole (fault_at classes.now) (items_view arguments.entry)) }
{
    let failure = failure(alloc, classes, one(arguments)?)?;
    Ok(Value::Fault(Boxed::new(alloc, failure)?))
}

/// An integer of 64 bits alone.
#[tactic(auto, unfolding(crate::specs::Parts::sole))]
pub fn one_integer(arguments: Elements<'_>) -> Result<i64, ShapeFault>
    ensures { Reads result (sole integer_at (items_view arguments.entry)) }
{
    integer(one(arguments)?)
}

/// An integer alone, from `low` to `high`.
#[tactic(auto, unfolding(crate::specs::Parts::sole))]
pub fn one_number(arguments: Elements<'_>, low: u64, high: u64) -> Result<u64, ShapeFault>
    ensures { Reads result (sole (number_at low high) (items_view arguments.entry)) }
{
    number(one(arguments)?, low, high)
}

/// An integer alone, from `low` to `high`, which are of 32 bits.
#[tactic(auto, unfolding(crate::specs::Parts::sole))]
pub fn one_small(arguments: Elements<'_>, low: u32, high: u32) -> Result<u32, ShapeFault>
    ensures { Reads result (sole (number_at low high) (items_view arguments.entry)) }
{
    small(one(arguments)?, low, high)
}

/// Places in lists alone.
#[tactic(auto, unfolding(crate::specs::Parts::sole))]
pub fn one_path(alloc: Global, arguments: Elements<'_>) -> Result<Items<u32>, ShapeFault>
    ensures { Reads result (sole (list_at (number_at 0 MOST_PLACE)) (items_view arguments.entry)) }
{
    places_in(alloc, one(arguments)?)
}

/// Two texts.
#[tactic(auto, unfolding(crate::specs::Parts::pair))]
pub fn two_texts(alloc: Global, arguments: Elements<'_>) -> Result<(Text, Text), ShapeFault>
    ensures { Reads result (pair text_at text_at (items_view arguments.entry)) }
{
    let (first, second) = two(arguments)?;
    let first = text(alloc, first)?;
    let second = text(alloc, second)?;
    Ok((first, second))
}

/// A name, and a value.
#[tactic(auto, unfolding(crate::specs::Parts::pair))]
pub fn named_value(
    alloc: Global,
    classes: &Classes,
    arguments: Elements<'_>,
) -> Result<(Text, Value), ShapeFault>
    ensures { Reads result (pair text_at (value_at classes.now) (items_view arguments.entry)) }
{
    let (name, json) = two(arguments)?;
    let name = text(alloc, name)?;
    let value = value(alloc, classes, json)?;
    Ok((name, value))
}

/// A name, and a number of places.
#[tactic(auto, unfolding(crate::specs::Parts::pair))]
pub fn named_places(alloc: Global, arguments: Elements<'_>) -> Result<(Text, u32), ShapeFault>
    ensures { Reads result (pair text_at (number_at 1 MOST_PLACES) (items_view arguments.entry)) }
{
    let (name, json) = two(arguments)?;
    let name = text(alloc, name)?;
    let places = small(json, 1, MOST_PLACES)?;
    Ok((name, places))
}

/// A name, and a delay.
#[tactic(auto, unfolding(crate::specs::Parts::pair))]
pub fn named_delay(alloc: Global, arguments: Elements<'_>) -> Result<(Text, u64), ShapeFault>
    ensures { Reads result (pair text_at (number_at 0 MOST_DELAY) (items_view arguments.entry)) }
{
    let (name, json) = two(arguments)?;
    let name = text(alloc, name)?;
    let delay = number(json, 0, MOST_DELAY)?;
    Ok((name, delay))
}

/// A class, and a message.
#[tactic(auto, unfolding(crate::specs::Parts::pair))]
pub fn class_and_message(
    alloc: Global,
    classes: &Classes,
    arguments: Elements<'_>,
) -> Result<(ClassId, Text), ShapeFault>
    ensures { Reads result (pair (class_at classes.now) text_at (items_view arguments.entry)) }
{
    let (name, message) = two(arguments)?;
    let class = class(classes, name)?;
    let message = text(alloc, message)?;
    Ok((class, message))
}

/// Classes, and a value.
#[tactic(auto, unfolding(crate::specs::Parts::pair))]
pub fn classes_and_value(
    alloc: Global,
    classes: &Classes,
    arguments: Elements<'_>,
) -> Result<(Items<ClassId>, Value), ShapeFault>
    ensures { Reads result
        (pair (list_at (class_at classes.now)) (value_at classes.now)
        (items_view arguments.entry)) }
{
    let (names, json) = two(arguments)?;
    let listed = classes_in(alloc, classes, names)?;
    let value = value(alloc, classes, json)?;
    Ok((listed, value))
}

/// A name, a class, and a message.
#[tactic(auto, unfolding(crate::specs::Parts::triple))]
pub fn named_failure(
    alloc: Global,
    classes: &Classes,
    arguments: Elements<'_>,
) -> Result<(Text, ClassId, Text), ShapeFault>
    ensures { Reads result
        (triple text_at (class_at classes.now) text_at (items_view arguments.entry)) }
{
    let (name, class_name, message) = three(arguments)?;
    let name = text(alloc, name)?;
    let class = class(classes, class_name)?;
    let message = text(alloc, message)?;
    Ok((name, class, message))
}

/// The name of a list, its children, and its flags.
#[tactic(auto, unfolding(crate::specs::Parts::triple))]
pub fn named_list(
    alloc: Global,
    arguments: Elements<'_>,
) -> Result<(Text, Items<Text>, Items<ListFlag>), ShapeFault>
    ensures { Reads result (triple text_at (list_at text_at) (list_at list_flag_at)
        (items_view arguments.entry)) }
{
    let (name, children, flags) = three(arguments)?;
    let name = text(alloc, name)?;
    let children = texts_in(alloc, children)?;
    let flags = list_flags_in(alloc, flags)?;
    Ok((name, children, flags))
}

/// The name of what is gathered, its children, and its flags.
#[tactic(auto, unfolding(crate::specs::Parts::triple))]
pub fn named_gathering(
    alloc: Global,
    arguments: Elements<'_>,
) -> Result<(Text, Items<Text>, Items<GatherFlag>), ShapeFault>
    ensures { Reads result (triple text_at (list_at text_at) (list_at gather_flag_at)
        (items_view arguments.entry)) }
{
    let (name, children, flags) = three(arguments)?;
    let name = text(alloc, name)?;
    let children = texts_in(alloc, children)?;
    let flags = gather_flags_in(alloc, flags)?;
    Ok((name, children, flags))
}

/// The name of a queue, the bound of its items, and the bound of its waiters.
#[tactic(auto, unfolding(crate::specs::Parts::triple))]
pub fn named_bounds(
    alloc: Global,
    arguments: Elements<'_>,
) -> Result<(Text, Option<u32>, Option<u32>), ShapeFault>
    ensures { Reads result (triple text_at bound_at bound_at (items_view arguments.entry)) }
{
    let (name, size, backlog) = three(arguments)?;
    let name = text(alloc, name)?;
    let size = bound(size)?;
    let backlog = bound(backlog)?;
    Ok((name, size, backlog))
}
