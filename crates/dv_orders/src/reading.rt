//! Reads batches as `./conform` hands them over: JSON, an array for each batch, whose posts are
//! `[CALLER,POST]`.

ghost use Rattle.dv_document.specs.View.{view};
ghost use Rattle.dv_forms.specs.Answer.{Reads};
ghost use Rattle.dv_orders.specs.Reading.{batch_at, batches_at, batches_in, posted_at};

use dv_document::document::{Document, DocumentFault};
use dv_document::places::Json;
use dv_document::room::Room;
use dv_forms::leaf::{array, small, two};
use dv_forms::shape_fault::ShapeFault;
use dv_posts::posted::Posted;
use dv_value::items::Items;
use std::alloc::Global;

/// Reads the batches that a text says. BadShape where it says none.
pub fn read_batches(alloc: Global, text: &str) -> Result<Items<Items<Posted>>, ShapeFault>
    ensures { Reads result (batches_in text.now) }
{
    let mut room = Room::new(alloc);
    match Document::read(alloc, text.as_bytes(), &mut room) {
        Ok(document) => batches(alloc, document.root()),
        Err(DocumentFault::OutOfMemory) => Err(ShapeFault::OutOfMemory),
        Err(DocumentFault::NotJson) => Err(ShapeFault::BadShape),
    }
}

fn batches(alloc: Global, json: Json<'_>) -> Result<Items<Items<Posted>>, ShapeFault>
    ensures { Reads result (batches_at (view json.entry)) }
{
    let items = array(json)?;
    let mut batches = Items::new(alloc);
    let mut rest = items;
    while let Some(item) = rest.next() {
        batches.push(batch(alloc, item)?)?;
    }
    Ok(batches)
}

fn batch(alloc: Global, json: Json<'_>) -> Result<Items<Posted>, ShapeFault>
    ensures { Reads result (batch_at (view json.entry)) }
{
    let items = array(json)?;
    let mut posts = Items::new(alloc);
    let mut rest = items;
    while let Some(item) = rest.next() {
        posts.push(posted(item)?)?;
    }
    Ok(posts)
}

fn posted(json: Json<'_>) -> Result<Posted, ShapeFault>
    ensures { Reads result (posted_at (view json.entry)) }
{
    let (caller, index) = two(array(json)?)?;
    Ok(Posted {
        caller: small(caller, 0, u32::MAX)?,
        index: small(index, 0, u32::MAX)?,
    })
}
