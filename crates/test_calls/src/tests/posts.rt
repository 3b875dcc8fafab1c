ghost use Rattle.dv_posts.specs.Posts.{SamePoster};

use super::gates::{MOST_LOOKS, Yielding};
use super::runs::run_text;
use dv_engine::report::Report;
use dv_posts::inbox::Inbox;
use dv_posts::posted::Posted;
use dv_posts::poster::Poster;
use std::alloc::{AllocError, Global};
use std::sync::Wait;
use std::test::Fail;
use std::thread;
use std::thread::Threads;

/// Posts the post of this index.
fn post(poster: &mut Poster, index: u32) -> Result<(), Posted>
    ensures { SamePoster poster.old poster.new }
{
    let caller = poster.caller();
    poster.post(Posted { caller, index })
}

#[test]
fn a_post_is_accepted_again_where_one_was_taken(rt: HostRuntime) -> Result<(), Fail> {
    let (mut inbox, posters) = Inbox::open(rt.alloc(), 1, 1)?;
    for mut poster in posters {
        for index in 0..5u32 {
            assert_eq!(rt; post(&mut poster, index), Ok(()));
            assert!(rt; post(&mut poster, 9).is_err());
            assert_eq!(rt; inbox.take(), Some(Posted { caller: 0, index }));
            assert_eq!(rt; inbox.take(), None);
        }
    }
    Ok(())
}

/// Posts so many, one after the other.
fn post_all(poster: Poster, count: u32) -> Poster {
    let mut poster = poster;
    for index in 0..count {
        let _ = post(&mut poster, index);
    }
    poster
}

/// Takes the posts of caller 0 in order, until it has so many, and answers how many it has.
fn take_all(inbox: &mut Inbox, count: u32) -> u32 {
    let mut index = 0u32;
    for _ in 0..MOST_LOOKS {
        if index == count {
            break;
        }
        match inbox.take() {
            None => thread::yield_now(),
            Some(posted) if posted == (Posted { caller: 0, index }) => {
                index = index.wrapping_add(1);
            }
            Some(_) => break,
        }
    }
    index
}

/// A caller posts so many on a thread of its own, and they are taken meanwhile.
fn taken_while_posting<R: Threads + Wait>(
    rt: &R,
    inbox: &mut Inbox,
    poster: Poster,
    count: u32,
) -> Option<u32> {
    thread::scope(thread::scope_env(), rt, |scope| {
        let handle = scope.spawn(move || post_all(poster, count)).ok()?;
        let taken = take_all(inbox, count);
        let _ = handle.join(rt);
        Some(taken)
    })
}

#[test]
fn what_a_thread_posts_is_taken_in_order_without_its_end(rt: HostRuntime) -> Result<(), Fail> {
    let (mut inbox, posters) = Inbox::open(rt.alloc(), 1, 256)?;
    for poster in posters {
        assert_eq!(rt;
            taken_while_posting(&rt, &mut inbox, poster, 256),
            Some(256)
        );
    }
    assert_eq!(rt; inbox.take(), None);
    Ok(())
}

/// A drain of one post, and a job for whose result the run waits.
const ONE_DRAIN: &str = r#"["drain",1],["thread","j",0,["value",0]],["advance",0],"#;

/// A caller of two posts, of which the second submits a sum, and a thousand drains of one post
/// each, with a job after each.
fn many_drains(alloc: Global) -> Result<String, AllocError> {
    let mut text = String::from_str(
        alloc,
        r#"{"version":1,"limit":200000,"callers":[[{},{"do":[["thread","s",0,["sum",1]]]}]],"events":["#,
    )?;
    for _ in 0..1_000u32 {
        text.push_str(ONE_DRAIN)?;
    }
    text.push_str(r#"["note","end"]]}"#)?;
    Ok(text)
}

/// Whether the second post is in a batch.
fn has_second(batch: &[Posted]) -> bool {
    batch.iter().any(|posted| posted.index == 1)
}

/// In which batch of a run the second post was taken.
fn batch_of_the_second(report: &Report) -> Option<usize> {
    let batches = report.batches.as_slice();
    batches
        .iter()
        .position(|batch| has_second(batch.as_slice()))
}

#[test]
fn a_post_is_taken_while_events_are_performed(rt: HostRuntime) -> Result<(), Fail> {
    // The first drain takes no second post. At the gate the caller's thread is let run until the
    // second one was taken.
    let text = many_drains(rt.alloc())?;
    let (_, report) = run_text(&rt, text.as_str(), 0, &Yielding::new())?;
    let place = batch_of_the_second(&report);
    report.discard();
    match place {
        Some(place) if 0 < place && place < 1_000 => Ok(()),
        Some(_) | None => Err("the second post was taken after the last event".into()),
    }
}
