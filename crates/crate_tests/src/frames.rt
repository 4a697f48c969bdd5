//! Frames of a pool: each has words of its own, and no more are out than were made.
ghost use Rattle.std.specs.Prelude.{◌≡◌, ◌<◌, length, IfSome, OnSome};

use frame_pool::{Frame, Pool};
use std::test::Fail;

/// Writes a word over each word of a frame.
fn fill(frame: &mut Frame, word: u64)
    ensures { length frame.new ≡ length frame.old }
{
    for place in 0..frame.words().len() {
        frame.set_word(place, word);
    }
}

/// Takes a frame, and fills it with a word.
fn take_full(pool: &mut Pool, word: u64) -> Option<Frame>
    ensures room { OnSome result (length pool.new.inside < pool.new.made) }
    ensures long { IfSome result (λ frame. length frame ≡ pool.new.words) }
    ensures words { pool.new.words ≡ pool.old.words }
{
    match pool.take() {
        None => None,
        Some(mut frame) => {
            fill(&mut frame, word);
            Some(frame)
        }
    }
}

#[test]
fn each_frame_has_words_of_its_own(rt: HostRuntime) -> Result<(), Fail> {
    let mut pool = Pool::new(rt.alloc(), 3, 4)?;
    let Some(first) = take_full(&mut pool, 1) else {
        return Err("a frame".into());
    };
    let Some(second) = take_full(&mut pool, 2) else {
        return Err("another frame".into());
    };
    assert!(rt; first.words() == [1; 4].as_slice());
    assert!(rt; second.words() == [2; 4].as_slice());
    pool.give(first);
    let third = take_full(&mut pool, 3);
    assert!(rt; third.is_some() && second.words() == [2; 4].as_slice());
    Ok(())
}

#[test]
fn a_frame_that_is_given_back_can_be_taken(rt: HostRuntime) -> Result<(), Fail> {
    let mut pool = Pool::new(rt.alloc(), 2, 1)?;
    let Some(first) = take_full(&mut pool, 1) else {
        return Err("a frame".into());
    };
    let Some(_second) = take_full(&mut pool, 2) else {
        return Err("another frame".into());
    };
    match pool.take() {
        Some(_) => return Err("no third frame".into()),
        None => pool.give(first),
    }
    assert!(rt; pool.take().is_some());
    Ok(())
}
