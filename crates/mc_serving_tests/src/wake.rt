//! Threads wake each other, whether they sleep in a parker or in a poll, and none sleeps on.
use crate::asserting::{equal, holds};
use mc_poll::{Poller, Readiness, SetBits, SpinPolicy, Wakers};
use mio::net::TcpStream;
use std::alloc::{AllocError, Global};
use std::io::Write;
use std::net::{Net, TcpListener};
use std::sync::atomic::{AtomicU64, Ordering};
use std::sync::{Arc, Wait};
use std::test::Fail;
use std::thread::Threads;
use std::{io, net, thread};

/// How often each of the threads waits for the other one.
const ROUNDS: u64 = 20_000;

/// How often a thread wakes a slot before it waits until that was seen.
const BATCH: u64 = 8;

/// Threads sleep without spinning.
const AT_ONCE: SpinPolicy = SpinPolicy {
    looks: 0,
    yields: 0,
};

/// Increments the count when it is this thread's turn: even counts are the first thread's, odd ones
/// the second's.
fn take_turns<R: Wait>(
    rt: &R,
    poller: Poller,
    wakers: &Wakers,
    count: &AtomicU64,
    mine: u64,
    other: usize,
) {
    let mut poller = poller;
    for _ in rt.forever() {
        let now = count.load(Ordering::SeqCst);
        if now >= 2 * ROUNDS {
            return;
        }
        if now % 2 == mine {
            poller.found();
            count.store(now + 1, Ordering::SeqCst);
            wakers.rouse(other);
        } else {
            poller.wait(rt);
        }
    }
}

/// Has two threads of one slot each take turns, and returns how many turns they took.
fn turns_of_two<R: Threads + Wait + Copy + Send + 'static>(
    rt: &R,
    alloc: Global,
    first: Poller,
    second: Poller,
) -> Result<u64, AllocError> {
    let both = vec![in alloc; first, second]?;
    let wakers = Wakers::of(alloc, both.as_slice())?;
    let theirs = wakers.share()?;
    let count = Arc::new(alloc, AtomicU64::new(0))?;
    let shared = Arc::try_clone(&count)?;
    let own = *rt;
    let mut both = both.into_iter();
    let (Some(first), Some(second)) = (both.next(), both.next()) else {
        return Ok(0);
    };
    let thread = thread::spawn(rt, move || {
        take_turns(&own, second, &theirs, &shared, 1, 0)
    })?;
    take_turns(rt, first, &wakers, &count, 0, 1);
    thread.join(rt);
    Ok(count.load(Ordering::SeqCst))
}

#[test]
fn both_end_where_they_sleep_at_once(rt: HostRuntime) -> Result<(), Fail> {
    let alloc = rt.alloc();
    let first = Poller::new(alloc, AT_ONCE, 2, 1, 0)?;
    let second = Poller::new(alloc, AT_ONCE, 2, 1, 0)?;
    equal(&rt, turns_of_two(&rt, alloc, first, second)?, 2 * ROUNDS);
    Ok(())
}

#[test]
fn both_end_where_they_look_again_first(rt: HostRuntime) -> Result<(), Fail> {
    let alloc = rt.alloc();
    let spin_policy = SpinPolicy::among(&rt, 2);
    let first = Poller::new(alloc, spin_policy, 2, 1, 0)?;
    let second = Poller::new(alloc, spin_policy, 2, 1, 0)?;
    equal(&rt, turns_of_two(&rt, alloc, first, second)?, 2 * ROUNDS);
    Ok(())
}

#[test]
fn both_end_where_they_sleep_in_polls(rt: HostRuntime) -> Result<(), Fail> {
    let alloc = rt.alloc();
    let first = Poller::polling(&rt, alloc, AT_ONCE, 2, 1, 0)?;
    let second = Poller::polling(&rt, alloc, AT_ONCE, 2, 1, 0)?;
    equal(&rt, turns_of_two(&rt, alloc, first, second)?, 2 * ROUNDS);
    Ok(())
}

/// The numbers that two threads publish, and what a third has seen of them.
#[derive(Drop)]
struct Said {
    said: AtomicU64,
    seen: AtomicU64,
}

/// Publishes one number after another, and sometimes waits until the last one was seen.
fn say_all<R: Wait>(rt: &R, wakers: &Wakers, seat: usize, word: &Said) {
    for number in 1..=ROUNDS {
        word.said.store(number, Ordering::SeqCst);
        wakers.rouse(seat);
        if number % BATCH == 0 {
            for _ in rt.forever() {
                if word.seen.load(Ordering::SeqCst) == number {
                    break;
                }
                thread::yield_now();
            }
        }
    }
}

/// Reads the numbers of the slots that were woken, until all were seen. Returns how often a slot
/// was woken.
fn see_all<R: Wait>(rt: &R, poller: Poller, words: &[Said]) -> u64 {
    let mut poller = poller;
    let mut roused = 0;
    for _ in rt.forever() {
        let before = roused;
        for place in SetBits::of(0, poller.roused_in(0)) {
            if let Some(word) = words.get(place) {
                let said = word.said.load(Ordering::SeqCst);
                word.seen.store(said, Ordering::SeqCst);
                roused = u64::saturating_add(roused, 1);
            }
        }
        if words
            .iter()
            .all(|word| word.seen.load(Ordering::SeqCst) == ROUNDS)
        {
            return roused;
        }
        if roused == before {
            poller.wait(rt);
        } else {
            poller.found();
        }
    }
    unreachable!()
}

/// Two threads wake slots of a third one, which sleeps. Returns how often it found a slot that was
/// woken.
fn two_rouse_a_third<R: Threads + Wait + Copy + Send + 'static>(
    rt: &R,
    alloc: Global,
    poller: Poller,
) -> Result<u64, AllocError> {
    let mut words = Vec::new(alloc);
    for _ in 0..2 {
        words.push(Said {
            said: AtomicU64::new(0),
            seen: AtomicU64::new(0),
        })?;
    }
    let words = Arc::new(alloc, words)?;
    let one = vec![in alloc; poller]?;
    let wakers = Wakers::of(alloc, one.as_slice())?;
    let mut threads = Vec::new(alloc);
    for seat in 0..2 {
        let own = *rt;
        let theirs = wakers.share()?;
        let shared = Arc::try_clone(&words)?;
        let thread = thread::spawn(rt, move || {
            if let Some(word) = shared.get(seat) {
                say_all(&own, &theirs, seat, word);
            }
        })?;
        threads.push(thread)?;
    }
    let Some(poller) = one.into_iter().next() else {
        return Ok(0);
    };
    let roused = see_all(rt, poller, words.as_slice());
    for thread in threads {
        thread.join(rt);
    }
    Ok(roused)
}

#[test]
fn none_of_many_wakes_is_lost(rt: HostRuntime) -> Result<(), Fail> {
    let alloc = rt.alloc();
    let parked = Poller::new(alloc, AT_ONCE, 2, 2, 0)?;
    let roused = two_rouse_a_third(&rt, alloc, parked)?;
    holds(&rt, roused >= 2 * ROUNDS / BATCH);
    let polling = Poller::polling(&rt, alloc, AT_ONCE, 2, 2, 0)?;
    let roused = two_rouse_a_third(&rt, alloc, polling)?;
    holds(&rt, roused >= 2 * ROUNDS / BATCH);
    Ok(())
}

/// The second of two threads has the second shard, and the first one the slot.
#[test]
fn a_call_is_flow_once(rt: HostRuntime) -> Result<(), Fail> {
    let alloc = rt.alloc();
    let first = Poller::new(alloc, AT_ONCE, 70, 70, 1)?;
    let second = Poller::new(alloc, AT_ONCE, 70, 0, 1)?;
    let both = vec![in alloc; first, second]?;
    let wakers = Wakers::of(alloc, both.as_slice())?;
    let Some(second) = both.get(1) else {
        return Ok(());
    };
    equal(&rt, second.callers_in(0), 0);
    wakers.call(1, 3);
    wakers.call(1, 69);
    wakers.call(1, 69);
    equal(&rt, second.callers_in(0), 8);
    equal(&rt, second.callers_in(0), 0);
    equal(&rt, second.callers_in(1), 32);
    equal(&rt, second.callers_in(1), 0);
    Ok(())
}

/// Each slot that called is in one of the words, whatever its number, until the words are taken.
#[test]
fn the_words_of_callers_are_given_once(rt: HostRuntime) -> Result<(), Fail> {
    let alloc = rt.alloc();
    let all = vec![in alloc; Poller::new(alloc, AT_ONCE, 9_000, 0, 1)?]?;
    let wakers = Wakers::of(alloc, all.as_slice())?;
    let Some(poller) = all.get(0) else {
        return Ok(());
    };
    wakers.call(0, 130);
    wakers.call(0, 70);
    holds(&rt, poller.called_words() == (1, 3));
    let (first, end) = poller.called_words();
    holds(&rt, first >= end);
    wakers.call(0, 8_999);
    holds(&rt, poller.called_words() == (0, 141));
    poller.call_again(5, 6);
    holds(&rt, poller.called_words() == (5, 6));
    equal(&rt, poller.callers_in(5), 6);
    Ok(())
}

/// At first each slot is marked.
#[test]
fn a_place_is_roused_once(rt: HostRuntime) -> Result<(), Fail> {
    let alloc = rt.alloc();
    let first = Poller::new(alloc, AT_ONCE, 5, 3, 0)?;
    let second = Poller::new(alloc, AT_ONCE, 5, 2, 1)?;
    let both = vec![in alloc; first, second]?;
    let wakers = Wakers::of(alloc, both.as_slice())?;
    let Some(second) = both.get(1) else {
        return Ok(());
    };
    equal(&rt, second.roused_in(0), 3);
    equal(&rt, second.roused_in(0), 0);
    wakers.rouse(4);
    wakers.rouse(4);
    equal(&rt, second.roused_in(0), 2);
    equal(&rt, second.roused_in(0), 0);
    Ok(())
}

/// A slot for which the poller wasn't made is always marked, so too small a number of callers
/// hangs no slot.
#[test]
fn a_caller_too_many_is_heard(rt: HostRuntime) -> Result<(), Fail> {
    let poller = Poller::new(rt.alloc(), AT_ONCE, 64, 2, 1)?;
    equal(&rt, poller.callers_in(1), u64::MAX);
    equal(&rt, poller.callers_in(1), u64::MAX);
    equal(&rt, poller.callers_in(0), 0);
    equal(&rt, poller.roused_in(1), u64::MAX);
    Ok(())
}

#[test]
fn the_marked_numbers_are_given(rt: HostRuntime) -> Result<(), Fail> {
    let numbers: Vec<usize> = SetBits::of(2, 0x8000_0000_0000_0101).collect(rt.alloc())?;
    equal(&rt, numbers.as_slice(), [128, 136, 191].as_slice());
    equal(&rt, SetBits::of(0, 0).count(), 0);
    equal(&rt, SetBits::of(0, u64::MAX).count(), 64);
    Ok(())
}

/// A non-blocking connection, and its peer.
fn pair<R: Net<Listener = TcpListener, Stream = net::TcpStream>>(
    rt: &R,
) -> io::Result<(TcpStream, net::TcpStream)> {
    let listener = TcpListener::bind(rt, "127.0.0.1:0")?;
    let near = net::TcpStream::connect(rt, listener.local_addr()?)?;
    let (far, _) = listener.accept()?;
    near.set_nonblocking(true)?;
    Ok((TcpStream::from_std(near), far))
}

#[test]
fn a_socket_rouses_its_seat(rt: HostRuntime) -> Result<(), Fail> {
    let alloc = rt.alloc();
    let (mut near, far) = pair(&rt)?;
    let mut one = vec![in alloc; Poller::polling(&rt, alloc, AT_ONCE, 1, 2, 0)?]?;
    let wakers = Wakers::of(alloc, one.as_slice())?;
    wakers.register(1, &mut near)?;
    let Some(poller) = one.get_mut(0) else {
        return Ok(());
    };
    equal(&rt, poller.roused_in(0), 3);
    // The socket is writable.
    poller.wait(&rt);
    poller.wait(&rt);
    equal(&rt, poller.roused_in(0), 2);
    equal(&rt, poller.ready(1), Some(Readiness::Ready));
    equal(&rt, poller.ready(1), None);
    (&far).write_all(b"a")?;
    poller.wait(&rt);
    poller.wait(&rt);
    equal(&rt, poller.roused_in(0), 2);
    equal(&rt, poller.ready(1), Some(Readiness::Ready));
    far.shutdown(net::Shutdown::Write)?;
    poller.wait(&rt);
    poller.wait(&rt);
    equal(&rt, poller.roused_in(0), 2);
    equal(&rt, poller.ready(1), Some(Readiness::Closing));
    Ok(())
}

#[test]
fn a_seat_is_reminded(rt: HostRuntime) -> Result<(), Fail> {
    let alloc = rt.alloc();
    let mut one = vec![in alloc; Poller::polling(&rt, alloc, AT_ONCE, 1, 2, 0)?]?;
    let wakers = Wakers::of(alloc, one.as_slice())?;
    let Some(poller) = one.get_mut(0) else {
        return Ok(());
    };
    equal(&rt, poller.roused_in(0), 3);
    wakers.remind(1);
    poller.wait(&rt);
    equal(&rt, poller.roused_in(0), 0);
    poller.wait(&rt);
    equal(&rt, poller.roused_in(0), 2);
    Ok(())
}
