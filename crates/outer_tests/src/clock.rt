use pool_outer::{Clock, LAST_READING, MemClock, SystemClock};
use std::io;
use std::sync::atomic::{AtomicU64, Ordering};
use std::time::Duration;

fn reading<C: Clock>(clock: &C) -> u64 {
    clock.read()
}

// No list counts as a list of 0, so by a step of 2 a reading tells its number.
#[test]
fn each_reading_of_a_clock_in_memory_is_the_next_one(rt: HostRuntime) {
    let clock = MemClock::new(Vec::new(rt.alloc()), 2);
    for want in [0, 2, 4, 6] {
        assert_eq!(rt; reading(&clock), want);
    }
}

#[test]
fn the_clock_of_the_system_gives_todays_readings(rt: HostRuntime) {
    let first_of_2020 = 1_577_836_800;
    let clock = SystemClock::new(&rt);
    let now = reading(&clock);
    assert!(rt; first_of_2020 < now && now < LAST_READING, "{now}");
}

// A clock that gives these answers in turn, of which none is no answer at all.
#[derive(Drop)]
struct Answers {
    seconds: [Option<u64>; 5],
    given: AtomicU64,
}

impl std::rt::Clock for Answers {
    fn monotonic(&self) -> io::Result<Duration> {
        self.since_1970()
    }

    fn since_1970(&self) -> io::Result<Duration> {
        let place = self.given.fetch_add(1, Ordering::SeqCst);
        match self.seconds.get(place as usize) {
            Some(Some(seconds)) => Ok(Duration::from_secs(*seconds)),
            _ => Err(io::Error::from(io::ErrorKind::Other)),
        }
    }
}

#[test]
fn a_clock_that_cannot_be_read_gives_its_last_good_reading(rt: HostRuntime) {
    let clock = SystemClock::new(Answers {
        seconds: [None, Some(9), None, Some(LAST_READING + 1), Some(4)],
        given: AtomicU64::new(0),
    });
    for want in [0, 9, 9, 9, 4, 4] {
        assert_eq!(rt; reading(&clock), want);
    }
}
