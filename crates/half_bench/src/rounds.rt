//! Rounds: the three maps in turn, with the same work, by the processor time of the thread.
use crate::keys::Key;
use crate::maps::Map;
use crate::operations::given::Made;
use crate::operations::{count_ours, measure};
use std::alloc::Global;
use std::io;
use std::time::CpuClock;

const MAPS: [&str; 3] = ["halfbrown", "std", "indexmap"];

/// A run is of at least about this many keys or pairs: too many for the processor to learn the order of the answers.
pub(crate) const LEAST_KEYS: u64 = 16_384;

// At least about this many keys or pairs in all runs together.
const LEAST_IN_ALL: u64 = 200_000;

/// Prints what each map took in each round. Each round begins with the next map.
pub(crate) fn print<K: Key>(
    rt: &(impl Print + CpuClock + AllocGlobal),
    operation: &str,
    size: u64,
    rounds: u64,
) -> io::Result<()> {
    for round in 0..rounds {
        for turn in 0..3 {
            let map = MAPS[(round.wrapping_add(turn) % 3) as usize];
            print_map::<K>(rt, map, operation, size)?;
        }
    }
    Ok(())
}

fn print_map<K: Key>(
    rt: &(impl Print + CpuClock + AllocGlobal),
    map: &str,
    operation: &str,
    size: u64,
) -> io::Result<()> {
    let mut timer = Timer::new(rt, rt.alloc(), size);
    let runs = LEAST_IN_ALL.checked_div(size.max(LEAST_KEYS)).unwrap_or(1);
    for _ in 0..runs.max(1) {
        measure::<K>(&mut timer, map, operation)?;
    }
    println!(rt; "{map} {} {}", timer.picoseconds(), timer.answers)
}

/// Does a call of our map once for each key or pair, and prints how many of these there are.
pub(crate) fn count<K: Key>(
    rt: &(impl Print + CpuClock + AllocGlobal),
    group: &str,
    call: &str,
    size: u64,
) -> io::Result<()> {
    let mut timer = Timer::new(rt, rt.alloc(), size);
    timer.passes = 1;
    count_ours::<K>(&mut timer, group, call)?;
    println!(rt; "{} {}", timer.operations, timer.answers)
}

/// Times operations on maps of one size.
#[derive(Drop)]
pub(crate) struct Timer<'a, C> {
    rt: &'a C,
    pub alloc: Global,
    pub size: u64,
    // How often a run does work that leaves its maps and keys as they were.
    passes: u64,
    nanoseconds: u64,
    operations: u64,
    // A number that depends on all answers.
    answers: u64,
}

impl<'a, C: CpuClock> Timer<'a, C> {
    fn new(rt: &'a C, alloc: Global, size: u64) -> Timer<'a, C> {
        Timer {
            rt,
            alloc,
            size,
            passes: if size < LEAST_IN_ALL { 10 } else { 2 },
            nanoseconds: 0,
            operations: 0,
            answers: 0,
        }
    }

    /// Times work with each map and its list, which can be done again or only once.
    pub fn time<K: Key, M: Map<K>, T: Drop, W: Fn(&mut (M, Vec<T>)) -> io::Result<u64>>(
        &mut self,
        again: bool,
        given: Made<K, M, T>,
        work: W,
    ) -> io::Result<()>
        requires { W.IsAlwaysCallable work }
    {
        let mut given = given?;
        let passes = if again { self.passes } else { 1 };
        let start = self.rt.thread_cpu_time()?;
        for _ in 0..passes {
            self.answers = given.pass(self.answers, &work)?;
        }
        let spent = self.rt.thread_cpu_time()?.saturating_sub(start);
        let nanoseconds = u64::try_from(spent.as_nanos()).unwrap_or(u64::MAX);
        self.nanoseconds = self.nanoseconds.saturating_add(nanoseconds);
        let operations = given.operations.saturating_mul(passes);
        self.operations = self.operations.saturating_add(operations);
        // The values that all maps have now.
        self.answers = given.pass(self.answers, &|given: &mut (M, Vec<T>)| Ok(given.0.sum()))?;
        Ok(())
    }

    // What an operation took.
    fn picoseconds(&self) -> u64 {
        let all = self.nanoseconds.saturating_mul(1000);
        all.checked_div(self.operations).unwrap_or(0)
    }
}
