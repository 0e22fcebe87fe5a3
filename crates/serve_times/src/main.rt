//! Times `serve` on rows in memory: it reads all rows of standard input, answers them in the calling thread, and
//! serves them with 1 to 4 workers. It prints the shortest wall time of fifteen runs of each to standard error, in
//! microseconds.
#![tactic(auto)]

use element_core::Year;
use hub_core::{OpenGate, serve};
use scan_core::{Answer, Runs, read_row};
use std::alloc::Global;
use std::io;
use std::io::{BufRead, BufReader};
use std::time::Instant;

/// How many runs of each.
const ROUNDS: u32 = 15;

/// The row of a line: the widths after the comma.
fn parse_row(alloc: Global, line: &str) -> Option<Runs> {
    let (_, words) = line.split_once(',')?;
    let mut widths = Vec::new(alloc);
    for word in words.split(' ') {
        widths.push(word.parse::<u16>().ok()?).ok()?;
    }
    Runs::of_widths(alloc, widths.as_slice()).ok()
}

/// How many of the rows can be read.
fn count_read(rows: &[Runs], year: Year) -> u64 {
    let mut count = 0u64;
    for row in rows {
        if matches!(read_row(row, year), Answer::Read { .. }) {
            count = count.saturating_add(1);
        }
    }
    count
}

/// A copy of the rows, as the only feed of a hub.
fn feed(alloc: Global, rows: &[Runs]) -> Option<Vec<Vec<Runs>>> {
    let mut feed = Vec::with_capacity(alloc, rows.len()).ok()?;
    for row in rows {
        feed.push(Runs::of_widths(alloc, row.widths()).ok()?).ok()?;
    }
    let mut feeds = Vec::new(alloc);
    feeds.push(feed).ok()?;
    Some(feeds)
}

fn main(rt: HostRuntime) -> io::Result<()> {
    let alloc = rt.alloc();
    let Some(year) = Year::new(2026) else {
        return Ok(());
    };
    let mut rows = Vec::new(alloc);
    for line in BufReader::new(alloc, rt.reader())?.lines(alloc) {
        if let Some(row) = parse_row(alloc, line?.as_str()) {
            let Ok(()) = rows.push(row) else {
                return Ok(());
            };
        }
    }
    let mut alone = u128::MAX;
    let mut read = 0u64;
    for _ in 0..ROUNDS {
        let start = Instant::now(&rt)?;
        read = count_read(rows.as_slice(), year);
        alone = alone.min(start.elapsed(&rt)?.as_micros());
    }
    println!(rt; "{read} of {} rows are read", rows.len())?;
    eprintln!(rt; "calling thread: {alone} us")?;
    for workers in 1..5u8 {
        let mut least = u128::MAX;
        for _ in 0..ROUNDS {
            let Some(feeds) = feed(alloc, rows.as_slice()) else {
                return Ok(());
            };
            let start = Instant::now(&rt)?;
            let Ok(lists) = serve(&rt, alloc, feeds, workers, year, &OpenGate) else {
                return Ok(());
            };
            least = least.min(start.elapsed(&rt)?.as_micros());
            drop(lists);
        }
        eprintln!(rt; "workers {workers}: {least} us")?;
    }
    Ok(())
}
