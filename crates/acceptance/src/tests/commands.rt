//! Each run of a command once, and gates that see its workers beside each other.

use crate::tests::equal::is_equal;
use crate::tests::rows::year_of;
use command_line::{LaneOptions, LiveOptions, PrintOptions, ScanOptions, WholeInput};
use command_runs::{CommandFault, run, run_lanes, run_live, run_scan};
use digits_core::{FromReader, ToWriter};
use hub_core::{Gate, OpenGate};
use lane_core::Ticket;
use std::alloc::{AllocError, Global};
use std::process::Abort;
use std::sync::Wait;
use std::test::Fail;
use std::thread::Threads;
use test_doubles::{Happened, Holding, Meeting, Recorded};

// The rows of 9501101530003 as EAN-13 and of 96385074 as EAN-8, at one dot a module.
const EAN13: &str = "11 1 1 1 1 2 3 1 1 1 2 3 1 2 2 2 2 2 2 1 1 1 2 3 2 2 2 1 1 1 1 1 \
                     1 1 2 3 1 1 4 1 1 3 2 1 1 3 2 1 1 3 2 1 1 1 4 1 1 1 1 1 7";

const EAN8: &str = "7 1 1 1 3 1 1 2 1 1 1 4 1 4 1 1 1 2 1 3 1 1 1 1 1 1 2 3 1 3 2 1 \
                    1 1 3 1 2 1 1 3 2 1 1 1 7";

// An image of two cells of 113 by 3 dots, one above the other, each with the EAN-13.
const TWO_LABELS: &[u8] = b"P4\n113 6\n\
    \0\0\0\0\0\0\0\0\0\0\0\0\0\0\0\x00\x15\x8A\x76\x66\x53\x99\x54\xE8\x5C\xB9\x72\x85\x40\x00\
    \0\0\0\0\0\0\0\0\0\0\0\0\0\0\0\0\0\0\0\0\0\0\0\0\0\0\0\0\0\0\
    \x00\x15\x8A\x76\x66\x53\x99\x54\xE8\x5C\xB9\x72\x85\x40\x00\0\0\0\0\0\0\0\0\0\0\0\0\0\0\0";

// Its row through the bars.
const BARS: &[u8] = b"\x00\x15\x8A\x76\x66\x53\x99\x54\xE8\x5C\xB9\x72\x85\x40\x00";

// Two records of that label.
const TWO_RECORDS: &[u8] = b"ean13,9501101530003\nean13,9501101530003\n";

/// The ticket of a row.
fn ticket(lane: u8, number: u32) -> Ticket {
    Ticket { lane, number }
}

/// That a command writes this of an input, its workers passing the gate.
fn writes<R: Threads + Wait + AllocGlobal + Sync + Abort, G: Gate + Sync>(
    rt: &R,
    asked: WholeInput,
    input: &[u8],
    gate: &G,
    wanted: &[u8],
) -> Result<(), Fail> {
    let alloc = rt.alloc();
    let mut source = FromReader::new(input);
    let mut sink = ToWriter::new(Vec::new(alloc));
    if let Err(fault) = run(rt, alloc, asked, &mut source, &mut sink, gate) {
        return Err(Fail::from(format!(in alloc; "{fault}")?));
    }
    is_equal(rt, sink.into_inner().as_slice(), wanted);
    Ok(())
}

/// That a command writes this of an input, each row of which passes the gate once.
fn writes_past<R: Threads + Wait + AllocGlobal + Sync + Abort>(
    rt: &R,
    asked: WholeInput,
    input: &[u8],
    gate: &Holding,
    wanted: &[u8],
) -> Result<(), Fail> {
    writes(rt, asked, input, gate, wanted)?;
    assert!(*rt; gate.saw_each_once());
    Ok(())
}

/// That a command's one worker reads both rows of this input: while it is held at the first, nobody reads the second.
fn reads_both_alone<R: Threads + Wait + AllocGlobal + Sync + Abort>(
    rt: &R,
    asked: WholeInput,
    input: &[u8],
    wanted: &[u8],
) -> Result<(), Fail> {
    let gate = Holding::new(rt.alloc(), &[2], ticket(0, 0), ticket(0, 1))?;
    let gate = gate.with_limit(100_000);
    writes(rt, asked, input, &gate, wanted)?;
    assert!(*rt; gate.counted_each_once());
    Ok(())
}

/// The options of this many lanes and workers, in 2026.
fn options_of(lanes: u8, workers: u8) -> Result<LaneOptions, Fail> {
    Ok(LaneOptions::new(lanes, workers, 2026).ok_or("options")?)
}

#[test]
fn check_answers_a_text(rt: HostRuntime) -> Result<(), Fail> {
    let year = year_of(2026)?;
    writes(
        &rt,
        WholeInput::Check(year),
        b"digit,950110153000\n",
        &OpenGate,
        b"digit 3\n",
    )
}

#[test]
fn print_writes_images_or_lines(rt: HostRuntime) -> Result<(), Fail> {
    let images = PrintOptions::new(1, 113, 3, 1, 2, 2026, false).ok_or("options")?;
    writes(
        &rt,
        WholeInput::Print(images),
        TWO_RECORDS,
        &OpenGate,
        TWO_LABELS,
    )?;
    let lines = PrintOptions::new(1, 113, 3, 1, 2, 2026, true).ok_or("options")?;
    let wanted = b"0 0 ean13 (01)09501101530003\n0 1 ean13 (01)09501101530003\n";
    writes(
        &rt,
        WholeInput::Print(lines),
        TWO_RECORDS,
        &OpenGate,
        wanted,
    )
}

#[test]
fn two_workers_read_the_rows_of_a_lane(rt: HostRuntime) -> Result<(), Fail> {
    let options = options_of(1, 2)?;
    let input = format!(in rt.alloc(); "0,{EAN13}\n0,{EAN8}\n")?;
    let gate = Holding::new(rt.alloc(), &[2], ticket(0, 0), ticket(0, 1))?;
    let wanted = b"0 0 ]E0 (01)09501101530003\n0 1 ]E4 (01)00000096385074\n";
    writes_past(
        &rt,
        WholeInput::Lanes(options),
        input.as_bytes(),
        &gate,
        wanted,
    )
}

#[test]
fn two_workers_read_the_rows_of_a_column(rt: HostRuntime) -> Result<(), Fail> {
    let options = ScanOptions::new(1, 113, 3, 1, 2, 2, 2026).ok_or("options")?;
    let gate = Holding::new(rt.alloc(), &[2], ticket(0, 0), ticket(0, 1))?;
    let wanted = b"0 0 ]E0 (01)09501101530003\n0 1 ]E0 (01)09501101530003\n";
    writes_past(&rt, WholeInput::Scan(options), TWO_LABELS, &gate, wanted)
}

#[test]
fn one_worker_reads_the_rows_of_a_lane(rt: HostRuntime) -> Result<(), Fail> {
    let options = options_of(1, 1)?;
    let input = format!(in rt.alloc(); "0,{EAN13}\n0,{EAN8}\n")?;
    let wanted = b"0 0 ]E0 (01)09501101530003\n0 1 ]E4 (01)00000096385074\n";
    reads_both_alone(&rt, WholeInput::Lanes(options), input.as_bytes(), wanted)
}

#[test]
fn one_worker_reads_the_rows_of_a_column(rt: HostRuntime) -> Result<(), Fail> {
    let options = ScanOptions::new(1, 113, 3, 1, 2, 1, 2026).ok_or("options")?;
    let wanted = b"0 0 ]E0 (01)09501101530003\n0 1 ]E0 (01)09501101530003\n";
    reads_both_alone(&rt, WholeInput::Scan(options), TWO_LABELS, wanted)
}

#[test]
fn run_lanes_itself_passes_the_gate(rt: HostRuntime) -> Result<(), Fail> {
    let alloc = rt.alloc();
    let options = options_of(1, 2)?;
    let input = format!(in alloc; "0,{EAN13}\n0,{EAN8}\n")?;
    let gate = Holding::new(alloc, &[2], ticket(0, 0), ticket(0, 1))?;
    let mut source = FromReader::new(input.as_bytes());
    let mut sink = ToWriter::new(Vec::new(alloc));
    assert!(rt; run_lanes(&rt, alloc, options, &mut source, &mut sink, &gate).is_ok());
    assert!(rt; gate.saw_each_once());
    let wanted = b"0 0 ]E0 (01)09501101530003\n0 1 ]E4 (01)00000096385074\n";
    is_equal(&rt, sink.into_inner().as_slice(), wanted);
    Ok(())
}

#[test]
fn run_scan_itself_passes_the_gate(rt: HostRuntime) -> Result<(), Fail> {
    let alloc = rt.alloc();
    let options = ScanOptions::new(1, 113, 3, 1, 2, 2, 2026).ok_or("options")?;
    let gate = Holding::new(alloc, &[2], ticket(0, 0), ticket(0, 1))?;
    let mut source = FromReader::new(TWO_LABELS);
    let mut sink = ToWriter::new(Vec::new(alloc));
    assert!(rt; run_scan(&rt, alloc, options, &mut source, &mut sink, &gate).is_ok());
    assert!(rt; gate.saw_each_once());
    let wanted = b"0 0 ]E0 (01)09501101530003\n0 1 ]E0 (01)09501101530003\n";
    is_equal(&rt, sink.into_inner().as_slice(), wanted);
    Ok(())
}

#[test]
fn a_row_of_the_last_lane_is_held_alone(rt: HostRuntime) -> Result<(), Fail> {
    let options = options_of(3, 2)?;
    let input = format!(in rt.alloc(); "2,{EAN8}\n0,{EAN13}\n2,{EAN13}\n0,{EAN8}\n")?;
    let gate = Holding::new(rt.alloc(), &[2, 0, 2], ticket(2, 0), ticket(2, 1))?;
    let wanted = b"0 0 ]E0 (01)09501101530003\n0 1 ]E4 (01)00000096385074\n\
        2 0 ]E4 (01)00000096385074\n2 1 ]E0 (01)09501101530003\n";
    writes_past(
        &rt,
        WholeInput::Lanes(options),
        input.as_bytes(),
        &gate,
        wanted,
    )
}

/// A line for each of sixteen lanes: its number, and these texts.
fn lines(alloc: Global, mark: &str, text: &str) -> Result<String, AllocError> {
    let mut lines = String::new(alloc);
    for lane in 0..16 {
        lines.push_str(format!(in alloc; "{lane}{mark}{text}\n")?.as_str())?;
    }
    Ok(lines)
}

/// That sixteen workers are at work at once on this input, and write a line like this for each of sixteen lanes.
fn meet<R: Threads + Wait + AllocGlobal + Sync + Abort>(
    rt: &R,
    asked: WholeInput,
    input: &[u8],
    answer: &str,
) -> Result<(), Fail> {
    let alloc = rt.alloc();
    let wanted = lines(alloc, " 0 ", answer)?;
    let gate = Meeting::of(alloc, 16)?;
    writes(rt, asked, input, &gate, wanted.as_bytes())?;
    assert!(*rt; gate.has_met());
    Ok(())
}

#[test]
fn sixteen_workers_read_rows_of_lanes_at_once(rt: HostRuntime) -> Result<(), Fail> {
    let options = options_of(16, 16)?;
    let input = lines(rt.alloc(), ",", EAN8)?;
    meet(
        &rt,
        WholeInput::Lanes(options),
        input.as_bytes(),
        "]E4 (01)00000096385074",
    )
}

#[test]
fn sixteen_workers_read_rows_of_columns_at_once(rt: HostRuntime) -> Result<(), Fail> {
    // Cells of 120 dots, which are whole bytes.
    let options = ScanOptions::new(1, 120, 3, 16, 1, 16, 2026).ok_or("options")?;
    let mut input = Vec::new(rt.alloc());
    input.extend_from_slice(b"P4\n1920 3\n")?;
    for y in 0..3 {
        for _ in 0..16 {
            input.extend_from_slice(if y == 1 { BARS } else { &[0; 15] })?;
        }
    }
    meet(
        &rt,
        WholeInput::Scan(options),
        input.as_slice(),
        "]E0 (01)09501101530003",
    )
}

/// This many rows of lane 0 without a dark dot.
fn blank_rows(alloc: Global, count: u32) -> Result<String, AllocError> {
    let mut rows = String::new(alloc);
    for _ in 0..count {
        rows.push_str("0,7\n")?;
    }
    Ok(rows)
}

/// The lines of their refusals.
fn refusals(alloc: Global, count: u32) -> Result<String, AllocError> {
    let mut lines = String::new(alloc);
    for number in 0..count {
        lines.push_str(format!(in alloc; "0 {number} refused 19 Blank\n")?.as_str())?;
    }
    Ok(lines)
}

#[test]
fn each_row_of_a_long_lane_comes_once(rt: HostRuntime) -> Result<(), Fail> {
    let alloc = rt.alloc();
    let lanes = WholeInput::Lanes(options_of(1, 2)?);
    let input = blank_rows(alloc, 5_000)?;
    let wanted = refusals(alloc, 5_000)?;
    let gate = Holding::new(alloc, &[5_000], ticket(0, 0), ticket(0, 4_999))?;
    writes_past(&rt, lanes, input.as_bytes(), &gate, wanted.as_bytes())
}

// What `live` reads and writes of this input, twelve bytes at a time: a read begins with `<`, a write with `>`.
const LIVE_INPUT: &[u8] = b"0,100\n0,1 2\n0,100\n0,100";

const LIVE_CALLS: &[&str] = &[
    "<0,100\n0,1 2\n",
    ">0 0 refused ",
    ">19 Blank\n0 -",
    "> refused 18 ",
    ">BadRuns\n",
    "<0,100\n0,100",
    ">0 1 refused ",
    ">19 Blank\n",
    "<",
    ">0 2 refused ",
    ">19 Blank\n",
];

/// What a wire did.
fn told(alloc: Global, wire: &Recorded<'_>) -> Result<String, Fail> {
    let mut text = String::new(alloc);
    for call in wire.happened() {
        let (mark, bytes) = match call {
            Happened::Read(bytes) => ("<", bytes),
            Happened::Wrote(bytes) => (">", bytes),
        };
        text.push_str(mark)?;
        text.push_str(str::from_utf8(bytes.as_slice()).map_err(|_| "text")?)?;
    }
    Ok(text)
}

/// The first calls, one after another.
fn first_calls(alloc: Global, calls: usize) -> Result<String, Fail> {
    let mut text = String::new(alloc);
    for call in LIVE_CALLS.iter().take(calls) {
        text.push_str(call)?;
    }
    Ok(text)
}

/// That a wire did the first calls.
fn has_made<R: AllocGlobal + Abort>(rt: &R, wire: &Recorded<'_>, calls: usize) -> Result<(), Fail> {
    let found = told(rt.alloc(), wire)?;
    let wanted = first_calls(rt.alloc(), calls)?;
    is_equal(rt, found.as_str(), wanted.as_str());
    Ok(())
}

/// That a command ended with this line of its fault, or with none.
fn has_ended<R: AllocGlobal + Abort>(
    rt: &R,
    ended: Result<(), CommandFault>,
    ending: &str,
) -> Result<(), Fail> {
    let found = match ended {
        Ok(()) => String::new(rt.alloc()),
        Err(fault) => fault.to_string(rt.alloc())?,
    };
    is_equal(rt, found.as_str(), ending);
    Ok(())
}

/// That `live` makes the first `calls` of its calls on a wire that fails at the next, and how it ends.
fn lives<R: Threads + Wait + AllocGlobal + Sync + Abort>(
    rt: &R,
    calls: usize,
    ending: &str,
) -> Result<(), Fail> {
    let alloc = rt.alloc();
    let rows = options_of(1, 2)?;
    let wire = Recorded::new(alloc, LIVE_INPUT, 12, calls);
    let options = LiveOptions::new(rows, false);
    let (wire, ended) = run_live(rt, alloc, options, wire, &OpenGate);
    has_made(rt, &wire, calls)?;
    has_ended(rt, ended, ending)
}

#[test]
fn live_reads_and_writes_in_turn(rt: HostRuntime) -> Result<(), Fail> {
    for (calls, next) in LIVE_CALLS.iter().enumerate() {
        let ending = if next.starts_with('<') {
            "refused 37 ReadFault"
        } else {
            "refused 38 WriteFault"
        };
        lives(&rt, calls, ending)?;
    }
    lives(&rt, LIVE_CALLS.len(), "")
}
