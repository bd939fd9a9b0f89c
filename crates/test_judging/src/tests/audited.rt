//! Verdicts on texts of a run in which a line was left out, doubled, exchanged with the next or changed, compared with what the judge says
//! of the events.

ghost use Rattle.um_base.specs.Lawful.{IsLawful};

use super::changed::changed;
use super::{FIELDS, STOPPED, TIMED, next};
use std::alloc::Global;
use std::process::Abort;
use std::slice::from_ref;
use std::test::Fail;
use um_audit::{Verdict, audit};
use um_base::{Event, Image, ThreadIx};
use um_image::read_image;
use um_matrix::Matrix;
use um_samples::{DOMAINS, FUTEX_WAKE, OBJECTS, RACE};
use um_trace::{DUMP_ROOM, LINE_ROOM, dump_text, line_text};

/// The dump of a state.
fn dump_of(alloc: Global, image: &Image, last: &Matrix<'_>) -> Result<Vec<u8>, Fail> {
    let mut dump = Vec::with_capacity(alloc, DUMP_ROOM)?;
    dump_text(image, last.tables(), &mut dump);
    Ok(dump)
}

/// The line of an event.
fn line_of(alloc: Global, image: &Image, event: &Event) -> Result<Vec<u8>, Fail> {
    let mut line = Vec::with_capacity(alloc, LINE_ROOM)?;
    line_text(image, event, &mut line);
    Ok(line)
}

/// The lines of some events, and a dump.
fn text_of(alloc: Global, image: &Image, events: &[Event], dump: &[u8]) -> Result<Vec<u8>, Fail> {
    let mut text = Vec::new(alloc);
    for event in events {
        let line = line_of(alloc, image, event)?;
        text.extend_from_slice(line.as_slice())?;
    }
    text.extend_from_slice(dump)?;
    Ok(text)
}

/// The number of the line that follows this many lines. It stops at the greatest number.
fn line_behind(lines: usize) -> u32 {
    if lines < 4_294_967_295 {
        (lines + 1) as u32
    } else {
        4_294_967_295
    }
}

/// How many lines two texts have in common.
fn common_lines(one: &[u8], other: &[u8]) -> usize {
    let mut lines = 0usize;
    for (k, byte) in one.iter().enumerate() {
        if other.get(k) != Some(byte) {
            return lines;
        }
        if *byte == b'\n' {
            lines = lines.saturating_add(1);
        }
    }
    lines
}

/// The verdict on the text of some events and a dump that follows from what the judge says of the events.
fn expected(alloc: Global, image: &Image, events: &[Event], dump: &[u8]) -> Result<Verdict, Fail>
    requires { IsLawful image.now }
{
    let mut judge = Matrix::boot(alloc, image)?;
    if let Err(k) = judge.judge(events) {
        return Ok(Verdict::NoStep {
            line: line_behind(k),
        });
    }
    if !judge.is_final() {
        return Ok(Verdict::NotComplete);
    }
    let own = dump_of(alloc, image, &judge)?;
    if own.as_slice() == dump {
        return Ok(Verdict::Yes);
    }
    let lines = common_lines(own.as_slice(), dump).saturating_add(events.len());
    Ok(Verdict::NoDump {
        line: line_behind(lines),
    })
}

/// The events of a run, and the dump after them.
#[derive(Clone, Copy)]
struct Run<'a> {
    image: &'a Image,
    events: &'a [Event],
    dump: &'a [u8],
}

/// The audit of some events and a dump agrees with the judge.
fn agrees(rt: &impl Abort, alloc: Global, run: &Run<'_>) -> Result<(), Fail>
    requires { IsLawful run.now.image.now }
{
    let text = text_of(alloc, run.image, run.events, run.dump)?;
    if text.len() >= 4_294_967_295 {
        return Err(Fail::new("too long"));
    }
    let verdict = audit(alloc, run.image, text.as_slice())?;
    let wanted = expected(alloc, run.image, run.events, run.dump)?;
    assert_eq!(rt; verdict, wanted);
    Ok(())
}

/// A list of events in which this many, from this place on, are replaced by another one or by none.
fn replaced(
    alloc: Global,
    events: &[Event],
    at: usize,
    out: usize,
    others: &[Event],
) -> Result<Vec<Event>, Fail> {
    let mut list = Vec::new(alloc);
    for (k, event) in events.iter().enumerate() {
        if k == at {
            list.extend_from_slice(others)?;
        }
        if k < at || at.saturating_add(out) <= k {
            list.push(*event)?;
        }
    }
    Ok(list)
}

/// The audit agrees with the judge if this many events, from this place on, are replaced by others.
fn agrees_with(
    rt: &impl Abort,
    alloc: Global,
    run: &Run<'_>,
    at: usize,
    out: usize,
    others: &[Event],
) -> Result<(), Fail>
    requires { IsLawful run.now.image.now }
{
    let list = replaced(alloc, run.events, at, out, others)?;
    let other = Run {
        image: run.image,
        events: list.as_slice(),
        dump: run.dump,
    };
    agrees(rt, alloc, &other)
}

/// The audit agrees with the judge on a run with the field of this number wrong in one event, unless the event has no such field or still
/// has the same line.
fn change_agrees(
    rt: &impl Abort,
    alloc: Global,
    run: &Run<'_>,
    at: usize,
    event: &Event,
    field: usize,
) -> Result<(), Fail>
    requires { IsLawful run.now.image.now }
{
    let act = match changed(&event.act, field) {
        Some(act) => act,
        None => return Ok(()),
    };
    let wrong = Event {
        thread: event.thread,
        act,
    };
    let line = line_of(alloc, run.image, event)?;
    let other = line_of(alloc, run.image, &wrong)?;
    if line.as_slice() == other.as_slice() {
        return Ok(());
    }
    agrees_with(rt, alloc, run, at, 1, &[wrong])
}

/// The audit agrees with the judge on a run in which one event is left out, stands twice, is another thread's, or is exchanged with the
/// next.
fn moves_agree(
    rt: &impl Abort,
    alloc: Global,
    run: &Run<'_>,
    at: usize,
    event: &Event,
) -> Result<(), Fail>
    requires { IsLawful run.now.image.now }
{
    agrees_with(rt, alloc, run, at, 1, &[])?;
    agrees_with(rt, alloc, run, at, 0, &[*event])?;
    let stranger = Event {
        thread: ThreadIx(event.thread.0 ^ 1),
        act: event.act,
    };
    agrees_with(rt, alloc, run, at, 1, &[stranger])?;
    match run.events.get(at.saturating_add(1)) {
        Some(other) => agrees_with(rt, alloc, run, at, 2, &[*other, *event]),
        None => Ok(()),
    }
}

/// The audit agrees with the judge wherever one line of a run is changed.
fn table_agrees(rt: &impl Abort, alloc: Global, run: &Run<'_>) -> Result<(), Fail>
    requires { IsLawful run.now.image.now }
{
    agrees(rt, alloc, run)?;
    for (at, event) in run.events.iter().enumerate() {
        moves_agree(rt, alloc, run, at, event)?;
        for field in 0..FIELDS {
            change_agrees(rt, alloc, run, at, event, field)?;
        }
    }
    Ok(())
}

/// The events of the run of three threads that take turns by one event.
fn run_of(alloc: Global, ahead: &mut Matrix<'_>) -> Result<Vec<Event>, Fail> {
    let mut events = Vec::new(alloc);
    for turn in 0..200 {
        if let Some(event) = next(ahead, turn) {
            events.extend_from_slice(from_ref(&event))?;
        }
    }
    Ok(events)
}

/// The audit agrees with the judge on the run of a description, which is complete, and wherever one line of it is changed.
fn run_agrees(rt: &impl Abort, alloc: Global, text: &str) -> Result<(), Fail> {
    let image = match read_image(alloc, text.as_bytes()) {
        Ok(image) => image,
        Err(_) => return Err(Fail::new("refused")),
    };
    let mut ahead = Matrix::boot(alloc, &image)?;
    let events = run_of(alloc, &mut ahead)?;
    let dump = dump_of(alloc, &image, &ahead)?;
    let whole = expected(alloc, &image, events.as_slice(), dump.as_slice())?;
    assert_eq!(rt; whole, Verdict::Yes);
    let run = Run {
        image: &image,
        events: events.as_slice(),
        dump: dump.as_slice(),
    };
    table_agrees(rt, alloc, &run)
}

#[test]
fn audits_agree_with_the_judge(rt: HostRuntime) -> Result<(), Fail> {
    for text in [DOMAINS, OBJECTS, RACE] {
        run_agrees(&rt, rt.alloc(), text)?;
    }
    Ok(())
}

#[test]
fn audits_of_waits_that_end_agree_with_the_judge(rt: HostRuntime) -> Result<(), Fail> {
    for text in [TIMED, STOPPED, FUTEX_WAKE] {
        run_agrees(&rt, rt.alloc(), text)?;
    }
    Ok(())
}
