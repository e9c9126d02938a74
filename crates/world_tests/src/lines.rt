//! Steps that stand in lines of text.

use crate::courses::COURSES;
use anyhow::{Result, bail};
use cy_event::{Act, Bytes as StepBytes, Event, Step};
use std::alloc::Global;

/// The bytes of a text, in which a tilde stands for the end of a line.
pub fn bytes_of(alloc: Global, text: &str) -> Result<Vec<u8>> {
    let mut bytes = Vec::with_capacity(alloc, text.len().saturating_mul(2))?;
    for byte in text.as_bytes() {
        if *byte == b'~' {
            bytes.extend_from_slice(b"\r\n")?;
        } else {
            bytes.push(*byte)?;
        }
    }
    Ok(bytes)
}

fn told_by(alloc: Global, conn: u64, event: Event, text: &str) -> Result<Step> {
    Ok(Step::On {
        conn,
        event,
        bytes: StepBytes::of(bytes_of(alloc, text)?),
    })
}

fn act_of(alloc: Global, conn: u64, act: Act, text: &str) -> Result<Step> {
    Ok(Step::Act {
        conn,
        act,
        bytes: StepBytes::of(bytes_of(alloc, text)?),
    })
}

/// So many bytes are written.
fn filling(alloc: Global, conn: u64, count: u32) -> Result<Step> {
    Ok(Step::Act {
        conn,
        act: Act::Write(count),
        bytes: StepBytes::of(vec![in alloc; b'x'; count as usize]?),
    })
}

/// The step of a connection that a line says: a word, and its text behind a space.
pub fn step_of(alloc: Global, conn: u64, line: &str) -> Result<Step> {
    let (word, text) = line.split_once(' ').unwrap_or((line, ""));
    match word {
        "admit" => Ok(Step::Admit(conn)),
        "in" => told_by(alloc, conn, Event::In, text),
        "end" => told_by(alloc, conn, Event::End, ""),
        "took" => told_by(alloc, conn, Event::Took(text.parse::<u64>()?), ""),
        "run" => Ok(Step::Run(conn)),
        "read" => act_of(alloc, conn, Act::Read(text.parse::<u32>()?), ""),
        "fill" => filling(alloc, conn, text.parse::<u32>()?),
        "write" => act_of(alloc, conn, Act::Write(u32::try_from(text.len())?), text),
        "return" => act_of(alloc, conn, Act::Return, ""),
        _ => bail!("no word of a step"),
    }
}

/// Whether a line asks what is told, and is no step.
fn is_question(line: &str) -> bool {
    line == "told" || line == "seen" || line == "out"
}

/// The steps of all courses, one behind the other: of the first by the connection 0, and so on.
pub fn steps_of_all(alloc: Global) -> Result<Vec<Step>> {
    let mut steps = Vec::new(alloc);
    for (conn, course) in COURSES.iter().enumerate() {
        for line in course.lines() {
            if !is_question(line) {
                steps.push(step_of(alloc, conn as u64, line)?)?;
            }
        }
    }
    Ok(steps)
}
