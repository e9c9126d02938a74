// A course with bodies in a line of text: what a client sends and a component does, what the steps
// are answered, and what is reported of the connections. The input comes in pieces as long as they
// can be, or byte by byte.
//
// A line has these parts: the limit of what is passed over of a body; the steps, from the admission
// of connection 1 on, each with its answer behind the sign `=`; and of each connection what its
// lines of a report say, behind the sign `=>`.
ghost use Rattle.std.specs.Prelude.{◌≡◌, true};
ghost use Rattle.cy_event.specs.declared.steps.Step.TheVariants as step;
ghost use Rattle.world_tests.specs.Courses.{IsNext, last_by};

use super::report::quoted;
use super::*;
use cy_event::GREATEST_READ;
use std::marker::Model;
use std::mem;

/// How input is cut, where no answer to it stands in the line.
#[derive(Clone, Copy, Debug, PartialEq, Eq)]
pub(super) enum Cut {
    Whole,
    Singly,
}

/// Steps that a connector can take from the first on, and the greatest number that they admit.
#[derive(Drop)]
struct Steps {
    items: Vec<Step>,
    last: u64,
}

impl Model for Steps {
    ghost use Rattle.std.specs.Prelude.{List};
    ghost use Rattle.cy_event.specs.declared.steps.Step.{Step};
    ghost use Rattle.world_tests.specs.Courses.{CanBeTaken};

    ghost Value = { List Step };

    ghost view = { λ s. s.items.items };

    ghost invariant = { λ s. CanBeTaken s.last s.items.items };
}

/// Whether a step may stand behind others that admit no greater number than this one.
fn is_next(step: &Step, last: u64) -> bool
    ensures { result ≡ true → IsNext last step.now }
{
    match step {
        Step::At(_) => false,
        Step::Admit(number) => last < *number,
        Step::On { conn, .. } | Step::Run(conn) => *conn >= 1,
        Step::Act { conn, act, bytes } => {
            let is_within = match act {
                Act::Read(count) => *count <= GREATEST_READ,
                Act::Write(count) => *count as usize <= bytes.as_slice().len(),
                Act::Return => true,
            };
            *conn >= 1 && is_within
        }
    }
}

/// The greatest number that is admitted with a step, where it was this one before.
fn last_by(step: &Step, last: u64) -> u64
    ensures { result ≡ last_by last step.now }
{
    match step {
        Step::Admit(number) => *number,
        _ => last,
    }
}

impl Steps {
    fn none(alloc: Global) -> Steps {
        Steps {
            items: Vec::new(alloc),
            last: 0,
        }
    }

    /// One step more.
    fn push(&mut self, step: Step) -> Result<(), Fail> {
        if !is_next(&step, self.last) {
            return Err(Fail::from("a step that no connector takes there"));
        }
        let last = last_by(&step, self.last);
        self.items.push(step)?;
        self.last = last;
        Ok(())
    }

    /// The report of a connector for one connection, which passes over so many bytes of a body.
    fn report(&self, alloc: Global, max_swallow: u64) -> Result<Vec<u8>, Fail> {
        let limits = Limits {
            max_swallow,
            ..limits_for(1)
        };
        let text = run(alloc, &limits, &rules(alloc)?, &self.items)?;
        Ok(text.into_vec())
    }
}

/// The steps of a line so far, and the answers that are wanted of them.
#[derive(Drop)]
struct Course<'a> {
    alloc: Global,
    cut: Cut,
    conn: u64,
    steps: Steps,
    answers: Vec<Option<&'a str>>,
    /// Input that is not among the steps yet.
    input: Vec<u8>,
}

/// The head of a request that a name stands for. It is one for `/a`, where no other path stands in
/// front, without a body, where there is nothing else, or with these fields. A number is that of
/// the bytes of its body, which may be in chunks, too.
fn head(alloc: Global, name: &str) -> Result<String, Fail> {
    let (path, fields) = match name.starts_with('/') {
        true => name.split_once(' ').unwrap_or((name, "")),
        false => ("/a", name),
    };
    let text = match fields {
        "" => format!(in alloc; "GET {path} HTTP/1.1~Host: a~~")?,
        "chunked" => {
            format!(in alloc; "POST {path} HTTP/1.1~Host: a~Transfer-Encoding: chunked~~")?
        }
        _ if fields.contains(':') => {
            format!(in alloc; "POST {path} HTTP/1.1~Host: a~{fields}~~")?
        }
        _ => { format!(in alloc; "POST {path} HTTP/1.1~Host: a~Content-Length: {fields}~~")? }
    };
    Ok(text)
}

/// The bytes of a text, in which a name in braces stands for the head of a request.
fn spelled(alloc: Global, text: &str) -> Result<Vec<u8>, Fail> {
    let mut all = String::new(alloc);
    for (index, piece) in text.split('{').enumerate() {
        let mut rest = piece;
        if index > 0 {
            let (name, behind) = piece.split_once('}').ok_or("a brace is open")?;
            all.push_str(head(alloc, name)?.as_str())?;
            rest = behind;
        }
        all.push_str(rest)?;
    }
    Ok(bytes_of(alloc, &all)?)
}

/// The input that a word and its text say: this text, or so many times the letter x.
fn input_of(alloc: Global, word: &str, text: &str) -> Result<Option<Vec<u8>>, Fail> {
    match word {
        "in" => Ok(Some(spelled(alloc, text)?)),
        "xs" => Ok(Some(vec![in alloc; b'x'; text.parse::<usize>()?]?)),
        _ => Ok(None),
    }
}

/// What a word is answered where nothing else is said.
fn answer_to(word: &str) -> Option<&str> {
    match word {
        "admit" => Some("Entered"),
        "run" => Some("Begun service 0"),
        "return" | "end" => Some("Done"),
        _ => None,
    }
}

impl<'a> Course<'a> {
    fn new(alloc: Global, cut: Cut) -> Course<'a> {
        Course {
            alloc,
            cut,
            conn: 0,
            steps: Steps::none(alloc),
            answers: Vec::new(alloc),
            input: Vec::new(alloc),
        }
    }

    fn push(&mut self, step: Step, answer: Option<&'a str>) -> Result<(), Fail> {
        self.steps.push(step)?;
        self.answers.push(answer)?;
        Ok(())
    }

    /// These bytes come in one piece.
    fn push_piece(&mut self, bytes: &[u8], answer: Option<&'a str>) -> Result<(), Fail> {
        let step = Step::On {
            conn: self.conn,
            event: Event::In,
            bytes: StepBytes::of(Vec::from_slice(self.alloc, bytes)?),
        };
        self.push(step, answer)
    }

    /// The input that waits comes now.
    fn push_input(&mut self) -> Result<(), Fail> {
        let input = mem::replace(&mut self.input, Vec::new(self.alloc));
        if input.is_empty() {
            return Ok(());
        }
        match self.cut {
            Cut::Whole => self.push_piece(&input, None),
            Cut::Singly => {
                for byte in &input {
                    self.push_piece(&[*byte], None)?;
                }
                Ok(())
            }
        }
    }

    /// One part of the line more. Input without an answer is put together with what follows it.
    fn push_part(&mut self, part: &'a str) -> Result<(), Fail> {
        let (said, answer) = match part.split_once(" = ") {
            Some((said, answer)) => (said, Some(answer)),
            None => (part, answer_to(part)),
        };
        let (word, text) = said.split_once(' ').unwrap_or((said, ""));
        match (input_of(self.alloc, word, text)?, answer) {
            (Some(input), None) => self.input.extend_from_slice(&input)?,
            (Some(input), answer) => {
                self.push_input()?;
                self.push_piece(&input, answer)?;
            }
            (None, None) => return Err(Fail::from("a step without an answer")),
            (None, answer) => {
                self.push_input()?;
                if word == "admit" {
                    self.conn = self.conn.saturating_add(1);
                }
                let step = step_of(self.alloc, self.conn, said)?;
                self.push(step, answer)?;
            }
        }
        Ok(())
    }
}

/// The steps of a line.
fn course_of<'a>(alloc: Global, cut: Cut, parts: &'a str) -> Result<Course<'a>, Fail> {
    let mut course = Course::new(alloc, cut);
    course.push_part("admit")?;
    for part in parts.split("; ") {
        course.push_part(part)?;
    }
    course.push_input()?;
    Ok(course)
}

const DATE: &str = "Date: Thu, 01 Jan 1970 00:00:00 GMT~";

/// The bytes of the answer of this name, with a tilde for the end of a line.
fn answer_text(alloc: Global, name: &str) -> Result<String, Fail> {
    let (status, connection) = match name.split_once('-') {
        Some((status, _)) => (status, "Connection: close~"),
        None => (name, ""),
    };
    match status {
        "none" => Ok(String::new(alloc)),
        "continue" => Ok(String::from_str(alloc, "HTTP/1.1 100 ~~")?),
        "200" => Ok(format!(in alloc; "HTTP/1.1 200 ~Content-Length: 0~{DATE}{connection}~")?),
        _ => Ok(format!(in alloc;
            "HTTP/1.1 {status} ~Content-Type: text/plain~Content-Length: 10~{DATE}{connection}~\
             Error {status}\\n"
        )?),
    }
}

/// The line of a report with these answers.
fn out_line(alloc: Global, names: &str) -> Result<Vec<u8>, Fail> {
    let mut text = String::new(alloc);
    for name in names.split(' ') {
        text.push_str(answer_text(alloc, name)?.as_str())?;
    }
    quoted(alloc, format!(in alloc; "out \"{text}\"\n")?.as_str())
}

/// The lines of a report with these charts of a connection.
fn chart_lines(alloc: Global, conn: usize, charts: &str) -> Result<Vec<u8>, Fail> {
    let mut lines = Vec::new(alloc);
    if charts == "no request" {
        return Ok(lines);
    }
    for (index, chart) in charts.split(" / ").enumerate() {
        let calls = match chart {
            "no call" => String::new(alloc),
            _ => format!(in alloc; " {chart}")?,
        };
        let request = index.saturating_add(1);
        let line = format!(in alloc; "chart {conn} {request}{calls}\n")?;
        lines.extend_from_slice(line.as_bytes())?;
    }
    Ok(lines)
}

/// The lines of a report that the further parts of a line say, of one connection after the other.
fn connection_lines(alloc: Global, outcomes: &str) -> Result<Vec<u8>, Fail> {
    let mut lines = Vec::new(alloc);
    for (index, outcome) in outcomes.split(" => ").enumerate() {
        let conn = index.saturating_add(1);
        let (came_to, rest) = outcome.split_once(" | ").ok_or("no answers")?;
        let (answers, charts) = rest.split_once(" | ").ok_or("no charts")?;
        lines.extend_from_slice(format!(in alloc; "conn {conn} {came_to}\n")?.as_bytes())?;
        lines.extend_from_slice(&out_line(alloc, answers)?)?;
        lines.extend_from_slice(&chart_lines(alloc, conn, charts)?)?;
    }
    Ok(lines)
}

/// That the first lines of a report have these answers, where there are any.
fn expect_answers(
    rt: &impl Abort,
    row: &str,
    report: &str,
    answers: &[Option<&str>],
) -> Result<(), Fail> {
    for (line, wanted) in report.lines().zip(answers.iter()) {
        let (_, answer) = line.split_once(' ').ok_or("a line without an answer")?;
        if let Some(wanted) = wanted {
            assert!(rt; answer == *wanted, "{row}: {line}");
        }
    }
    Ok(())
}

/// The text without so many lines.
fn behind_lines(text: &str, count: usize) -> &str {
    let mut rest = text;
    for _ in 0..count {
        rest = match rest.split_once('\n') {
            Some((_, behind)) => behind,
            None => "",
        };
    }
    rest
}

/// That what comes of a line, with its input cut so, is what the line says.
pub(super) fn expect_row(rt: &impl Abort, alloc: Global, cut: Cut, row: &str) -> Result<(), Fail> {
    let (limit, rest) = row.split_once(": ").ok_or("a line without a limit")?;
    let (parts, outcomes) = rest.split_once(" => ").ok_or("a line without an outcome")?;
    let course = course_of(alloc, cut, parts)?;
    let report = course.steps.report(alloc, limit.parse::<u64>()?)?;
    let text = str::from_utf8(&report)?;
    expect_answers(rt, row, text, &course.answers)?;
    let wanted = connection_lines(alloc, outcomes)?;
    let told = behind_lines(text, course.answers.len());
    assert!(rt;
        told.as_bytes() == wanted.as_slice(),
        "{cut:?} {row}: {told}"
    );
    Ok(())
}

/// That each line comes to what it says, whether its input comes whole or byte by byte.
pub(super) fn expect_rows(rt: &impl Abort, alloc: Global, rows: &str) -> Result<(), Fail> {
    for row in rows.lines() {
        expect_row(rt, alloc, Cut::Whole, row)?;
        expect_row(rt, alloc, Cut::Singly, row)?;
    }
    Ok(())
}
