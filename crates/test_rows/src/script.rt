use crate::again;
use crate::series::Series;
use crate::subject::Subject;
use crate::text::{first_word, number};
use anyhow::{Context, Result, bail};
use std::alloc::Global;

/// Prints each line of the script, and after an action its answer. Ends in an error at the first line that is no row,
/// action or comment.
pub fn play<S: Subject>(rt: &impl Print, alloc: Global, text: &str) -> Result<()> {
    let mut subject: Option<S> = None;
    let played = play_lines(rt, alloc, text, &mut subject);
    drop(subject);
    played
}

fn play_lines<S: Subject>(
    rt: &impl Print,
    alloc: Global,
    text: &str,
    subject: &mut Option<S>,
) -> Result<()> {
    let mut line_number = 0u64;
    for line in text.lines() {
        line_number = line_number.saturating_add(1);
        let answer = read_line(alloc, subject, line).context(format_args!(
            "line {line_number} of the script"
        ))?;
        if answer.is_empty() {
            println!(rt; "{line}")?;
        } else {
            println!(rt; "{line} => {answer}")?;
        }
    }
    Ok(())
}

fn read_line<S: Subject>(alloc: Global, subject: &mut Option<S>, line: &str) -> Result<String> {
    if line.is_empty() || line.starts_with('#') {
        return Ok(String::new(alloc));
    }
    if let Some(row) = line.strip_prefix("row ") {
        let (_, words) = first_word(row);
        drop(subject.replace(again!(S::open(alloc, words))?));
        return Ok(String::new(alloc));
    }
    let Some(subject) = subject else {
        bail!("no row has begun");
    };
    match line.strip_prefix("repeat ") {
        Some(words) => repeated(alloc, subject, words),
        None => subject.act(alloc, line),
    }
}

fn repeated<S: Subject>(alloc: Global, subject: &mut S, words: &str) -> Result<String> {
    let (times, action) = first_word(words);
    let times: u64 = number(times)?;
    let mut series = Series::new(alloc);
    for _ in 0..times {
        series.add(subject.act(alloc, action)?)?;
    }
    series.text()
}
