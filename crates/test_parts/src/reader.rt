//! Rows of a reader: the values of a stream, however it is cut, and facts about values.

use crate::pieces::stream_of;
use crate::spelling::spelled_or_nothing;
use anyhow::Result;
use resp_core::{Limits, Reader, RespError, Value, put_text};
use std::alloc::Global;
use test_rows::again;
use test_rows::shown::{escaped, refusal_words, shown};
use test_rows::text::{first_word, put_escaped, unescaped, unknown};
use test_rows::values::{bytes_of, value_of};

// Longer values are printed by their length.
const SHOWN: usize = 200;

/// A row's reader, and the limits of its streams.
#[derive(Drop)]
pub struct ReaderSubject {
    limits: Limits,
    reader: Reader,
}

impl ReaderSubject {
    /// Begins a row, with the limits of a `client` or of a `host`.
    pub(crate) fn open(alloc: Global, arguments: &str) -> Result<ReaderSubject> {
        let limits = match arguments {
            "client" => Limits::CLIENT,
            "host" => Limits::HOST,
            _ => return unknown("kind of reader", arguments),
        };
        Ok(ReaderSubject {
            limits,
            reader: Reader::new(alloc, limits),
        })
    }

    /// Makes one action: `feed BYTES`, `next`, `held`, `read PIECES` (a stream of its own), `measure VALUE`, `simple
    /// BYTES`, `error BYTES`, `words VALUE`.
    pub(crate) fn act(&mut self, alloc: Global, line: &str) -> Result<String> {
        let (verb, rest) = first_word(line);
        match verb {
            "feed" => self.feed(alloc, rest),
            "next" => self.next(alloc),
            _ => again!(self.told(alloc, verb, rest)),
        }
    }

    fn told(&self, alloc: Global, verb: &str, rest: &str) -> Result<String> {
        match verb {
            "held" => shown(alloc, format_args!("{} bytes", self.reader.held())),
            "read" => self.read(alloc, rest),
            "measure" => measured(alloc, value_of(alloc, rest)?),
            "simple" => measured(alloc, Value::Simple(bytes_of(alloc, rest)?)),
            "error" => measured(alloc, Value::Fault(bytes_of(alloc, rest)?)),
            "words" => words_text(alloc, value_of(alloc, rest)?),
            _ => unknown("action", verb),
        }
    }

    fn feed(&mut self, alloc: Global, text: &str) -> Result<String> {
        let piece = again!(unescaped(alloc, text))?;
        match again!(self.reader.feed(piece.as_slice())) {
            Ok(()) => shown(alloc, "Ok"),
            Err(refusal) => refusal_words(alloc, refusal.number(), &refusal),
        }
    }

    fn next(&mut self, alloc: Global) -> Result<String> {
        match again!(self.reader.next_value()) {
            Ok(value) => spelled_or_nothing(alloc, value),
            Err(refusal) => refusal_words(alloc, refusal.number(), &refusal),
        }
    }

    // Reads a stream whole, in pieces of several lengths, a short one cut in two at each place, and with short commands
    // as their texts. All must give the same.
    fn read(&self, alloc: Global, words: &str) -> Result<String> {
        let stream = stream_of(alloc, words)?;
        let stream = stream.as_slice();
        let told = self.read_in_pieces(alloc, stream, stream.len(), false)?;
        for as_texts in [false, true] {
            if let Some(length) = self.differing_length(alloc, stream, told.as_str(), as_texts)? {
                return shown(alloc, format_args!("{told}, DIFFERS in pieces of {length}"));
            }
            if let Some(place) = self.differing_place(alloc, stream, told.as_str(), as_texts)? {
                return shown(alloc, format_args!("{told}, DIFFERS cut at {place}"));
            }
        }
        Ok(told)
    }

    fn differing_length(
        &self,
        alloc: Global,
        stream: &[u8],
        told: &str,
        as_texts: bool,
    ) -> Result<Option<usize>> {
        for length in piece_lengths(stream.len()) {
            let text = self.read_in_pieces(alloc, stream, *length, as_texts)?;
            if text.as_str() != told {
                return Ok(Some(*length));
            }
        }
        Ok(None)
    }

    fn differing_place(
        &self,
        alloc: Global,
        stream: &[u8],
        told: &str,
        as_texts: bool,
    ) -> Result<Option<usize>> {
        for place in 0..places(stream.len()) {
            let text = self.read_cut_at(alloc, stream, place, as_texts)?;
            if text.as_str() != told {
                return Ok(Some(place));
            }
        }
        Ok(None)
    }

    fn read_in_pieces(
        &self,
        alloc: Global,
        stream: &[u8],
        length: usize,
        as_texts: bool,
    ) -> Result<String> {
        let mut reading = Reading::new(alloc, self.limits, as_texts);
        let text = reading.of_pieces(alloc, stream, length);
        drop(reading);
        text
    }

    fn read_cut_at(
        &self,
        alloc: Global,
        stream: &[u8],
        place: usize,
        as_texts: bool,
    ) -> Result<String> {
        let mut reading = Reading::new(alloc, self.limits, as_texts);
        let text = reading.of_two(alloc, stream, place);
        drop(reading);
        text
    }
}

// A long stream is cut into few pieces.
fn piece_lengths(bytes: usize) -> &'static [usize] {
    match bytes {
        0..=1_000 => &[1, 2, 7, 1_000],
        1_001..=1_000_000 => &[20_000, 100_000, 1_000_000],
        _ => &[3_000_000, 10_000_000],
    }
}

fn places(bytes: usize) -> usize {
    if bytes <= SHOWN { bytes } else { 0 }
}

// What a reader made of a stream: the spellings of its values, and then the refusal, if any.
#[derive(Drop)]
struct Reading {
    reader: Reader,
    as_texts: bool,
    written: Vec<u8>,
    refusal: Option<RespError>,
}

impl Reading {
    fn new(alloc: Global, limits: Limits, as_texts: bool) -> Reading {
        Reading {
            reader: Reader::new(alloc, limits),
            as_texts,
            written: Vec::new(alloc),
            refusal: None,
        }
    }

    fn of_pieces(&mut self, alloc: Global, stream: &[u8], length: usize) -> Result<String> {
        for piece in stream.chunks(length.max(1)) {
            self.take_piece(alloc, piece)?;
        }
        self.text(alloc, stream)
    }

    fn of_two(&mut self, alloc: Global, stream: &[u8], place: usize) -> Result<String> {
        let (front, back) = stream.split_at(place.min(stream.len()));
        self.take_piece(alloc, front)?;
        self.take_piece(alloc, back)?;
        self.text(alloc, stream)
    }

    // Feeds one piece and takes its values, unless the reader takes no more.
    fn take_piece(&mut self, alloc: Global, piece: &[u8]) -> Result<()> {
        match again!(self.reader.feed(piece)) {
            Ok(()) => self.take_values(alloc, piece.len()),
            Err(_) => Ok(()),
        }
    }

    // There is at most one more value than the piece has bytes.
    fn take_values(&mut self, alloc: Global, most: usize) -> Result<()> {
        for _ in 0..=most {
            if self.as_texts && self.take_text()? {
                continue;
            }
            match again!(self.reader.next_value()) {
                Ok(Some(value)) => self.write(alloc, value)?,
                Ok(None) => break,
                Err(refusal) => {
                    self.refusal = Some(refusal);
                    break;
                }
            }
        }
        Ok(())
    }

    // True: the next value was read as its text.
    fn take_text(&mut self) -> Result<bool> {
        let Some(command) = again!(self.reader.next_spelled())? else {
            return Ok(false);
        };
        let put = self.written.extend_from_slice(command.text().as_slice());
        drop(command);
        put?;
        Ok(true)
    }

    // The value shares its bytes with the reader's.
    fn write(&mut self, alloc: Global, value: Value) -> Result<()> {
        let shared = value.share(alloc);
        drop(value);
        let shared = shared?;
        let put = self.put(alloc, &shared);
        drop(shared);
        put
    }

    fn put(&mut self, alloc: Global, value: &Value) -> Result<()> {
        if value.is_plain() {
            put_text(alloc, value, &mut self.written)?;
        }
        Ok(())
    }

    // The refusal comes last.
    fn text(&self, alloc: Global, stream: &[u8]) -> Result<String> {
        match self.refusal {
            Some(refusal) => {
                let refusal = refusal_words(alloc, refusal.number(), &refusal)?;
                self.text_and(alloc, stream, refusal)
            }
            None if self.written.is_empty() => shown(alloc, "nothing"),
            None => self.written_text(alloc, stream),
        }
    }

    fn text_and(&self, alloc: Global, stream: &[u8], refusal: String) -> Result<String> {
        if self.written.is_empty() {
            return Ok(refusal);
        }
        let written = self.written_text(alloc, stream)?;
        shown(alloc, format_args!("{written} then {refusal}"))
    }

    fn written_text(&self, alloc: Global, stream: &[u8]) -> Result<String> {
        let written = self.written.as_slice();
        match written.len() {
            0..=SHOWN => escaped(alloc, written),
            length if stream.starts_with(written) => {
                shown(alloc, format_args!("{length} bytes as they came"))
            }
            length => shown(alloc, format_args!("{length} other bytes")),
        }
    }
}

// Whether the value can be written, and the length of its spelling.
fn measured(alloc: Global, value: Value) -> Result<String> {
    let not = if value.is_plain() { "" } else { "not " };
    let length = value.text_len();
    drop(value);
    shown(alloc, format_args!("{not}plain, {length} bytes"))
}

fn words_text(alloc: Global, value: Value) -> Result<String> {
    let text = words_in_quotes(alloc, &value);
    drop(value);
    text
}

fn words_in_quotes(alloc: Global, value: &Value) -> Result<String> {
    let Some(words) = value.words() else {
        return shown(alloc, "no words");
    };
    let count = words.0.len();
    let mut text = shown(alloc, format_args!("{count} words"))?;
    for at in 0..count {
        text.push_str(" '")?;
        put_escaped(&mut text, words.word(at).as_slice())?;
        text.push('\'')?;
    }
    Ok(text)
}
