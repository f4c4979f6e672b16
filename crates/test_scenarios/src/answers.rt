use anyhow::Result;
use proxy_core::{Answer, Field, Local, Refusal};
use std::alloc::Global;
use test_rows::settings::bad_settings;
use test_rows::shown::{escaped, refusal_words, shown};

pub(crate) fn answer_text(alloc: Global, answer: &Answer) -> Result<String> {
    match answer {
        Answer::Opened { conn } => shown(alloc, format_args!("Opened {conn}")),
        Answer::Accepted {
            index,
            local,
            parts,
            no_host,
            busy,
        } => accepted(alloc, *index, *local, [*parts, *no_host, *busy]),
        Answer::Finishing => shown(alloc, "Finishing"),
        Answer::Sent { epoch, place, text } => sent(alloc, *epoch, *place, text.as_slice()),
        Answer::Matched { trip } => shown(alloc, format_args!("Matched {trip:?}")),
        Answer::Lost { parts, trip } => shown(alloc, format_args!("Lost {parts}, {trip:?}")),
        Answer::Swept {
            returned,
            ejected,
            kept,
        } => shown(
            alloc,
            format_args!("Swept returned {returned}, ejected {ejected}, kept {kept}"),
        ),
        Answer::Bytes { text } => handed(alloc, text.as_slice()),
        Answer::Closed => shown(alloc, "Closed"),
    }
}

// The proxy's own answer, or the numbers of all parts, of those without a host, and of busy ones.
fn accepted(
    alloc: Global,
    index: u64,
    local: Option<Local>,
    [parts, no_host, busy]: [u64; 3],
) -> Result<String> {
    match (local, parts, no_host, busy) {
        (Some(local), 0, 0, 0) => {
            shown(alloc, format_args!("Accepted {index}, local {local:?}"))
        }
        (Some(local), ..) => shown(
            alloc,
            format_args!(
                "Accepted {index}, local {local:?}, parts {parts}, no_host {no_host}, busy {busy}"
            ),
        ),
        (None, ..) => shown(
            alloc,
            format_args!("Accepted {index}, parts {parts}, no_host {no_host}, busy {busy}"),
        ),
    }
}

fn sent(alloc: Global, epoch: u64, place: u64, text: &[u8]) -> Result<String> {
    let text = escaped(alloc, text)?;
    shown(
        alloc,
        format_args!("Sent epoch {epoch}, place {place}, {text}"),
    )
}

fn handed(alloc: Global, text: &[u8]) -> Result<String> {
    let text = escaped(alloc, text)?;
    shown(alloc, format_args!("Bytes {text}"))
}

pub(crate) fn refusal_text(alloc: Global, refusal: Refusal) -> Result<String> {
    let number = refusal.number();
    match refusal {
        Refusal::BadSettings { field } => bad_settings(alloc, number, field),
        _ => refusal_words(alloc, number, &refusal),
    }
}

pub(crate) fn all_refusals(alloc: Global) -> Result<String> {
    let refusals = [
        Refusal::NoMemory,
        Refusal::JournalFull,
        Refusal::NoSuchConnection,
        Refusal::Crowded,
        Refusal::NothingWaiting,
        Refusal::Stale { current: 3 },
        Refusal::Unasked,
        Refusal::NotReady { left: 3 },
        Refusal::Finishing,
        Refusal::TooManyConnections,
        Refusal::BadSettings {
            field: Field::Hosts,
        },
        Refusal::NoSuchHost,
        Refusal::NotPlain,
    ];
    let mut text = String::new(alloc);
    for refusal in refusals {
        put_answer(&mut text, refusal_text(alloc, refusal)?)?;
    }
    Ok(text)
}

pub(crate) fn put_answer(text: &mut String, answer: String) -> Result<()> {
    if !text.is_empty() {
        text.push_str("; ")?;
    }
    text.push_str(answer.as_str())?;
    Ok(())
}
