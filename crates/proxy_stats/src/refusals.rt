ghost use Rattle.std.specs.Prelude.{◌≡◌, ◌<◌, length};
ghost use Rattle.resp_core.specs.Command.{word};
ghost use Rattle.splitter.specs.Request.{request_of};
ghost use Rattle.proxy_stats.specs.RefusedNames.{noted};
ghost use Rattle.proxy_stats.specs.Refusals.{is_refusal, name_asked, name_of, noted_in};

use crate::refused_names::RefusedNames;
use proxy_core::{Answer, Event, Local, Step};
use resp_core::SpelledCommand;
use splitter::Request;

impl RefusedNames {
    // If the step refused a command.
    #[inline(always)]
    pub(crate) fn note_refused(&mut self, step: &Step<Event, Answer>)
        ensures { self.new ≡ noted_in self.old step.now }
    {
        if is_refusal(&step.answer) {
            self.note_asked(&step.event);
        }
    }

    fn note_asked(&mut self, event: &Event)
        ensures { self.new ≡ noted self.old (name_asked event.now) }
    {
        match event {
            Event::Arrived { request, .. } => self.note_request(request),
            _ => self.note_nameless(),
        }
    }

    fn note_request(&mut self, request: &Request)
        ensures { self.new ≡ noted self.old (name_of (request_of request.now)) }
    {
        match request {
            Request::Read(value) => match value.words() {
                Some(words) => self.note(words.word(0).as_slice()),
                None => self.note_nameless(),
            },
            Request::Spelled(command) => self.note(first_word(command)),
            Request::Broken => self.note_nameless(),
        }
    }
}

#[inline(always)]
fn is_refusal(answer: &Answer) -> bool
    ensures { result ≡ is_refusal answer.now }
{
    matches!(
        answer,
        Answer::Accepted {
            local: Some(Local::Unsupported),
            ..
        }
    )
}

fn first_word(command: &SpelledCommand) -> &[u8]
    ensures some { 0 < length command.now }
    ensures word { result.now ≡ word command.now 0 }
{
    // (it tells that there is one)
    let _ = command.count();
    command.word(0)
}
