//! The lines of a log.

use super::{Lines, Log};
use hagzimot_outcomes::log_lines::{Explanation, json_line, text_line};
use hagzimot_outcomes::outcomes::{CallOutcome, Outcome};
use hagzimot_show::explain::{MessageOrigin, message_line};
use std::alloc::AllocError;

impl Log {
    /// Puts decimal numbers for the bits of floats into the replies of calls.
    fn put_floats(&self, calls: &mut [CallOutcome]) -> Result<(), AllocError> {
        let Some(floats) = &self.floats else {
            return Ok(());
        };
        for (number, call) in calls.iter_mut().enumerate() {
            let told = match call {
                CallOutcome::Text(bytes) => match str::from_utf8(bytes) {
                    Ok(text) => floats.reply(self.alloc, number, text)?,
                    Err(_) => continue,
                },
                _ => continue,
            };
            *call = CallOutcome::Text(told.into_bytes());
        }
        Ok(())
    }

    /// The line of a message as JSON, with why it has no answer.
    fn json(&self, outcome: &Outcome, why: Option<&str>) -> Result<Vec<u8>, AllocError> {
        let file = self.name.as_str();
        let explanation = why.map(|why| Explanation { file, why });
        json_line(
            self.alloc,
            self.number,
            self.tape.start(),
            outcome,
            explanation,
        )
    }

    /// The line of a message as text. If it is explained why the message has no answer, that is the
    /// line after it.
    fn text(&self, outcome: &Outcome, why: Option<&str>) -> Result<Vec<u8>, AllocError> {
        let mut line = text_line(self.alloc, self.number, outcome)?;
        let Some(why) = why else {
            return Ok(line);
        };
        let what = match outcome {
            Outcome::Unedited(_) => "unedited",
            _ => "refused",
        };
        let origin = MessageOrigin {
            file: self.name.as_str(),
            number: self.number,
            byte: self.tape.start(),
        };
        let told = message_line(self.alloc, origin, what, why)?;
        line.extend_from_slice(told.as_bytes())?;
        line.extend_from_slice(b"\n")?;
        Ok(line)
    }

    /// The lines of a message, in the form that is asked for.
    pub(super) fn line(&self, mut outcome: Outcome) -> Result<Vec<u8>, AllocError> {
        if let Outcome::Written(calls) = &mut outcome {
            self.put_floats(calls)?;
        }
        let why = match &self.watch {
            Some(watch) => watch.take_why(),
            None => None,
        };
        let why = why.as_ref().map(|why| why.as_str());
        if self.lines == Lines::Json {
            return self.json(&outcome, why);
        }
        self.text(&outcome, why)
    }
}
