//! Counts of the messages and bytes of a run.

use hagzimot_outcomes::outcomes::{CallOutcome, Cause, Outcome};
use hagzimot_outcomes::refused_calls::RefusedCalls;
use std::alloc::{AllocError, Global};
use std::io::IsTerminal;
use std::time::Instant;

/// The number of seconds between two lines of counts.
const BETWEEN: u64 = 1;

/// The counts of a run, which are reported once a second if standard error is a terminal.
#[derive(Drop)]
pub struct Stats {
    rt: HostRuntime,
    written: u64,
    /// The number of written messages that are unedited.
    unedited: u64,
    refused: u64,
    calls: RefusedCalls,
    /// The number of bytes of the earlier inputs.
    bytes: u64,
    /// The time of the last report; `None` if counts are reported only at the end.
    told: Option<Instant>,
}

impl Stats {
    /// Returns counts of nothing. If there is no clock, counts are reported only at the end.
    pub fn new(rt: &HostRuntime) -> Stats {
        let told = if rt.stderr().is_terminal() {
            Instant::now(rt).ok()
        } else {
            None
        };
        Stats {
            rt: *rt,
            written: 0,
            unedited: 0,
            refused: 0,
            calls: RefusedCalls::new(rt.alloc()),
            bytes: 0,
            told,
        }
    }

    /// Counts a message and its refused calls. An unedited message also counts as written.
    pub fn count(&mut self, outcome: &Outcome) {
        match outcome {
            Outcome::Done(_) => {}
            Outcome::Written(calls) => {
                for call in calls {
                    if let CallOutcome::Refused(kind) = call {
                        self.calls.count(*kind);
                    }
                }
            }
            Outcome::Unedited(cause) => {
                self.count_cause(*cause);
                self.unedited = self.unedited.saturating_add(1);
            }
            Outcome::Refused(cause) => {
                self.count_cause(*cause);
                self.refused = self.refused.saturating_add(1);
                return;
            }
        }
        self.written = self.written.saturating_add(1);
    }

    /// Counts the call that prevented the edits of a message, if there is such a call.
    fn count_cause(&mut self, cause: Cause) {
        if let Cause::Call(call) = cause {
            self.calls.count(call.kind);
        }
    }

    /// Counts the bytes of an input that has ended.
    pub fn pass_over(&mut self, bytes: u64) {
        self.bytes = self.bytes.saturating_add(bytes);
    }

    /// Tests whether it is time for another report. If so, notes the time of this one.
    pub fn is_time(&mut self) -> bool {
        let Some(told) = self.told else {
            return false;
        };
        let Ok(now) = Instant::now(&self.rt) else {
            return false;
        };
        if now.duration_since(told).as_secs() < BETWEEN {
            return false;
        }
        self.told = Some(now);
        true
    }

    /// Returns the line of the counts as text or as JSON. `given` is the number of bytes of the
    /// current input. Returns an error if an allocation was refused.
    pub fn line(&self, alloc: Global, given: u64, as_json: bool) -> Result<String, AllocError> {
        let written = self.written;
        let unedited = self.unedited;
        let refused = self.refused;
        let bytes = self.bytes.saturating_add(given);
        if as_json {
            let calls = self.calls.json(alloc)?;
            return format!(in alloc;
                "{{\"written\":{written},\"calls_refused\":{calls},\"unedited\":{unedited},\"refused\":{refused},\"bytes\":{bytes}}}\n"
            );
        }
        let calls = self.calls.text(alloc)?;
        format!(in alloc;
            "{written} written, {calls}, {unedited} unedited, {refused} messages refused, {bytes} bytes read\n"
        )
    }
}
