//! Laws of checks of calls, each the contract of a function that does nothing.
ghost use Rattle.std.specs.Prelude.{◌≡◌, ◌≢◌, ℕ, false, true, []};
ghost use Rattle.capnp_model.specs.Schemas.{Schema};
ghost use Rattle.capnp_model.specs.Readings.{Record};
ghost use Rattle.capnp_model.specs.Calls.{Call};
ghost use Rattle.capnp_model.specs.Steps.{step};
ghost use Rattle.capnp_calls_replies.specs.Checks.{is_taken, can_take};

/// Every record refuses a call that can't be taken, and some record takes any other call. A record
/// is one of the record machine: whether a message has it isn't asked.
pub fn calls_that_records_take()
    ensures refused { (s : Schema) (id : ℕ) (call : Call) (r : Record) → call.path ≢ []
        → can_take s id call ≡ false → is_taken (step s id call r) ≡ false }
    ensures taken { (s : Schema) (id : ℕ) (call : Call) → call.path ≢ []
        → can_take s id call ≡ true → (r : Record) × (is_taken (step s id call r) ≡ true) }
{}
