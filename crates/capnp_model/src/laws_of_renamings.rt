//! Laws of renamed fields, each the contract of a function that does nothing.

ghost use Rattle.std.specs.Prelude.{◌≡◌, ℕ, [], List};
ghost use Rattle.capnp_model.specs.Schemas.{Schema};
ghost use Rattle.capnp_model.specs.Calls.{Call};
ghost use Rattle.capnp_model.specs.Partners.{renamed};
ghost use Rattle.capnp_model.specs.RenamedCalls.{renamed_calls};
ghost use Rattle.capnp_model.specs.Compatible.{IsCompatible, IsCompatibleWith};
ghost use Rattle.capnp_model.specs.Admitted.{is_admitted, is_admitted_with};

/// If no field is renamed, the newer names are the older names: schemas, calls, compatibility and
/// admission are the same.
pub fn nothing_renamed()
    ensures schemas { (o : Schema) → renamed [] o ≡ o }
    ensures compatible { (o n : Schema) (older newer : ℕ)
        → IsCompatibleWith [] o n older newer → IsCompatible o n older newer }
    ensures admitted { (o n : Schema) (older newer : ℕ) (c : Call)
        → is_admitted_with [] o n older newer c ≡ is_admitted o n older newer c }
    ensures calls { (o : Schema) (id : ℕ) (calls : List Call)
        → renamed_calls [] o id calls ≡ calls }
{}
