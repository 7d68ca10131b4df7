//! Defaults of fields on the way, as words.
ghost use Rattle.std.specs.Prelude.{ℕ, ◌≡◌, true, Option, Some, option_map, option_copied};
ghost use Rattle.capnp_model.specs.Trees.{Tree};
ghost use Rattle.capnp_model.specs.Schemas.{Ty, pointer_slot, default_or_null};
ghost use Rattle.capnp_values_queries.specs.Handles.{entry_of_field};
ghost use Rattle.capnp_calls_edits.specs.Written.{HoldsDefaultOrNull, has_inside};

use capnp_schema_structs::roots::{default_said, default_words};
use capnp_units::sizes::Word;
use capnp_values_queries::fields::Field;

/// Returns the words of the default of a field that is a pointer to a struct or a list; `None` if
/// it has no default.
pub(crate) fn default_of<'a>(field: Field<'a>) -> Option<&'a [Word]>
    ensures { (i : ℕ) (ty : Ty) (d : Option Tree)
        → option_map (λ e. e.body) (entry_of_field field.entry) ≡ Some (pointer_slot i ty d)
        → has_inside ty ≡ true → HoldsDefaultOrNull (option_copied result) (default_or_null d) }
{
    // For the proof, which cites the record of the field's parent and what it says of the field.
    let holder = field.parent().record();
    let _words = holder.data_word_count;
    default_words(default_said(field.get_proto()))
}
