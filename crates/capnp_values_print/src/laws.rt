//! Laws of printed text, each the contract of an empty function: a call of the function adds its
//! clauses.
ghost use Rattle.capnp_values_print.specs.Models.{WholesAreRead, TextsAreModels, FieldsAreModels};

use capnp_values::laws::pointers_are_read;

/// Everything that a value of an accepted set shows, down to the last level that is left, is what
/// the model reads of the value. It shows each field of a struct, each element of a list, a null
/// pointer as null, and a fault by its kind. Values of untyped pointers and capabilities aren't
/// looked at.
pub fn wholes_are_read()
    ensures { WholesAreRead }
{
    pointers_are_read();
}

/// The text of a value of an accepted set is the model's text of what the model reads of the value,
/// in both forms. Null pointers are as the model prints them. There is a fault instead of the text
/// exactly when the model has no text.
pub fn texts_are_models()
    ensures { TextsAreModels }
{
    pointers_are_read();
}

/// The text of a field of a struct, as `print_field` appends it, is the model's text of that field
/// in the struct's record, in both forms. A null pointer is its default, which is the first of the
/// 64 that may be entered, otherwise the empty value. There is a fault instead of the text exactly
/// when the model has no text, as for a union member that isn't active.
pub fn fields_are_models()
    ensures { FieldsAreModels }
{
    pointers_are_read();
}
