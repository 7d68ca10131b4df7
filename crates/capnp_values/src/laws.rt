//! Laws of the values that readers show, each the contract of an empty function: a call of the
//! function adds its clauses.
ghost use Rattle.capnp_values.specs.Records.{FieldsOfRecords, MembersOfRecords, ValuesOfRecords};
ghost use Rattle.capnp_values.specs.Standing.{PointersAreRead, FieldsAreRead, ElementsAreRead, DiscriminantsAreRead, NullsAreRead};
ghost use Rattle.capnp_values.specs.ValuesShown.{ValuesAreRead};

use capnp_wire::laws::{gets_are_readings, values_by_levels};

/// The value that a pointer shows under a type is what the model reads there, if the levels of the
/// value are left:
/// - a text and data by their bytes;
/// - a struct by its record, with the section and the children that the value has;
/// - a list by the value's elements;
/// - an untyped pointer by the value that it leads to;
/// - null as the empty value.
///
/// A refusal has the kind of the reading's fault.
pub fn pointers_are_read()
    ensures { PointersAreRead }
{
    values_by_levels();
    gets_are_readings();
}

/// The value that a field of a struct at a value shows is what the model reads of it there, at
/// every type:
/// - a plain field shows its bits;
/// - a group shows the record of the same section and children;
/// - a field with a pointer shows the reading of the child;
/// - a null pointer shows the reading of the default's value, with 64 levels of its own whatever
///   the message has left, otherwise the empty value.
///
/// A default has to keep the schema rules only if the pointer is null.
pub fn fields_are_read()
    ensures { FieldsAreRead }
{
    pointers_are_read();
}

/// The value that each element of a list shows, if the list is at a value whose elements are read,
/// is what the model reads of it. This holds at every type that a schema names, and at every size
/// of elements from which the type is read:
/// - a plain element shows its bits;
/// - a struct shows the record of the element's section and children;
/// - an element with a pointer shows the reading of that pointer.
///
/// There are as many elements as the list counts.
pub fn elements_are_read()
    ensures { ElementsAreRead }
{
    pointers_are_read();
}

/// The discriminant that a struct shows, which `which` and `has` use, is the one that the model
/// reads of the value.
pub fn discriminants_are_read()
    ensures { DiscriminantsAreRead }
{}

/// A pointer is null exactly when its value is null, so `has` of a pointer slot depends on the
/// value.
pub fn nulls_are_read()
    ensures { NullsAreRead }
{}

/// Everything that a struct shows, if it is at a value whose record is read, is that record:
/// - `has` of a field returns whether the record has it; inactive members and null pointers are not
///   present;
/// - the value of `get` of a field that is not an inactive member is what the record has, a null
///   pointer as its default, otherwise as the empty value;
/// - `which` returns the first union member that the record has.
///
/// The reading of a struct's value, or of null, is its record.
pub fn records_are_read()
    ensures fields { FieldsOfRecords }
    ensures members { MembersOfRecords }
    ensures values { ValuesOfRecords }
{
    pointers_are_read();
}

/// The value of a node record under a type of its sort, as `dynamic_value::Reader::new` reads it,
/// is what the model reads of it:
/// - a number, a text or data unchanged;
/// - a struct or a list by the value that its bytes hold, which is canonical as the schema rules
///   require of annotations and defaults;
/// - an untyped value as null.
pub fn values_are_read()
    ensures { ValuesAreRead }
{
    pointers_are_read();
}
