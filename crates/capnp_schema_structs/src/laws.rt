//! Laws of dynamic builders, each the contract of an empty function: a call of the function adds
//! its clause.
ghost use Rattle.std.specs.Prelude.{◌≡◌, ◌++◌, List, Some};
ghost use Rattle.capnp_model.specs.Edits.{Cell, Edit, IsBegun, after_writes};
ghost use Rattle.capnp_model.specs.Schemas.{Shape, group_slot};
ghost use Rattle.capnp_values_queries.specs.Fields.{Entry, union_in};
ghost use Rattle.capnp_values_queries.specs.Handles.{entry_of_field};
ghost use Rattle.capnp_values_queries.specs.Structs.{schema_around, shape_of_struct};
ghost use Rattle.capnp_values_queries.specs.declared.fields.Field.{Field};
ghost use Rattle.capnp_schema_structs.specs.GroupSets.{copied_field};
ghost use Rattle.capnp_schema_structs.specs.GroupWrites.{in_words};

/// A beginning of the writes of a field that is a group, set to whole words, leaves the state that
/// the model gives for a refused `set` of the group.
pub fn refused_groups_are_begun()
    ensures { (f : Field) (e : Entry) (g : Shape) (from old : Cell) (front back : List Edit)
        → entry_of_field f ≡ Some e → e.body ≡ group_slot g
        → copied_field f (in_words from) ≡ front ++ back
        → IsBegun (schema_around f.parent) (union_in (shape_of_struct f.parent)) e.member g from
        old (after_writes front old) }
{}
