//! Structs whose schema is known at run time, to write.
ghost use Rattle.std.specs.Prelude.{◌≡◌, ◌↔◌, true, None, Ok, IsOkAnd, IfOk, OnOk, OnErr};
ghost use Rattle.capnp_model.specs.Calls.{clear, init, initn};
ghost use Rattle.capnp_schema_structs.specs.Builders.{IsReady, WritesInPlace, StructStays, Puts, Sets, IsPartOf, IsBegunBy, struct_view_of};
ghost use Rattle.capnp_copy_arenas.specs.Refusals.{IsSizeOrRefusal};
ghost use Rattle.capnp_schema_structs.specs.Calls.{edit_of};
ghost use Rattle.capnp_schema_structs.specs.Given.{is_flat};
ghost use Rattle.capnp_schema_structs.specs.Values.{value_given};
ghost use Rattle.capnp_schema_structs.specs.Edits.{IsThere, HoldsShape};
ghost use Rattle.capnp_schema_structs.specs.Begun.{begun_field, IsThereIfTold};
ghost use Rattle.capnp_schema_structs.specs.Inits.{begun_slot, is_slot};
ghost use Rattle.capnp_schema_structs.specs.NewLists.{initn_field};
ghost use Rattle.capnp_units.specs.Segments.{words_in};
ghost use Rattle.capnp_values_queries.specs.Fields.{place_of_name};
ghost use Rattle.capnp_values_queries.specs.Structs.{schema_around, shape_of_struct, fields_of_struct};
ghost use Rattle.capnp_values_queries.specs.Handles.{entry_of_field, IsFieldAt};
ghost use Rattle.capnp_wire_objects.specs.Places.{place_view};
ghost use Rattle.capnp_wire.specs.Views.{struct_at};
ghost use Rattle.capnp_values.specs.Sources.{struct_seen};
ghost use Rattle.capnp_values.specs.Shown.{has_field, active_index, AnswersNamed, TellsField};

use crate::begin::begin_field;
use crate::init::{Part, init_slot};
use crate::initn::initn_slot;
use crate::slots::clear_field;
use crate::values::set_value;
use capnp_copy_arenas::arena::{BuilderArena, Memory};
use capnp_copy_arenas::fields::StructPlace;
use capnp_layout_builders::struct_builder::StructBuilder;
use capnp_units::errors::Result;
use capnp_values::{dynamic_struct, dynamic_value};
use capnp_values_queries::fields::Field;
use capnp_values_queries::structs::StructSchema;
use capnp_wire::structs::StructReader;
use capnp_wire_objects::arena::ReaderArena;

/// Returns whether a struct has at least a schema's two sizes, as its builder requires.
pub fn has_sizes<A: BuilderArena>(builder: &StructBuilder<'_, A>, schema: StructSchema<'_>) -> bool
    ensures { (result ≡ true) ↔ HoldsShape builder.now.place (shape_of_struct schema.entry) }
{
    let record = schema.record();
    if record.data_word_count > builder.place.data_words {
        return false;
    }
    if record.pointer_count > builder.place.pointers {
        return false;
    }
    true
}

/// Returns the struct at a place, to read.
fn read_at<'a, A: BuilderArena>(
    arena: &'a A,
    place: StructPlace,
    schema: StructSchema<'a>,
) -> dynamic_struct::Reader<'a, A>
    requires { IsThere (words_in (A.segments arena.now)) place }
    ensures source { struct_seen A.segments result.source
        ≡ struct_at (A.segments arena.now) (A.nesting arena.now) (place_view place.start)
        place.data_words place.pointers }
    ensures schema { result.schema ≡ schema.entry }
{
    let reader = StructReader::at(arena, place.start, place.data_words, place.pointers);
    dynamic_struct::Reader::new(reader, schema)
}

/// A struct or a group to write, under its schema.
#[derive(Drop)]
pub struct Builder<'a, A> {
    pub memory: &'a mut Memory<A>,
    pub place: StructPlace,
    pub schema: StructSchema<'a>,
}

impl<'a, A: BuilderArena> Builder<'a, A> {
    ghost use Rattle.std.specs.Borrow.{sem};
    ghost use Rattle.capnp_schema_structs.specs.Lending.{Lends};

    /// Makes the builder of a struct under a schema. The struct has at least the schema's two
    /// sizes.
    pub fn new(builder: StructBuilder<'a, A>, schema: StructSchema<'a>) -> Self
        requires there { IsThere (words_in (A.segments builder.memory.now.arena)) builder.place }
        requires wide { HoldsShape builder.place (shape_of_struct schema) }
        ensures same { result.memory.ghost_name ≡ builder.entry.memory.ghost_name }
        ensures now { result.memory.now ≡ builder.entry.memory.now }
        ensures place { result.place ≡ builder.entry.place }
        ensures schema { result.schema ≡ schema.entry }
        ensures ready { IsReady A.segments result }
    {
        let StructBuilder { memory, place } = builder;
        Builder {
            memory,
            place,
            schema,
        }
    }

    /// Lends this struct.
    pub fn reborrow(&mut self) -> Builder<'_, A>
        requires ready { IsReady A.segments self.old }
        ensures* lends { sem 𝓛 (Lends A.row self.entry result) }
        ensures now { result.memory.now ≡ self.old.memory.now }
        ensures place { result.place ≡ self.old.place }
        ensures schema { result.schema ≡ self.old.schema }
        ensures ready { IsReady A.segments result }
    {
        let (place, schema) = (self.place, self.schema);
        let memory = &mut *self.memory;
        Builder {
            memory,
            place,
            schema,
        }
    }

    /// Lends a struct of the same message that exists and is wide enough for its schema: one that
    /// `init_struct`, `init` or `init_named` returned, if nothing else was written since.
    pub fn part<'b>(&'b mut self, part: Part<'b>) -> Builder<'b, A>
        requires there { IsThere (words_in (A.segments self.old.memory.now.arena)) part.place }
        requires wide { HoldsShape part.place (shape_of_struct part.schema) }
        ensures* lends { sem 𝓛 (Lends A.row self.entry result) }
        ensures now { result.memory.now ≡ self.old.memory.now }
        ensures place { result.place ≡ part.entry.place }
        ensures schema { result.schema ≡ part.entry.schema }
        ensures ready { IsReady A.segments result }
    {
        let Part { place, schema } = part;
        let memory = &mut *self.memory;
        Builder {
            memory,
            place,
            schema,
        }
    }

    /// Returns the struct's schema.
    pub fn get_schema(&self) -> StructSchema<'a>
        ensures { result ≡ self.now.schema }
    {
        self.schema
    }

    /// Clears a field of the struct: its bits become zero, which reads as its default, or its
    /// pointer becomes null, and all words of the old value become zero. In a group the member of
    /// discriminant 0 and all fields that are not members are cleared, through nested groups. A
    /// union member becomes the active member. Nothing is allocated, and it is never refused.
    pub fn clear(&mut self, field: Field<'_>) -> Result<()>
        requires ready { IsReady A.segments self.old }
        requires field { field.parent ≡ self.old.schema }
        ensures same { self.new.memory.ghost_name ≡ self.old.memory.ghost_name }
        ensures ok { result ≡ Ok tt }
        ensures writes { WritesInPlace A.segments self.old self.new (edit_of field.entry clear) }
        ensures books { A.books self.new.memory.now.arena ≡ A.books self.old.memory.now.arena }
        ensures ready { IsReady A.segments self.new }
    {
        let place = self.place;
        clear_field(&mut self.memory.arena, place, field);
        Ok(())
    }

    /// Sets a field to a value:
    /// - a plain field to a value of its type, an enum to any enum's value, Void to any value;
    /// - a field of texts or of data to a value of its own type;
    /// - a struct to any struct and a list to any list, whatever their schema, which are copied
    ///   whole; an untyped field to these two, a text or data;
    /// - a group to a struct of its own schema, as in `group_sets::set_group`.
    ///
    /// A union member becomes the active member. A plain value takes no memory. A text or data
    /// takes the words of its list if the struct's segment has room for them, otherwise at most one
    /// more. A copy takes at most twice the words of its objects.
    ///
    /// It is refused like `capnp_schema_structs::values::set_value`. Then all words are unchanged,
    /// including the struct's union, and those that were allocated for a copy are zero. The
    /// exception is a group that is set to a struct: it has a beginning of its writes.
    pub fn set<B: ReaderArena>(
        &mut self,
        field: Field<'_>,
        value: dynamic_value::Reader<'_, B>,
    ) -> Result<()>
        requires ready { IsReady A.segments self.old }
        requires field { field.parent ≡ self.old.schema }
        ensures same { self.new.memory.ghost_name ≡ self.old.memory.ghost_name }
        ensures sets { Sets A.segments A.room A.books (IsSizeOrRefusal A.refuses) self.old self.new
            field.entry (value_given B.segments value.entry (entry_of_field field.entry)) result }
        ensures flat { is_flat value.entry ≡ true
            → OnErr result (StructStays A.segments self.old self.new) }
        ensures books { A.books self.new.memory.now.arena ≡ A.books self.old.memory.now.arena }
        ensures ready { IsReady A.segments self.new }
    {
        let place = self.place;
        set_value(self.memory, place, field, &value)
    }

    /// Sets the field of a name, like `set`. `FieldNotFound`: there is none; nothing changes.
    pub fn set_named<B: ReaderArena>(
        &mut self,
        name: &str,
        value: dynamic_value::Reader<'_, B>,
    ) -> Result<()>
        requires ready { IsReady A.segments self.old }
        ensures same { self.new.memory.ghost_name ≡ self.old.memory.ghost_name }
        ensures set { AnswersNamed self.old.schema name.now (λ f r.
            Sets A.segments A.room A.books (IsSizeOrRefusal A.refuses) self.old self.new f
            (value_given B.segments value.entry (entry_of_field f)) r) result }
        ensures unknown { place_of_name name.now (fields_of_struct self.old.schema) ≡ None
            → StructStays A.segments self.old self.new }
        ensures flat { is_flat value.entry ≡ true
            → OnErr result (StructStays A.segments self.old self.new) }
        ensures books { A.books self.new.memory.now.arena ≡ A.books self.old.memory.now.arena }
        ensures ready { IsReady A.segments self.new }
    {
        let place = self.place;
        let schema = self.schema;
        let field = schema.get_field_by_name(name)?;
        set_value(self.memory, place, field, &value)
    }

    /// Clears the field of a name, like `clear`. It is only refused for a name that the struct
    /// lacks, with `FieldNotFound`; then the struct is unchanged.
    pub fn clear_named(&mut self, name: &str) -> Result<()>
        requires ready { IsReady A.segments self.old }
        ensures same { self.new.memory.ghost_name ≡ self.old.memory.ghost_name }
        ensures cleared { AnswersNamed self.old.schema name.now (λ f r.
            (r ≡ Ok tt) × WritesInPlace A.segments self.old self.new (edit_of f clear)) result }
        ensures refused { OnErr result (StructStays A.segments self.old self.new) }
        ensures books { A.books self.new.memory.now.arena ≡ A.books self.old.memory.now.arena }
        ensures ready { IsReady A.segments self.new }
    {
        let place = self.place;
        let schema = self.schema;
        let field = schema.get_field_by_name(name)?;
        clear_field(&mut self.memory.arena, place, field);
        Ok(())
    }

    /// Replaces the value of a field of a struct type by a struct of zeros and nulls, and returns
    /// its place: this is `init` of such a field. The old value is cleared. A union member becomes
    /// the active member. The struct takes the words of its schema's two sizes if this struct's
    /// segment has room for them, otherwise at most one more. `part` lends its handle.
    ///
    /// It is refused like `capnp_schema_structs::init::init_slot`, and then the struct is
    /// unchanged.
    pub fn init_struct<'b>(&mut self, field: Field<'b>) -> Result<Part<'b>>
        requires ready { IsReady A.segments self.old }
        requires field { field.parent ≡ self.old.schema }
        requires slot { is_slot (entry_of_field field) ≡ true }
        ensures same { self.new.memory.ghost_name ≡ self.old.memory.ghost_name }
        ensures puts { Puts A.segments A.room A.books (IsSizeOrRefusal A.refuses)
            self.old self.new (edit_of field.entry init) (begun_slot field.entry) result }
        ensures part { IfOk result (IsPartOf A.segments self.old self.new field.entry) }
        ensures refused { OnErr result (StructStays A.segments self.old self.new) }
        ensures books { A.books self.new.memory.now.arena ≡ A.books self.old.memory.now.arena }
        ensures ready { IsReady A.segments self.new }
    {
        let place = self.place;
        init_slot(&mut self.memory.arena, place, field)
    }

    /// Begins a field: `init`. A field of a struct type gets a struct of zeros and nulls, as in
    /// `init_struct`; a group is cleared, as in `clear`; an untyped field becomes null. The old
    /// value is cleared. A union member becomes the active member. It returns the place of the
    /// struct or the group, which `part` lends, and `None` for an untyped field. A group and an
    /// untyped field take no memory.
    ///
    /// It is refused like `capnp_schema_structs::begin::begin_field`; then the struct is unchanged.
    pub fn init<'b>(&mut self, field: Field<'b>) -> Result<Option<Part<'b>>>
        requires ready { IsReady A.segments self.old }
        requires field { field.parent ≡ self.old.schema }
        ensures same { self.new.memory.ghost_name ≡ self.old.memory.ghost_name }
        ensures puts { Puts A.segments A.room A.books (IsSizeOrRefusal A.refuses)
            self.old self.new (edit_of field.entry init)
            (begun_field (schema_around field.entry.parent) (entry_of_field field.entry)) result }
        ensures begun { IfOk result (IsBegunBy A.segments self.old self.new field.entry) }
        ensures refused { OnErr result (StructStays A.segments self.old self.new) }
        ensures books { A.books self.new.memory.now.arena ≡ A.books self.old.memory.now.arena }
        ensures ready { IsReady A.segments self.new }
    {
        let place = self.place;
        begin_field(&mut self.memory.arena, place, field)
    }

    /// Replaces the value of a field of text, data or a list type by n zeros: `initn`. A text or
    /// data becomes n zero bytes, and a text also has its own zero byte. A list becomes n zeros,
    /// nulls or empty structs of its elements' type. The old value is cleared. A union member
    /// becomes the active member. The list takes its words, including the tag of structs, if this
    /// struct's segment has room for them, otherwise at most one more.
    ///
    /// It is refused like `capnp_schema_structs::initn::initn_slot`; then the struct is unchanged.
    pub fn initn(&mut self, field: Field<'_>, count: u32) -> Result<()>
        requires ready { IsReady A.segments self.old }
        requires field { field.parent ≡ self.old.schema }
        ensures same { self.new.memory.ghost_name ≡ self.old.memory.ghost_name }
        ensures puts { Puts A.segments A.room A.books (IsSizeOrRefusal A.refuses)
            self.old self.new (edit_of field.entry (initn count))
            (initn_field (schema_around field.entry.parent) count (entry_of_field field.entry))
            result }
        ensures refused { OnErr result (StructStays A.segments self.old self.new) }
        ensures books { A.books self.new.memory.now.arena ≡ A.books self.old.memory.now.arena }
        ensures ready { IsReady A.segments self.new }
    {
        let place = self.place;
        initn_slot(&mut self.memory.arena, place, field, count)
    }

    /// Begins the field of a name, like `init`. A name that the struct lacks is refused with
    /// `FieldNotFound`, and everything is unchanged.
    pub fn init_named(&mut self, name: &str) -> Result<Option<Part<'a>>>
        requires ready { IsReady A.segments self.old }
        ensures same { self.new.memory.ghost_name ≡ self.old.memory.ghost_name }
        ensures puts { AnswersNamed self.old.schema name.now (λ f r. Puts A.segments A.room A.books
            (IsSizeOrRefusal A.refuses) self.old self.new (edit_of f init)
            (begun_field (schema_around f.parent) (entry_of_field f)) r
            × IfOk r (IsBegunBy A.segments self.old self.new f)) result }
        ensures there { IfOk result
            (IsThereIfTold (words_in (A.segments self.new.memory.now.arena))) }
        ensures refused { OnErr result (StructStays A.segments self.old self.new) }
        ensures books { A.books self.new.memory.now.arena ≡ A.books self.old.memory.now.arena }
        ensures ready { IsReady A.segments self.new }
    {
        let place = self.place;
        let schema = self.schema;
        let found = schema.get_field_by_name(name)?;
        begin_field(&mut self.memory.arena, place, found)
    }

    /// Replaces the value of the field of a name by n zeros, like `initn`. A name that the struct
    /// lacks is refused with `FieldNotFound`, and everything is unchanged.
    pub fn initn_named(&mut self, name: &str, count: u32) -> Result<()>
        requires ready { IsReady A.segments self.old }
        ensures same { self.new.memory.ghost_name ≡ self.old.memory.ghost_name }
        ensures puts { AnswersNamed self.old.schema name.now (λ f r. Puts A.segments A.room A.books
            (IsSizeOrRefusal A.refuses) self.old self.new (edit_of f (initn count))
            (initn_field (schema_around f.parent) count (entry_of_field f)) r) result }
        ensures refused { OnErr result (StructStays A.segments self.old self.new) }
        ensures books { A.books self.new.memory.now.arena ≡ A.books self.old.memory.now.arena }
        ensures ready { IsReady A.segments self.new }
    {
        let place = self.place;
        let schema = self.schema;
        let found = schema.get_field_by_name(name)?;
        initn_slot(&mut self.memory.arena, place, found, count)
    }

    /// Returns the struct to read, under its schema and the arena's nesting limit.
    pub fn reborrow_as_reader(&self) -> dynamic_struct::Reader<'_, A>
        requires ready { IsReady A.segments self.now }
        ensures source { struct_seen A.segments result.source
            ≡ struct_view_of A.segments A.nesting self.now }
        ensures schema { result.schema ≡ self.now.schema }
    {
        read_at(&self.memory.arena, self.place, self.schema)
    }

    /// Consumes the handle, and returns the struct to read.
    pub fn into_reader(self) -> dynamic_struct::Reader<'a, A>
        requires ready { IsReady A.segments self }
        ensures source { struct_seen A.segments result.source
            ≡ struct_view_of A.segments A.nesting self.entry }
        ensures schema { result.schema ≡ self.entry.schema }
    {
        let Builder {
            memory,
            place,
            schema,
        } = self;
        read_at(&memory.arena, place, schema)
    }

    /// Returns whether a field of the struct is present. It is not present if it is a union member
    /// that isn't active, or if its pointer is null. Other fields are present, groups too. It is
    /// never refused.
    pub fn has(&self, field: Field<'_>) -> Result<bool>
        requires ready { IsReady A.segments self.now }
        ensures { result
            ≡ Ok (has_field (struct_view_of A.segments A.nesting self.now) field.entry) }
    {
        self.reborrow_as_reader().has(field)
    }

    /// Returns whether the field of a name is present, like `has`. It is only refused for a name
    /// that the struct lacks, with `FieldNotFound`.
    pub fn has_named(&self, name: &str) -> Result<bool>
        requires ready { IsReady A.segments self.now }
        ensures { AnswersNamed self.now.schema name.now
            (TellsField (struct_view_of A.segments A.nesting self.now)) result }
    {
        self.reborrow_as_reader().has_named(name)
    }

    /// Returns the union's active member: `None` without a union, and if no member has the
    /// discriminant. It is never refused.
    pub fn which(&self) -> Result<Option<Field<'_>>>
        requires ready { IsReady A.segments self.now }
        ensures { IsOkAnd result
            (IsFieldAt self.now.schema
            (active_index self.now.schema (struct_view_of A.segments A.nesting self.now))) }
    {
        self.reborrow_as_reader().which()
    }
}
