//! Calls that are resolved under the schema of a root, once for all messages.
ghost use Rattle.std.specs.Prelude.{◌≡◌, ◌++◌, true, map, IfOk, IfErr, IfSome, OnOk};
ghost use Rattle.capnp_units.specs.declared.kinds.ErrorKind.{ErrorKind};
ghost use Rattle.capnp_model.specs.Schemas.{struct};
ghost use Rattle.capnp_model.specs.InKindCalls.{at_value, end_of};
ghost use Rattle.capnp_values_queries.specs.Structs.{nodes_around, schema_around, id_of};
ghost use Rattle.capnp_calls.specs.CallViews.{step_view, action_view, call_view};
ghost use Rattle.capnp_calls.specs.Ends.{end_view, IsEndOf, found_fields};
ghost use Rattle.capnp_calls.specs.Ways.{IsWay};
ghost use Rattle.capnp_calls.specs.Hops.{EndsSmall, TellsCourse};
ghost use Rattle.capnp_calls.specs.Resolved.{calls_of, AreResolved, KnowSplices};

use crate::ends::{End, next_end};
use crate::find::FoundField;
use crate::long::puts_long_at;
use crate::splices::{Course, course_after, next_hop, note_hop, splice_to};
use crate::{Action, Call, Step};
use capnp_calls_splice::splice::{Hop, Splice};
use capnp_units::errors::Result;
use capnp_values_queries::introspect::{Type, TypeVariant};
use capnp_values_queries::structs::StructSchema;
use std::alloc::Global;

/// The end of a path from a struct, with its fields and hops.
#[derive(Drop)]
struct Walk<'a> {
    /// The fields that its names find, in order.
    fields: Vec<FoundField>,
    end: End<'a>,
    /// The hops that it makes, if the path goes by hops.
    hops: Vec<Hop>,
    course: Course,
}

/// Adds the field that a step finds. `OutOfMemory`: the list can't grow.
fn note(fields: &mut Vec<FoundField>, found: Option<FoundField>) -> Result<()>
    ensures items { OnOk result (fields.new.items ≡ fields.old.items ++ found_fields found) }
    ensures kind { IfErr result (λ e. e.kind ≡ ErrorKind.OutOfMemory) }
{
    if let Some(found) = found {
        fields.push(found)?;
    }
    Ok(())
}

/// Follows a path from a struct on. `OutOfMemory`: memory for the fields of its names, or for its
/// hops, was refused.
fn walk_path<'a>(alloc: Global, root: StructSchema<'a>, path: &[Step]) -> Result<Walk<'a>>
    ensures way { IfOk result (λ w.
        IsWay (schema_around root.entry) (map step_view path.now) w.fields.items) }
    ensures end { IfOk result (λ w. end_view w.end ≡ end_of (schema_around root.entry)
        (map step_view path.now) (at_value (struct (id_of root.entry)))) }
    ensures of_set { IfOk result (λ w. IsEndOf (nodes_around root.entry) w.end) }
    ensures small { IfOk result (λ w. EndsSmall (end_view w.end)) }
    ensures course { IfOk result (λ w. TellsCourse root.entry w.hops.items
        (map step_view path.now) (end_view w.end) w.course) }
    ensures kind { IfErr result (λ e. e.kind ≡ ErrorKind.OutOfMemory) }
{
    let mut fields = Vec::new(alloc);
    let mut hops = Vec::new(alloc);
    let mut course = Course {
        is_straight: true,
        mark: None,
        element: None,
    };
    let mut end = End::Value(Type::from(TypeVariant::Struct(root.raw())));
    for step in path {
        let next = next_end(root.set(), step, end);
        note(&mut fields, next.found)?;
        let onward = note_hop(&mut hops, course.is_straight, next_hop(end, step))?;
        course = course_after(onward, next);
        end = next.end;
    }
    Ok(Walk {
        fields,
        end,
        hops,
        course,
    })
}

/// A call that is resolved under the schema of a root.
#[derive(Debug, Drop)]
pub struct Resolved<'a> {
    call: &'a Call,
    fields: Vec<FoundField>,
    is_long: bool,
    splice: Option<Splice>,
}

impl<'a> Resolved<'a> {
    ghost use Rattle.std.specs.Prelude.{option_copied};
    ghost use Rattle.capnp_calls.specs.Resolved.{call_of, IsResolved, KnowsSplice};

    /// Resolves a call from roots of this schema on. `OutOfMemory`: memory for the fields of its
    /// path, or for its splice, was refused.
    pub fn new(alloc: Global, root: StructSchema<'_>, call: &'a Call) -> Result<Resolved<'a>>
        ensures resolved { IfOk result (IsResolved root.entry) }
        ensures call { IfOk result (λ r. call_of r ≡ call_view call.now) }
        ensures splice { IfOk result (KnowsSplice root.entry) }
        ensures kind { IfErr result (λ e. e.kind ≡ ErrorKind.OutOfMemory) }
    {
        let Walk {
            fields,
            end,
            hops,
            course,
        } = walk_path(alloc, root, call.path())?;
        let is_long = puts_long_at(root.set(), end, call.action());
        let splice = splice_to(alloc, hops, course, end, call.action())?;
        Ok(Resolved {
            call,
            fields,
            is_long,
            splice,
        })
    }

    /// Returns the call.
    pub fn call(&self) -> &'a Call
        ensures { call_view result.now ≡ call_of self.now }
    {
        self.call
    }

    /// Returns the path, which has at least one step.
    #[inline]
    pub fn path(&self) -> &[Step]
        ensures { map step_view result.now ≡ (call_of self.now).path }
    {
        self.call.path()
    }

    /// Returns the action at the end of the path, with its value.
    #[inline]
    pub fn action(&self) -> &Action
        ensures { action_view result.now ≡ (call_of self.now).verb }
    {
        self.call.action()
    }

    /// Returns the fields that the names of the path find, in order.
    #[inline]
    pub fn fields(&self) -> &[FoundField]
        ensures { result.now ≡ self.now.fields.items }
    {
        &self.fields
    }

    /// Returns whether the call, if it is done, makes a text or data of 2^29 bytes or more
    /// including the last zero, or structs of 2^29 words or more. Values of messages aren't looked
    /// at.
    #[inline]
    pub fn is_long(&self) -> bool
        ensures { result ≡ self.now.is_long }
    {
        self.is_long
    }

    /// Returns the write of the call into canonical words in place, and its hops from the root.
    /// There is a splice for the `set` of these, to a value of its type:
    /// - a plain field, a text or data;
    /// - a plain or void member of a union;
    /// - an element of a list of plain values, texts or data.
    ///
    /// It returns `None` otherwise, and also if
    /// - the path goes through something other than structs, groups and elements of lists of
    ///   structs;
    /// - a field before the last, or the list of the element, is a member of a union.
    #[inline]
    pub fn splice(&self) -> Option<&Splice>
        ensures { option_copied result ≡ self.now.splice }
    {
        self.splice.as_ref()
    }
}

/// Resolves calls from roots of this schema on, in order. `OutOfMemory`: memory for them was
/// refused.
pub fn resolve<'a>(
    alloc: Global,
    root: StructSchema<'_>,
    calls: &'a [Call],
) -> Result<Vec<Resolved<'a>>>
    ensures resolved { IfOk result (λ found. AreResolved root.entry found.items) }
    ensures calls { IfOk result (λ found. calls_of found.items ≡ map call_view calls.now) }
    ensures splices { IfOk result (λ found. KnowSplices root.entry found.items) }
    ensures kind { IfErr result (λ e. e.kind ≡ ErrorKind.OutOfMemory) }
{
    let mut found = Vec::new(alloc);
    for call in calls {
        found.push(Resolved::new(alloc, root, call)?)?;
    }
    Ok(found)
}
