//! Downcasts of values to write: the value of one variant.
ghost use Rattle.std.specs.Prelude.{◌≡◌, Option, Some, is_some, true};
ghost use Rattle.capnp_schema_values.specs.declared.dynamic_value.Builder.{Builder as Value};
ghost use Rattle.capnp_schema_values.specs.Variants.{built_enum, built_text, built_data, built_list, built_struct, built_untyped};

use crate::any_pointer;
use crate::dynamic_value::Builder;
use capnp_layout_builders::data_builder::DataBuilder;
use capnp_layout_builders::text_builder::TextBuilder;
use capnp_schema_lists::dynamic_list;
use capnp_schema_structs::dynamic_struct;
use capnp_values::dynamic_value::Enum;

/// A type that one variant of values to write holds: an enum's value, or a handle. A plain value is
/// taken from `Builder::into_reader`.
pub trait DowncastBuilder<'a, A>: Sized {
    /// The value in that variant, if a value is of it.
    ghost variant: { Value A → Option Self };

    /// Returns whether a value is of the variant.
    fn fits(value: &Builder<'a, A>) -> bool
        ensures { result ≡ is_some (variant value.now) };

    /// Returns the value in the variant; the value must be of this variant.
    fn downcast_builder(value: Builder<'a, A>) -> Self
        requires { is_some (variant value) ≡ true }
        ensures { variant value.entry ≡ Some result };
}

impl<'a, A> DowncastBuilder<'a, A> for Enum<'a> {
    ghost variant = { built_enum };

    fn fits(value: &Builder<'a, A>) -> bool {
        matches!(value, Builder::Enum(_))
    }

    fn downcast_builder(value: Builder<'a, A>) -> Enum<'a>
        requires { is_some (built_enum value) ≡ true }
        ensures { built_enum value.entry ≡ Some result }
    {
        let Builder::Enum(inner) = value else {
            unreachable!()
        };
        inner
    }
}

impl<'a, A> DowncastBuilder<'a, A> for TextBuilder<'a, A> {
    ghost variant = { built_text };

    fn fits(value: &Builder<'a, A>) -> bool {
        matches!(value, Builder::Text(_))
    }

    fn downcast_builder(value: Builder<'a, A>) -> TextBuilder<'a, A>
        requires { is_some (built_text value) ≡ true }
        ensures { built_text value.entry ≡ Some result }
    {
        let Builder::Text(inner) = value else {
            unreachable!()
        };
        inner
    }
}

impl<'a, A> DowncastBuilder<'a, A> for DataBuilder<'a, A> {
    ghost variant = { built_data };

    fn fits(value: &Builder<'a, A>) -> bool {
        matches!(value, Builder::Data(_))
    }

    fn downcast_builder(value: Builder<'a, A>) -> DataBuilder<'a, A>
        requires { is_some (built_data value) ≡ true }
        ensures { built_data value.entry ≡ Some result }
    {
        let Builder::Data(inner) = value else {
            unreachable!()
        };
        inner
    }
}

impl<'a, A> DowncastBuilder<'a, A> for dynamic_list::Builder<'a, A> {
    ghost variant = { built_list };

    fn fits(value: &Builder<'a, A>) -> bool {
        matches!(value, Builder::List(_))
    }

    fn downcast_builder(value: Builder<'a, A>) -> dynamic_list::Builder<'a, A>
        requires { is_some (built_list value) ≡ true }
        ensures { built_list value.entry ≡ Some result }
    {
        let Builder::List(inner) = value else {
            unreachable!()
        };
        inner
    }
}

impl<'a, A> DowncastBuilder<'a, A> for dynamic_struct::Builder<'a, A> {
    ghost variant = { built_struct };

    fn fits(value: &Builder<'a, A>) -> bool {
        matches!(value, Builder::Struct(_))
    }

    fn downcast_builder(value: Builder<'a, A>) -> dynamic_struct::Builder<'a, A>
        requires { is_some (built_struct value) ≡ true }
        ensures { built_struct value.entry ≡ Some result }
    {
        let Builder::Struct(inner) = value else {
            unreachable!()
        };
        inner
    }
}

impl<'a, A> DowncastBuilder<'a, A> for any_pointer::Builder<'a, A> {
    ghost variant = { built_untyped };

    fn fits(value: &Builder<'a, A>) -> bool {
        matches!(value, Builder::AnyPointer(_))
    }

    fn downcast_builder(value: Builder<'a, A>) -> any_pointer::Builder<'a, A>
        requires { is_some (built_untyped value) ≡ true }
        ensures { built_untyped value.entry ≡ Some result }
    {
        let Builder::AnyPointer(inner) = value else {
            unreachable!()
        };
        inner
    }
}
