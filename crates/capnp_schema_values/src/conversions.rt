//! Values to write made from values of known types.
ghost use Rattle.std.specs.Prelude.{◌≡◌};
ghost use Rattle.capnp_schema_values.specs.declared.dynamic_value.Builder.TheVariants as value;

use crate::any_pointer;
use crate::dynamic_value::Builder;
use capnp_layout_builders::data_builder::DataBuilder;
use capnp_layout_builders::text_builder::TextBuilder;
use capnp_schema_lists::dynamic_list;
use capnp_schema_structs::dynamic_struct;
use capnp_values::dynamic_value::{Capability, Enum};

impl<'a, A> From<Enum<'a>> for Builder<'a, A> {
    ghost from_gives = { λ x v. v ≡ value.Enum x };

    fn from(value: Enum<'a>) -> Self {
        Builder::Enum(value)
    }
}

impl<'a, A> From<TextBuilder<'a, A>> for Builder<'a, A> {
    ghost from_gives = { λ x v. v ≡ value.Text x };

    fn from(value: TextBuilder<'a, A>) -> Self {
        Builder::Text(value)
    }
}

impl<'a, A> From<DataBuilder<'a, A>> for Builder<'a, A> {
    ghost from_gives = { λ x v. v ≡ value.Data x };

    fn from(value: DataBuilder<'a, A>) -> Self {
        Builder::Data(value)
    }
}

impl<'a, A> From<dynamic_list::Builder<'a, A>> for Builder<'a, A> {
    ghost from_gives = { λ x v. v ≡ value.List x };

    fn from(value: dynamic_list::Builder<'a, A>) -> Self {
        Builder::List(value)
    }
}

impl<'a, A> From<dynamic_struct::Builder<'a, A>> for Builder<'a, A> {
    ghost from_gives = { λ x v. v ≡ value.Struct x };

    fn from(value: dynamic_struct::Builder<'a, A>) -> Self {
        Builder::Struct(value)
    }
}

impl<'a, A> From<any_pointer::Builder<'a, A>> for Builder<'a, A> {
    ghost from_gives = { λ x v. v ≡ value.AnyPointer x };

    fn from(value: any_pointer::Builder<'a, A>) -> Self {
        Builder::AnyPointer(value)
    }
}

impl<'a, A> From<Capability> for Builder<'a, A> {
    ghost from_gives = { λ x v. v ≡ value.Capability x };

    fn from(value: Capability) -> Self {
        Builder::Capability(value)
    }
}
